//! One message and its response.
ghost use Rattle.std.specs.Prelude.{◌≡◌, ◌≤◌, vec_capacity, IfOk, IfErr};
ghost use Rattle.broker_database.specs.Calls.{Applied};
ghost use Rattle.http_messages.specs.Message.{message};
ghost use Rattle.http_messages.specs.Views.{IsHeadRead};
ghost use Rattle.http_requests.specs.Requests.{AsksOperation};
ghost use Rattle.broker_http.specs.Calls.{ByBroker, IsResponded};
ghost use Rattle.broker_http.specs.Faults.{ReportsDevice};
ghost use Rattle.broker_http.specs.Stream.{ExchangeCut, ExchangeDone};

use crate::served::StreamFault;
use answer_texts::RenderedAnswer;
use broker_core::command::Command;
use broker_database::Service;
use broker_names::name::Token;
use http_messages::head::{Head, Refused};
use http_requests::{Request, read_request};
use http_responses::{
    FallibleWrite, HEAD_CAPACITY, WriteFault, write_answer, write_no_method, write_no_route,
    write_refusal,
};
use http_routes::RouteTable;
use std::alloc::Global;

/// Runs a command of the caller with this token.
fn apply<B: Service>(
    alloc: Global,
    broker: &mut B,
    token: &Option<Token>,
    command: &Command,
) -> RenderedAnswer
    ensures { Applied B.shown (B.seen broker.old) token.now command.now result (B.seen broker.new) }
{
    match token {
        Some(token) => broker.apply(alloc, Some(token.as_str()), command),
        None => broker.apply(alloc, None, command),
    }
}

/// Answers what a message asks, and says whether the response closes the stream.
///
/// The response goes through the buffer, its head whole, so that nothing is allocated after the command.
fn respond<B: Service, W: FallibleWrite>(
    alloc: Global,
    broker: &mut B,
    request: Request,
    head_buffer: &mut Vec<u8>,
    writer: &mut W,
) -> Result<bool, WriteFault>
    requires capacity { HEAD_CAPACITY ≤ vec_capacity head_buffer.old }
    ensures responded { IsResponded B.shown (B.seen broker.old) (B.seen broker.new)
        (W.contents writer.old) (W.contents writer.new) request result }
    ensures failed { IfErr result (λ _. W.HasFailed writer.new) }
    ensures capacity { HEAD_CAPACITY ≤ vec_capacity head_buffer.new }
{
    match request {
        Request::Refused {
            refusal,
            is_bodiless,
        } => write_refusal(writer, head_buffer, refusal, is_bodiless),
        Request::NoRoute { closes } => write_no_route(writer, head_buffer, closes),
        Request::NoMethod { resource, closes } => write_no_method(
            writer,
            head_buffer,
            resource,
            closes,
        ),
        Request::Asks {
            token,
            command,
            closes,
        } => {
            let answer = apply(alloc, broker, &token, &command);
            drop(command);
            let written = write_answer(writer, head_buffer, &answer, closes);
            drop(answer);
            written
        }
    }
}

/// Answers a message by its head, what was read of it, and its body, and says whether the response closes the stream.
///
/// `Memory` comes before anything is done, and only of a message that asks an operation; `Write` leaves a part of the
/// response out.
pub(crate) fn answer<B: Service, W: FallibleWrite>(
    alloc: Global,
    routes: &RouteTable,
    broker: &mut B,
    text: &[u8],
    head: Result<Head, Refused>,
    body: &[u8],
    head_buffer: &mut Vec<u8>,
    writer: &mut W,
) -> Result<bool, StreamFault>
    requires read { IsHeadRead text.now head }
    requires capacity { HEAD_CAPACITY ≤ vec_capacity head_buffer.old }
    ensures ok { IfOk result (ExchangeDone (ByBroker B.shown) (B.seen broker.old) (message text.now body.now)
        (B.seen broker.new) (W.contents writer.old) (W.contents writer.new)) }
    ensures fault { IfErr result (ExchangeCut (ByBroker B.shown) (B.seen broker.old) (message text.now body.now)
        (B.seen broker.new) (W.contents writer.old) (W.contents writer.new)) }
    ensures memory { IfErr result (λ fault. fault ≡ StreamFault.Memory → AsksOperation (message text.now body.now)) }
    ensures failed { IfErr result (λ fault. ReportsDevice fault ⊥ (W.HasFailed writer.new)) }
    ensures kept { HEAD_CAPACITY ≤ vec_capacity head_buffer.new }
{
    let Ok(request) = read_request(alloc, routes, text, head, body) else {
        return Err(StreamFault::Memory);
    };
    let closes = respond(alloc, broker, request, head_buffer, writer)?;
    Ok(closes)
}
