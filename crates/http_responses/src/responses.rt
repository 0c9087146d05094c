//! The responses to messages: the answers of the broker, and the refusals by HTTP.
ghost use Rattle.std.specs.Prelude.{◌≡◌, ◌<◌, ◌≤◌, ℕ, true, [], ◌++◌, length, take, vec_len, vec_capacity, IfErr, OnErr, OnOk};
ghost use Rattle.std.specs.Io.KnownBytes.{Appends};
ghost use Rattle.http_responses.specs.Head.{has_phrase, allow_of};
ghost use Rattle.http_responses.specs.Responses.{refusal_status, refusal_text, refusal_response, sent_part, no_route_response, no_method_response, answer_response, response_of, Writes};

use crate::head::{HEAD_CAPACITY, write_head};
use crate::whole::write_whole;
use crate::writing::{FallibleWrite, WriteFault};
use answer_texts::RenderedAnswer;
use http::StatusCode;
use http_messages::head::Refusal;
use http_routes::Resource;

/// How many bytes of buffer a response is best given: most responses fit, and so go out by one call of the writer.
pub const RESPONSE_CAPACITY: usize = 8192;

/// How a response goes out.
#[derive(Clone, Copy, Debug)]
struct Form {
    status: StatusCode,
    /// The resource whose methods are reported with the status 405.
    resource: Option<Resource>,
    /// Whether the connection closes after it.
    closes: bool,
    /// Whether it goes without its body.
    is_bodiless: bool,
}

/// The part of a body that is sent.
#[tactic(auto, unfolding(crate::specs::Responses::sent_part))]
fn sent_part(is_bodiless: bool, body: &str) -> &str
    ensures { result.now ≡ sent_part is_bodiless body.now }
{
    if is_bodiless { "" } else { body }
}

/// Appends as much of a body as the capacity has room for, which takes no memory, and gives the rest of it.
fn append_front<'a>(text: &mut Vec<u8>, body: &'a [u8]) -> &'a [u8]
    ensures whole { text.new.items ++ result.now ≡ text.old.items ++ body.now }
    ensures full { 0 < length result.now → vec_len text.new ≡ vec_capacity text.old }
    ensures capacity { vec_capacity text.old ≤ vec_capacity text.new }
{
    let room = text.capacity() - text.len();
    let (front, rest) = body.split_at(room.min(body.len()));
    let _ = text.extend_from_slice(front);
    rest
}

/// Writes the two parts of a response, the second by no call if it is empty.
fn write_parts<W: FallibleWrite>(
    writer: &mut W,
    front: &[u8],
    rest: &[u8],
) -> Result<(), WriteFault>
    ensures ok { OnOk result (Appends (W.contents writer.old) (W.contents writer.new) (front.now ++ rest.now)) }
    ensures err { OnErr result ((n : ℕ) × (n < length (front.now ++ rest.now))
        × Appends (W.contents writer.old) (W.contents writer.new) (take n (front.now ++ rest.now))) }
    ensures failed { IfErr result (λ _. W.HasFailed writer.new) }
{
    write_whole(writer, front)?;
    write_whole(writer, rest)
}

/// Writes a response and says whether the connection closes after it. Its head goes through the buffer, which has the
/// capacity for it, and with it what the buffer has room for of the body: so a response that fits goes out by one call
/// of the writer, and the rest of one that doesn't by another. What the buffer had before is lost.
fn write_response<W: FallibleWrite>(
    writer: &mut W,
    head_buffer: &mut Vec<u8>,
    form: Form,
    body: &str,
) -> Result<bool, WriteFault>
    requires capacity { HEAD_CAPACITY ≤ vec_capacity head_buffer.old }
    requires known { has_phrase form.status ≡ true }
    ensures writes { Writes (W.contents writer.old) (W.contents writer.new)
        (response_of form.status (allow_of form.resource) form.closes form.is_bodiless body.now) result }
    ensures failed { IfErr result (λ _. W.HasFailed writer.new) }
    ensures capacity { HEAD_CAPACITY ≤ vec_capacity head_buffer.new }
{
    head_buffer.clear();
    write_head(
        head_buffer,
        form.status,
        form.resource,
        form.closes,
        body.len(),
    );
    let sent = sent_part(form.is_bodiless, body);
    let rest = append_front(head_buffer, sent.as_bytes());
    match write_parts(writer, head_buffer.as_slice(), rest) {
        Ok(()) => Ok(form.closes),
        Err(fault) => Err(fault),
    }
}

fn refusal_status(refusal: Refusal) -> StatusCode
    ensures { result ≡ refusal_status refusal }
{
    match refusal {
        Refusal::BadRequest => StatusCode::BAD_REQUEST,
        Refusal::BodyTooLarge => StatusCode::PAYLOAD_TOO_LARGE,
        Refusal::HeadTooLarge => StatusCode::REQUEST_HEADER_FIELDS_TOO_LARGE,
        Refusal::NotImplemented => StatusCode::NOT_IMPLEMENTED,
    }
}

fn refusal_text(refusal: Refusal) -> &'static str
    ensures { result.now ≡ refusal_text refusal }
{
    match refusal {
        Refusal::BadRequest => "{\"answer\":\"refused\",\"status\":400}",
        Refusal::BodyTooLarge => "{\"answer\":\"refused\",\"status\":413}",
        Refusal::HeadTooLarge => "{\"answer\":\"refused\",\"status\":431}",
        Refusal::NotImplemented => "{\"answer\":\"refused\",\"status\":501}",
    }
}

/// Says that a head is refused. The connection closes, which is the result `true`.
///
/// `head_buffer` has the capacity of the head of a response, here and below, and keeps it, so that one buffer serves for
/// many of them. What it has is lost.
pub fn write_refusal<W: FallibleWrite>(
    writer: &mut W,
    head_buffer: &mut Vec<u8>,
    refusal: Refusal,
    is_bodiless: bool,
) -> Result<bool, WriteFault>
    requires capacity { HEAD_CAPACITY ≤ vec_capacity head_buffer.old }
    ensures writes { Writes (W.contents writer.old) (W.contents writer.new)
        (refusal_response refusal is_bodiless) result }
    ensures failed { IfErr result (λ _. W.HasFailed writer.new) }
    ensures capacity { HEAD_CAPACITY ≤ vec_capacity head_buffer.new }
{
    let form = Form {
        status: refusal_status(refusal),
        resource: None,
        closes: true,
        is_bodiless,
    };
    write_response(writer, head_buffer, form, refusal_text(refusal))
}

/// Says that a path has no route.
pub fn write_no_route<W: FallibleWrite>(
    writer: &mut W,
    head_buffer: &mut Vec<u8>,
    closes: bool,
) -> Result<bool, WriteFault>
    requires capacity { HEAD_CAPACITY ≤ vec_capacity head_buffer.old }
    ensures writes { Writes (W.contents writer.old) (W.contents writer.new) (no_route_response closes) result }
    ensures failed { IfErr result (λ _. W.HasFailed writer.new) }
    ensures capacity { HEAD_CAPACITY ≤ vec_capacity head_buffer.new }
{
    let form = Form {
        status: StatusCode::NOT_FOUND,
        resource: None,
        closes,
        is_bodiless: false,
    };
    write_response(writer, head_buffer, form, "{\"answer\":\"no route\"}")
}

/// Says that a resource doesn't have the method, and which it has.
pub fn write_no_method<W: FallibleWrite>(
    writer: &mut W,
    head_buffer: &mut Vec<u8>,
    resource: Resource,
    closes: bool,
) -> Result<bool, WriteFault>
    requires capacity { HEAD_CAPACITY ≤ vec_capacity head_buffer.old }
    ensures writes { Writes (W.contents writer.old) (W.contents writer.new)
        (no_method_response resource closes) result }
    ensures failed { IfErr result (λ _. W.HasFailed writer.new) }
    ensures capacity { HEAD_CAPACITY ≤ vec_capacity head_buffer.new }
{
    let form = Form {
        status: StatusCode::METHOD_NOT_ALLOWED,
        resource: Some(resource),
        closes,
        is_bodiless: false,
    };
    write_response(writer, head_buffer, form, "{\"answer\":\"no method\"}")
}

/// Writes the answer to a command.
pub fn write_answer<W: FallibleWrite>(
    writer: &mut W,
    head_buffer: &mut Vec<u8>,
    answer: &RenderedAnswer,
    closes: bool,
) -> Result<bool, WriteFault>
    requires capacity { HEAD_CAPACITY ≤ vec_capacity head_buffer.old }
    ensures writes { Writes (W.contents writer.old) (W.contents writer.new)
        (answer_response answer.now closes) result }
    ensures failed { IfErr result (λ _. W.HasFailed writer.new) }
    ensures capacity { HEAD_CAPACITY ≤ vec_capacity head_buffer.new }
{
    let form = Form {
        status: answer.status(),
        resource: None,
        closes,
        is_bodiless: false,
    };
    write_response(writer, head_buffer, form, answer.body())
}
