//! Serving a stream.
ghost use Rattle.std.specs.Prelude.{◌≡◌, ◌+◌, ◌≤◌, length, take, drop, IfErr};
ghost use Rattle.std.specs.Io.KnownBytes.{Keeps};
ghost use Rattle.broker_http.specs.Calls.{IsAnsweredByBroker, IsServed, IsServedOrIdle};
ghost use Rattle.broker_http.specs.Faults.{ReportsDevice};

use crate::exchange::answer;
use crate::served::{Ended, ServeFault, Served, StreamFault};
use broker_database::Service;
use http_messages::buffer::{Buffer, drop_front};
use http_messages::device::FallibleRead;
use http_messages::reading::{ReadOutcome, read_message};
use http_messages::turn::TurnOver;
use http_responses::{FallibleWrite, RESPONSE_CAPACITY};
use http_routes::RouteTable;
use std::alloc::Global;
use std::io::Read;

/// When a stream ends between two of its messages, though its reader goes on.
pub(crate) trait Turn<R: Read> {
    /// Its end, if it ends now, where some of the next message was read already or not. What the reader gives stays.
    fn is_over(reader: &mut R, is_begun: bool) -> Option<TurnOver>
        ensures { Keeps (R.remaining reader.old) (R.remaining reader.new) };
}

/// It doesn't end so.
struct Endless;

impl<R: Read> Turn<R> for Endless {
    fn is_over(_reader: &mut R, _is_begun: bool) -> Option<TurnOver> {
        None
    }
}

/// The head and the body of the message at the front.
fn message_parts(bytes: &[u8], head_len: usize, body_len: usize) -> (&[u8], &[u8])
    requires { head_len + body_len ≤ length bytes.now }
    ensures head { result.0.now ≡ take head_len bytes.now }
    ensures body { result.1.now ≡ take body_len (drop head_len bytes.now) }
{
    let (head, following) = bytes.split_at(head_len);
    (head, &following[..body_len])
}

/// Answers the messages of a stream one after another, by what the broker promises of each command on any disk.
///
/// It is apart from `serve_for`, whose clause on the machine follows from this one at once.
fn serve_messages<T: Turn<R>, R: FallibleRead, W: FallibleWrite, B: Service>(
    alloc: Global,
    routes: &RouteTable,
    broker: &mut B,
    reader: &mut R,
    writer: &mut W,
) -> Result<Served, StreamFault>
    ensures answers { IsAnsweredByBroker B.shown (B.seen broker.old) (B.seen broker.new)
        (R.remaining reader.old) (R.remaining reader.new)
        (W.contents writer.old) (W.contents writer.new) result }
    ensures failed { IfErr result (λ fault. ReportsDevice fault (R.HasFailed reader.new) (W.HasFailed writer.new)) }
{
    let Ok(mut buffer) = Buffer::new(alloc) else {
        return Err(StreamFault::Memory);
    };
    let Ok(mut head_buffer) = Vec::with_capacity(alloc, RESPONSE_CAPACITY) else {
        return Err(StreamFault::Memory);
    };
    for answered in 0..u64::MAX {
        if let Some(over) = T::is_over(reader, !buffer.is_empty()) {
            return Err(StreamFault::Turn(over));
        }
        let (head_len, body_len, head) = match read_message(reader, &mut buffer)? {
            ReadOutcome::Message {
                head_len,
                body_len,
                head,
            } => (head_len, body_len, head),
            ReadOutcome::End => {
                let ended = if buffer.is_empty() {
                    Ended::AtEnd
                } else {
                    Ended::Rest
                };
                return Ok(Served { answered, ended });
            }
        };
        let (text, body) = message_parts(buffer.as_slice(), head_len, body_len);
        if answer(
            alloc,
            routes,
            broker,
            text,
            head,
            body,
            &mut head_buffer,
            writer,
        )? {
            return Ok(Served {
                answered: answered + 1,
                ended: Ended::Closed,
            });
        }
        drop_front(&mut buffer, head_len + body_len);
    }
    Err(StreamFault::Count)
}

/// Answers the requests of a stream as `serve_stream` does, until its turn is over.
pub(crate) fn serve_for<T: Turn<R>, R: FallibleRead, W: FallibleWrite, B: Service>(
    alloc: Global,
    routes: &RouteTable,
    broker: &mut B,
    reader: &mut R,
    writer: &mut W,
) -> Result<Served, StreamFault>
    ensures served { IsServed B.shown (B.seen broker.old) (B.seen broker.new)
        (R.remaining reader.old) (R.remaining reader.new)
        (W.contents writer.old) (W.contents writer.new) result }
    ensures failed { IfErr result (λ fault. ReportsDevice fault (R.HasFailed reader.new) (W.HasFailed writer.new)) }
{
    serve_messages::<T, R, W, B>(alloc, routes, broker, reader, writer)
}

/// Answers the requests of a stream by HTTP/1.1 (RFC 9112) one after another, each command in one transaction of the
/// broker, until an answer closes the stream or the reader is at its end.
///
/// The stream is read piece by piece: no more than one head, of 16,384 bytes at most, and one body, of
/// 1,048,576 bytes at most, are kept. However it is cut, the answers are those to its messages. A rest
/// that is no whole message gets no answer.
///
/// `StreamFault::Read`: the reader failed; all answers are out. `StreamFault::Count`: 2^64-1 messages were answered, all
/// of them. `StreamFault::Turn` never comes, as there is no turn here.
/// `StreamFault::Write`: the writer failed, or took none of the bytes that were left; the last answer is
/// out in part.
/// `StreamFault::Memory`: there was no memory before anything was read, or for a body that a head announces, or for a
/// message that asks an operation; nothing was done for it, and all answers before are out. So a message without a body
/// that is refused, has no route or no method gets its answer.
/// The writer is not flushed. The table of routes can be made once for all streams.
pub fn serve_stream<R: FallibleRead, W: FallibleWrite, B: Service>(
    alloc: Global,
    routes: &RouteTable,
    broker: &mut B,
    reader: &mut R,
    writer: &mut W,
) -> Result<Served, StreamFault>
    ensures served { IsServed B.shown (B.seen broker.old) (B.seen broker.new)
        (R.remaining reader.old) (R.remaining reader.new)
        (W.contents writer.old) (W.contents writer.new) result }
    ensures failed { IfErr result (λ fault. ReportsDevice fault (R.HasFailed reader.new) (W.HasFailed writer.new)) }
{
    serve_for::<Endless, R, W, B>(alloc, routes, broker, reader, writer)
}

/// Answers the requests of a stream as `serve_stream` does, over a table of routes of its own, and says in three words
/// why it stopped. `ServeFault::Memory` also if there is no memory for that table: then nothing is read.
pub fn serve<R: FallibleRead, W: FallibleWrite, B: Service>(
    alloc: Global,
    broker: &mut B,
    reader: &mut R,
    writer: &mut W,
) -> Result<Served, ServeFault>
    ensures { IsServedOrIdle B.shown (B.seen broker.old) (B.seen broker.new)
        (R.remaining reader.old) (R.remaining reader.new)
        (W.contents writer.old) (W.contents writer.new)
        (R.HasFailed reader.new) (W.HasFailed writer.new) result }
{
    let Ok(routes) = RouteTable::new(alloc) else {
        return Err(ServeFault::Memory);
    };
    match serve_stream(alloc, &routes, broker, reader, writer) {
        Ok(served) => Ok(served),
        Err(fault) => Err(ServeFault::from(fault)),
    }
}
