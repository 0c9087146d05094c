//! Reading one message after another from a device.
ghost use Rattle.std.specs.Prelude.{◌≡◌, ◌≢◌, ℕ, ◌+◌, ◌<◌, ◌≤◌, Bool, true, false, max, length, drop, take, vec_len, IfOk, IfErr, OnOk, OnErr, MatchOption};
ghost use Rattle.std.specs.Io.KnownBytes.{IsAtEnd};
ghost use Rattle.http_messages.specs.Limits.{head_limit, body_limit};
ghost use Rattle.http_messages.specs.Messages.{HasNoHead, IsHeadFound};
ghost use Rattle.http_messages.specs.Reading.{Gains, LeavesAtFault, ReadsMessage, FailsToReadMessage, ReportsFailure};
ghost use Rattle.http_messages.specs.Views.{announced};

use crate::buffer::Buffer;
use crate::device::{FallibleRead, ReaderFailed};
use crate::head::{BODY_LIMIT, Head, Refused, read_head};
use crate::messages::{HEAD_LIMIT, whole_head};
use thiserror::Error;

/// How many bytes one read of a head takes at most, with what follows it.
const PIECE: usize = HEAD_LIMIT;

/// How many bytes one read of a body takes at most, if more of them are wanted than `PIECE`.
const LARGE_PIECE: usize = 32_768;

/// Why no message could be read.
#[derive(Clone, Copy, Debug, PartialEq, Eq, Error)]
pub enum ReadFault {
    /// The reader failed. All that it gave is in the buffer.
    #[error("the reader failed")]
    Reader(ReaderFailed),
    /// There was no memory for the last bytes that the reader gave, and they are lost: they are of a body.
    #[error("out of memory")]
    Memory,
}

/// What came next.
#[derive(Drop)]
pub enum ReadOutcome {
    /// The buffer begins with a message of so many bytes of head and of body, and the head says this.
    Message {
        head_len: usize,
        body_len: usize,
        head: Result<Head, Refused>,
    },
    /// The reader is at its end, and no message is whole.
    End,
}

/// How many bytes of body a head announces: none if it is refused.
fn announced(head: &Result<Head, Refused>) -> usize
    ensures { result ≡ announced head.now }
{
    match head {
        Ok(head) => head.body_len,
        Err(_) => 0,
    }
}

/// Reads once, at most so many bytes and `SIZE`, to the end of the buffer. It gets none only at the reader's end.
fn read_piece<R: FallibleRead, const SIZE: usize>(
    reader: &mut R,
    buffer: &mut Buffer,
    most: usize,
) -> Result<usize, ReadFault>
    requires size { (0 < SIZE) × (SIZE ≤ LARGE_PIECE) }
    requires wanted { 0 < most }
    ensures ok { OnOk result
        (Gains (R.remaining reader.old) (R.remaining reader.new)
        buffer.old.items buffer.new.items) }
    ensures count { IfOk result (λ n. (length buffer.new.items ≡ length buffer.old.items + n) × (n ≤ most)) }
    ensures end { IfOk result (λ n. n ≡ 0 → IsAtEnd (R.remaining reader.new)) }
    ensures err { IfErr result
        (LeavesAtFault (R.remaining reader.old) (R.remaining reader.new)
        buffer.old.items buffer.new.items) }
    ensures failed { IfErr result (λ fault. ReportsFailure fault (R.HasFailed reader.new)) }
    ensures kept { OnErr result (buffer.new.items ≡ buffer.old.items) }
    ensures full { IfErr result (λ fault. fault ≡ ReadFault.Memory → head_limit < length buffer.old.items + most) }
{
    let mut piece = [0u8; SIZE];
    let most = most.min(SIZE);
    let count = match reader.read_once(&mut piece[..most]) {
        Ok(count) => count,
        Err(failed) => return Err(ReadFault::Reader(failed)),
    };
    if count == 0 {
        return Ok(0);
    }
    match buffer.extend(&piece[..count]) {
        Ok(()) => Ok(count),
        Err(_) => Err(ReadFault::Memory),
    }
}

/// Reads once of a body of which so many bytes are wanted, at most as many, in a large piece if it pays.
fn read_body_piece<R: FallibleRead>(
    reader: &mut R,
    buffer: &mut Buffer,
    most: usize,
) -> Result<usize, ReadFault>
    requires { 0 < most }
    ensures ok { OnOk result
        (Gains (R.remaining reader.old) (R.remaining reader.new)
        buffer.old.items buffer.new.items) }
    ensures count { IfOk result (λ n. (length buffer.new.items ≡ length buffer.old.items + n) × (n ≤ most)) }
    ensures end { IfOk result (λ n. n ≡ 0 → IsAtEnd (R.remaining reader.new)) }
    ensures err { IfErr result
        (LeavesAtFault (R.remaining reader.old) (R.remaining reader.new)
        buffer.old.items buffer.new.items) }
    ensures failed { IfErr result (λ fault. ReportsFailure fault (R.HasFailed reader.new)) }
    ensures kept { OnErr result (buffer.new.items ≡ buffer.old.items) }
    ensures full { IfErr result (λ fault. fault ≡ ReadFault.Memory → head_limit < length buffer.old.items + most) }
{
    if most > PIECE {
        read_piece::<R, LARGE_PIECE>(reader, buffer, most)
    } else {
        read_piece::<R, PIECE>(reader, buffer, most)
    }
}

/// Reads until the buffer begins with a whole head, and gives its length: none if the reader ends before.
fn read_head_bytes<R: FallibleRead>(
    reader: &mut R,
    buffer: &mut Buffer,
) -> Result<Option<usize>, ReadFault>
    ensures ok { OnOk result
        (Gains (R.remaining reader.old) (R.remaining reader.new)
        buffer.old.items buffer.new.items) }
    ensures found { IfOk result (IsHeadFound buffer.new.items) }
    ensures end { IfOk result (λ found. MatchOption found (IsAtEnd (R.remaining reader.new)) (λ _. Unit {0})) }
    ensures err { IfErr result
        (LeavesAtFault (R.remaining reader.old) (R.remaining reader.new)
        buffer.old.items buffer.new.items) }
    ensures failed { IfErr result (λ fault. ReportsFailure fault (R.HasFailed reader.new)) }
    ensures none { OnErr result (HasNoHead buffer.new.items) }
    ensures memory { IfErr result (λ fault. fault ≢ ReadFault.Memory) }
    ensures bound { length buffer.new.items ≤ max (length buffer.old.items) head_limit }
{
    loop {
        if let Some(head_len) = whole_head(buffer.as_slice()) {
            return Ok(Some(head_len));
        }
        if read_piece::<R, PIECE>(reader, buffer, HEAD_LIMIT - buffer.len())? == 0 {
            return Ok(None);
        }
    }
}

/// Reads until the buffer has so many bytes, and says whether it has them: not if the reader ends before.
fn read_up_to<R: FallibleRead>(
    reader: &mut R,
    buffer: &mut Buffer,
    len: usize,
) -> Result<bool, ReadFault>
    ensures ok { OnOk result
        (Gains (R.remaining reader.old) (R.remaining reader.new)
        buffer.old.items buffer.new.items) }
    ensures whole { IfOk result (λ is_whole. is_whole ≡ true → len ≤ length buffer.new.items) }
    ensures short { IfOk result (λ is_whole. is_whole ≡ false →
        (length buffer.new.items < len) × IsAtEnd (R.remaining reader.new)) }
    ensures err { IfErr result
        (LeavesAtFault (R.remaining reader.old) (R.remaining reader.new)
        buffer.old.items buffer.new.items) }
    ensures failed { IfErr result (λ fault. ReportsFailure fault (R.HasFailed reader.new)) }
    ensures lacks { OnErr result (length buffer.new.items < len) }
    ensures bound { length buffer.new.items ≤ max (length buffer.old.items) len }
{
    while buffer.len() < len {
        if read_body_piece(reader, buffer, len - buffer.len())? == 0 {
            return Ok(false);
        }
    }
    Ok(true)
}

/// Reads until the buffer begins with a message, or the reader is at its end.
///
/// Each read asks for no more than what the head may still want, or the body still wants, so that the
/// buffer never gets more than one head and one body. The head is parsed once.
pub fn read_message<R: FallibleRead>(
    reader: &mut R,
    buffer: &mut Buffer,
) -> Result<ReadOutcome, ReadFault>
    ensures ok { IfOk result (ReadsMessage (R.remaining reader.old) (R.remaining reader.new)
        buffer.old.items buffer.new.items) }
    ensures err { IfErr result (FailsToReadMessage (R.remaining reader.old) (R.remaining reader.new)
        buffer.old.items buffer.new.items) }
    ensures failed { IfErr result (λ fault. ReportsFailure fault (R.HasFailed reader.new)) }
    ensures bound { length buffer.new.items ≤ max (length buffer.old.items) (head_limit + body_limit) }
{
    let Some(head_len) = read_head_bytes(reader, buffer)? else {
        return Ok(ReadOutcome::End);
    };
    let head = read_head(&buffer.as_slice()[..head_len]);
    let body_len = announced(&head);
    if read_up_to(reader, buffer, head_len + body_len)? {
        Ok(ReadOutcome::Message {
            head_len,
            body_len,
            head,
        })
    } else {
        Ok(ReadOutcome::End)
    }
}
