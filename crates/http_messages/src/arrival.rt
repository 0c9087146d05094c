//! What peers send before they are served.
//!
//! While one peer is served, what others have sent is taken in as far as it is there, up to a whole message of each. So
//! it is known who has sent one, however long it is, and who hasn't takes no time from who has.
ghost use Rattle.std.specs.Prelude.{◌≡◌, ◌≢◌, ◌+◌, ◌≤◌, ◌<◌, ◌↔◌, [], true, false, length, take, drop, min, max, IfErr, IfOk, IfSome, IsErrAnd, IsNone};
ghost use Rattle.std.specs.Io.KnownBytes.{Keeps, prepend_known};
ghost use Rattle.std.specs.IoError.{error_kind};
ghost use Rattle.http_messages.specs.Arrival.{IsEarly, is_ready};
ghost use Rattle.http_messages.specs.Limits.{head_limit, body_limit};
ghost use Rattle.http_messages.specs.Messages.{HasMessage};
ghost use Rattle.http_messages.specs.Reading.{Gains};

use crate::buffer::{Buffer, drop_front};
use crate::patience::{PeerReader, is_unfinished};
use crate::reading::{ReadFault, ReadOutcome, read_message};
use std::alloc::Global;
use std::io::{self, Read};
use std::marker::Model;
use std::time::{Duration, Instant};

/// What has come of a peer's first message.
#[derive(Clone, Copy, Debug, PartialEq, Eq)]
pub enum Arrived {
    /// No whole message yet.
    Part,
    /// A whole message.
    Whole,
    /// No whole message, and nothing more comes.
    Ended,
    /// A part of it is lost, as there was no memory for it.
    Lost,
}

impl Arrived {
    /// Whether more of it is waited for no longer.
    pub(crate) fn is_ready(self) -> bool
        ensures { result ≡ is_ready self }
    {
        self != Arrived::Part
    }
}

/// Whether a read found nothing there yet.
fn is_early(read: &io::Result<usize>) -> bool
    ensures { result ≡ true ↔ IsEarly read.now }
{
    match read {
        Ok(_) => false,
        Err(error) => is_unfinished(error.kind()),
    }
}

/// A reader that gives what is there, and waits for no more.
#[derive(Drop)]
struct Arriving<S> {
    stream: S,
    /// Whether its last read found nothing there yet.
    is_early: bool,
}

impl<S: Read> Read for Arriving<S> {
    ghost remaining = { λ arriving. S.remaining arriving.stream };

    fn read(&mut self, buf: &mut [u8]) -> io::Result<usize> {
        let read = self.stream.read(buf);
        self.is_early = is_early(&read);
        read
    }
}

/// Reads what is there of a message.
fn read_arrived<S: Read>(stream: &mut Arriving<S>, sent: &mut Buffer) -> Arrived
    ensures whole { result ≡ Arrived.Whole ↔ HasMessage sent.new.items }
    ensures kept { result ≢ Arrived.Lost → Gains (S.remaining stream.old.stream) (S.remaining stream.new.stream)
        sent.old.items sent.new.items }
    ensures bound { length sent.new.items ≤ max (length sent.old.items) (head_limit + body_limit) }
{
    match read_message(stream, sent) {
        Ok(ReadOutcome::Message { .. }) => Arrived::Whole,
        Ok(ReadOutcome::End) => Arrived::Ended,
        Err(ReadFault::Reader(_)) if stream.is_early => Arrived::Part,
        Err(ReadFault::Reader(_)) => Arrived::Ended,
        Err(ReadFault::Memory) => Arrived::Lost,
    }
}

/// A peer that waits to be served. A contract sees its stream, what was read of it, and what has come by that: a whole
/// message exactly if one is there. Never is more read than a head and a body may have.
#[derive(Drop)]
pub struct Waiting<S> {
    stream: Arriving<S>,
    /// What it has sent so far and was read,
    sent: Buffer,
    /// what has come of its first message by that,
    arrived: Arrived,
    /// and since when that has been ready, as far as it may have been.
    since: Option<Instant>,
}

impl<S> Model for Waiting<S> {
    ghost use Rattle.std.specs.Prelude.{◌≡◌, ◌+◌, ◌≤◌, ◌↔◌, length};
    ghost use Rattle.http_messages.specs.Limits.{head_limit, body_limit};
    ghost use Rattle.http_messages.specs.Messages.{HasMessage};
    ghost use Rattle.http_messages.specs.Waited.{Waited};
    ghost use Rattle.http_messages.specs.declared.arrival.Arrived.TheVariants.{Whole};

    ghost Value = { Waited S };

    ghost view = { λ w. record { stream = w.stream.stream; sent = w.sent.items; arrived = w.arrived } };

    ghost invariant = { λ w. ((w.arrived ≡ Whole) ↔ HasMessage w.sent.items)
        × (length w.sent.items ≤ head_limit + body_limit) };
}

impl<S: Read + Drop> Waiting<S> {
    /// One that has come in, of which nothing was read. None: out of memory, and it is lost.
    pub fn new(alloc: Global, stream: S) -> Option<Waiting<S>>
        ensures { IfSome result (λ it. (it.stream ≡ stream) × (it.sent ≡ [])) }
    {
        let Ok(sent) = Buffer::new(alloc) else {
            return None;
        };
        Some(Waiting {
            stream: Arriving {
                stream,
                is_early: false,
            },
            sent,
            arrived: Arrived::Part,
            since: None,
        })
    }

    /// Whether it needn't be waited for: its first message is whole, or no more of it comes.
    pub(crate) fn is_ready(&self) -> bool
        ensures { result ≡ is_ready self.now.arrived }
    {
        self.arrived.is_ready()
    }

    /// Reads what is there of its first message, unless that is ready. If it is now, it has been so since `before`, when
    /// those that wait were looked at before this: what came since then was seen by nobody.
    pub(crate) fn look(&mut self, before: Option<Instant>)
        ensures same { is_ready self.old.arrived ≡ true → self.new ≡ self.old }
        ensures kept { self.new.arrived ≢ Arrived.Lost → Gains (S.remaining self.old.stream) (S.remaining self.new.stream)
            self.old.sent self.new.sent }
    {
        if self.is_ready() {
            return;
        }
        self.arrived = read_arrived(&mut self.stream, &mut self.sent);
        if self.is_ready() {
            self.since = before;
        }
    }

    /// For how many milliseconds it has been ready, as far as that is known.
    pub(crate) fn ready_for(&self, now: Instant) -> u64 {
        match self.since {
            Some(since) => u64::try_from(now.duration_since(since).as_millis()).unwrap_or(u64::MAX),
            None => 0,
        }
    }

    /// What it has sent, to be served. None if a part of it is lost.
    pub fn into_begun(self) -> Option<Begun<S>>
        ensures some { IfSome result (λ begun. (begun.peer ≡ self.stream) × (begun.sent ≡ self.sent)) }
        ensures lost { IsNone result ↔ (self.arrived ≡ Arrived.Lost) }
    {
        if self.arrived == Arrived::Lost {
            return None;
        }
        Some(Begun {
            sent: self.sent,
            peer: self.stream.stream,
        })
    }
}

/// A peer of whose stream some bytes were read before: these come first.
#[derive(Drop)]
pub struct Begun<R> {
    sent: Buffer,
    peer: R,
}

impl<R> Model for Begun<R> {
    ghost use Rattle.http_messages.specs.Waited.{Lasting};

    ghost Value = { Lasting R };

    ghost view = { λ begun. record { sent = begun.sent.items; peer = begun.peer } };

    ghost invariant = { λ _. Unit {0} };
}

impl<R> Begun<R> {
    /// The peer.
    pub fn peer(&self) -> &R
        ensures { result.now ≡ self.now.peer }
    {
        &self.peer
    }
}

/// Takes as many bytes as fit from the front of a buffer, and says how many.
fn take_front(buffer: &mut Buffer, buf: &mut [u8]) -> usize
    ensures count { result ≡ min (length buffer.old.items) (length buf.old) }
    ensures taken { take result buf.new ≡ take result buffer.old.items }
    ensures left { buffer.new.items ≡ drop result buffer.old.items }
{
    let bytes = buffer.as_slice();
    let count = bytes.len().min(buf.len());
    buf[..count].copy_from_slice(&bytes[..count]);
    drop_front(buffer, count);
    count
}

impl<R: PeerReader> PeerReader for Begun<R> {
    ghost remaining = { λ begun. prepend_known begun.sent (R.remaining begun.peer) };

    ghost waited = { λ begun. R.waited begun.peer };

    fn receive(&mut self, buf: &mut [u8], within: Duration) -> io::Result<usize> {
        if self.sent.is_empty() {
            self.peer.receive(buf, within)
        } else {
            Ok(take_front(&mut self.sent, buf))
        }
    }
}
