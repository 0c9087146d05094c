//! How long a peer is waited for.
//!
//! A server that serves one peer at a time lets each keep it only so long. A message that has begun has to be whole, and
//! an answer to be taken, within a limit; less is left for a message while another peer waits. A peer that has sent
//! nothing of its next message has to go if another waits; by itself it may stay. Only the time that is spent waiting
//! counts for these, not that of the server's own work. A peer that sends message after message has a turn, in which all
//! counts: it is over once the peer has been served for so long while others wait.
ghost use Rattle.std.specs.Prelude.{◌≡◌, ◌≢◌, ◌+◌, ◌-◌, ◌≤◌, ◌⊎◌, ◌↔◌, true, false, min, max, ℕ, List, Option, None, IfOk, IfErr};
ghost use Rattle.std.specs.Duration.{as_nanos, max_nanos};
ghost use Rattle.std.specs.Io.{ReadsAtMost, WritesAtMost};
ghost use Rattle.std.specs.Io.KnownBytes.{ReadConsumes, WriteAppends};
ghost use Rattle.std.specs.IoError.{error_kind};
ghost use Rattle.http_messages.specs.Waits.{AreWithin, IsAwaited, IsSpentOnAnswer, IsVain, Waits, millis, wait_between};

use crate::turn::{TurnOver, end_of_turn};
use std::cell::Cell;
use std::io::{self, ErrorKind, Read, Write};
use std::time::{Clock, Duration, Instant};

/// How long a peer is waited for, in milliseconds, each more than none.
#[derive(Clone, Copy)]
pub struct Limits {
    /// For a message, from its first bytes to its last,
    pub message: u64,
    /// and of that while another peer waits.
    pub late: u64,
    /// For an answer to be taken, with those that go out before it without a read between them.
    pub answer: u64,
    /// For the first bytes that a connection brings, if another peer waits.
    pub first: u64,
    /// For those of a later message, if another peer waits.
    pub next: u64,
    /// For all messages of a peer that another one waits for. If several wait, it is shared among them.
    pub turn: u64,
    /// At once, before it is looked again whether another peer waits, or whether a limit is over.
    pub look: u64,
}

/// The limits of `broker serve`.
pub const LIMITS: Limits = Limits {
    message: 10_000,
    late: 2_000,
    answer: 2_000,
    first: 1_000,
    next: 5,
    turn: 1_000,
    look: 20,
};

/// What the other end of a connection sends.
pub trait PeerReader {
    /// The bytes that are still to come, if they are known.
    ghost remaining: { Self → Option (List ℕ) } = { λ _. None };

    /// How long it was waited for in vain, in nanoseconds, if that is known.
    ghost waited: { Self → ℕ } = { λ _. 0 };

    /// Reads once, and waits for the first byte no longer than that: it fails with `WouldBlock` then.
    fn receive(&mut self, buf: &mut [u8], within: Duration) -> io::Result<usize>
        ensures bound { ReadsAtMost result buf.new }
        ensures bytes { ReadConsumes (remaining self.old) (remaining self.new) result buf.new }
        ensures wait { Waits (waited self.old) (waited self.new) result (as_nanos within) };
}

/// What the other end of a connection takes.
pub trait PeerWriter {
    /// The bytes that it has taken, if they are known.
    ghost contents: { Self → Option (List ℕ) } = { λ _. None };

    /// How long it was waited for in vain, in nanoseconds, if that is known.
    ghost waited: { Self → ℕ } = { λ _. 0 };

    /// Writes once, and waits for room no longer than that: it fails with `WouldBlock` then.
    fn send(&mut self, buf: &[u8], within: Duration) -> io::Result<usize>
        ensures bound { WritesAtMost result buf.now }
        ensures bytes { WriteAppends (contents self.old) (contents self.new) result buf.now }
        ensures wait { Waits (waited self.old) (waited self.new) result (as_nanos within) };
}

/// Where peers come in.
pub trait Door {
    /// It is known that another peer waits. It does so until the one that is served has gone.
    ghost IsWanted: { Self → Type 0 } = { λ _. ⊥ };

    /// It is known that no other peer waits.
    ghost IsAlone: { Self → Type 0 } = { λ _. ⊥ };

    /// Whether another peer waits to be served.
    fn has_another(&mut self) -> bool
        ensures stays { IsWanted self.old → (result ≡ true) × IsWanted self.new }
        ensures alone { IsAlone self.old → (result ≡ false) × IsAlone self.new };

    /// How many other peers wait to be served, as far as that is known.
    fn others(&mut self) -> u32
        ensures { IsAlone self.old → (result ≡ 0) × IsAlone self.new }
    {
        u32::from(self.has_another())
    }
}

/// How long a peer was waited for, for the rest of one message.
#[derive(Clone, Copy)]
pub struct Spent {
    /// In all,
    pub all: Duration,
    /// and of that while another peer waited.
    pub wanted: Duration,
}

impl Spent {
    /// None of it.
    const NONE: Spent = Spent {
        all: Duration::ZERO,
        wanted: Duration::ZERO,
    };

    /// With a wait that counts so much.
    fn and(self, counted: Duration, is_wanted: bool) -> Spent
        ensures all { as_nanos result.all ≡ min (as_nanos self.all + as_nanos counted) max_nanos }
        ensures wanted { is_wanted ≡ true →
            as_nanos result.wanted ≡ min (as_nanos self.wanted + as_nanos counted) max_nanos }
    {
        let all = self.all.saturating_add(counted);
        let wanted = if is_wanted {
            self.wanted.saturating_add(counted)
        } else {
            self.wanted
        };
        Spent { all, wanted }
    }
}

/// What a peer is waited for, and how long it was.
#[derive(Clone, Copy)]
pub enum Wait {
    /// For the first bytes of all.
    First,
    /// For those of a later message. The answers since the last read took so long.
    Next(Duration),
    /// For the rest of a message.
    Message(Spent),
    /// To take the answer.
    Answer(Duration),
}

/// The shorter one of the two.
fn shorter(a: Duration, b: Duration) -> Duration
    ensures { as_nanos result ≡ min (as_nanos a) (as_nanos b) }
{
    if a.saturating_sub(b).is_zero() { a } else { b }
}

/// The longer one of the two.
fn longer(a: Duration, b: Duration) -> Duration
    ensures { as_nanos result ≡ max (as_nanos a) (as_nanos b) }
{
    if a.saturating_sub(b).is_zero() { b } else { a }
}

/// A limit is over.
fn timed_out() -> io::Error
    ensures { error_kind result ≡ ErrorKind.TimedOut }
{
    io::Error::from(ErrorKind::TimedOut)
}

/// How long to wait at once: what is left of a limit, but no longer than a look. `TimedOut` if nothing is left.
fn next_look(limit: u64, look: u64, spent: Duration) -> io::Result<Duration>
    ensures look { IfOk result (λ within. as_nanos within ≤ millis look) }
    ensures left { IfOk result (λ within. as_nanos spent + as_nanos within ≤ millis limit) }
    ensures over { IfErr result (λ error. (millis limit ≤ as_nanos spent) × (error_kind error ≡ ErrorKind.TimedOut)) }
    ensures fits { millis limit ≤ max_nanos }
{
    let left = Duration::from_millis(limit).saturating_sub(spent);
    if left.is_zero() {
        Err(timed_out())
    } else {
        Ok(shorter(left, Duration::from_millis(look)))
    }
}

/// How long to wait at once for more of a message, of which so much is spent. `TimedOut` if nothing is left.
fn next_read(limits: Limits, is_wanted: bool, spent: Spent) -> io::Result<Duration>
    ensures all { IfOk result (λ within. as_nanos spent.all + as_nanos within ≤ millis limits.message) }
    ensures wanted { is_wanted ≡ true →
        IfOk result (λ within. as_nanos spent.wanted + as_nanos within ≤ millis limits.late) }
    ensures over { IfErr result (λ _. (millis limits.message ≤ as_nanos spent.all)
        ⊎ ((is_wanted ≡ true) × (millis limits.late ≤ as_nanos spent.wanted))) }
    ensures kind { IfErr result (λ error. error_kind error ≡ ErrorKind.TimedOut) }
    ensures fits { (millis limits.message ≤ max_nanos) × (millis limits.late ≤ max_nanos) }
{
    let within = next_look(limits.message, limits.look, spent.all)?;
    if is_wanted {
        Ok(shorter(within, next_look(limits.late, limits.look, spent.wanted)?))
    } else {
        Ok(within)
    }
}

/// Since when another peer waits, if one does now, and it was known to since then.
fn since(known: Option<Instant>, is_wanted: bool, now: Instant) -> Option<Instant> {
    if is_wanted {
        Some(known.unwrap_or(now))
    } else {
        None
    }
}

/// How long a wait that began then counts, and ended so: as long as it took, but no longer than twice what it was to
/// last, and if it was in vain, as long as it was to last at least. A wait takes some milliseconds more than that, by
/// the ticks of the system's clock; a process that is stopped meanwhile finds that the clock went on. If the clock
/// fails, it counts what it was to last.
fn counted<A, C: Clock>(
    clock: &C,
    asked: Instant,
    within: Duration,
    ended: &io::Result<A>,
) -> Duration
    ensures least { IsVain ended.now → as_nanos within ≤ as_nanos result }
    ensures most { as_nanos result ≤ as_nanos within + as_nanos within }
{
    let waited = match asked.elapsed(clock) {
        Ok(waited) => shorter(waited, within.saturating_add(within)),
        Err(_) => within,
    };
    match ended {
        Err(error) if error.kind() == ErrorKind::WouldBlock => longer(waited, within),
        _ => waited,
    }
}

/// Whether a wait that failed so may go on: it came to its end, or a signal cut it short.
pub(crate) fn is_unfinished(kind: ErrorKind) -> bool
    ensures { result ≡ true ↔ (kind ≡ ErrorKind.WouldBlock) ⊎ (kind ≡ ErrorKind.Interrupted) }
{
    kind == ErrorKind::WouldBlock || kind == ErrorKind::Interrupted
}

/// What a read waits for.
enum Awaited {
    /// The first bytes of a message, for so many milliseconds once another peer waits.
    First(u64),
    /// More of a message, of whose limits so much is spent.
    More(Spent),
}

/// What a read waits for.
fn waits_for(limits: Limits, wait: Wait) -> Awaited
    ensures { IsAwaited limits wait result }
{
    match wait {
        Wait::First => Awaited::First(limits.first),
        Wait::Next(_) => Awaited::First(limits.next),
        Wait::Answer(_) => Awaited::More(Spent::NONE),
        Wait::Message(spent) => Awaited::More(spent),
    }
}

/// What is waited for once a message is answered: the first bytes of the next one, if nothing of it is there.
fn wait_between(wait: Wait, is_begun: bool) -> Wait
    ensures { result ≡ wait_between is_begun wait }
{
    match wait {
        Wait::Answer(spent) if !is_begun => Wait::Next(spent),
        _ => wait,
    }
}

/// How much is spent of the limit of the answer that is waited for: of a new one, what its message took of others, so
/// that both together take no more of them, but for one look at the end.
fn spent_on_answer(limits: Limits, wait: Wait) -> Duration
    ensures { IsSpentOnAnswer limits wait result }
{
    match wait {
        Wait::First => Duration::ZERO,
        Wait::Message(spent) => shorter(
            spent.wanted,
            Duration::from_millis(limits.answer).saturating_sub(Duration::from_millis(limits.look)),
        ),
        Wait::Next(spent) | Wait::Answer(spent) => spent,
    }
}

/// What a peer sends, as far as it is waited for. A wait that a signal cuts short goes on. No limit is longer
/// than that of `broker serve`.
#[derive(Drop)]
pub struct Incoming<'a, 'w, R: PeerReader, D: Door, C: Clock> {
    pub peer: R,
    pub door: &'a mut D,
    pub clock: &'a C,
    pub limits: Limits,
    /// Since when another peer waits, as far as that was seen.
    pub wanted: Option<Instant>,
    /// What is waited for, which the other side of the connection sets too.
    pub wait: &'w Cell<Wait>,
    ghost within: { AreWithin limits },
}

impl<'a, 'w, R: PeerReader, D: Door, C: Clock> Incoming<'a, 'w, R, D, C> {
    /// What this peer sends, as far as these limits let it be waited for.
    pub fn new(
        peer: R,
        door: &'a mut D,
        clock: &'a C,
        limits: Limits,
        wait: &'w Cell<Wait>,
    ) -> Incoming<'a, 'w, R, D, C>
        requires { AreWithin limits }
        ensures { (result.peer ≡ peer) × (result.limits ≡ limits) }
    {
        Incoming {
            peer,
            door,
            clock,
            limits,
            wanted: None,
            wait,
        }
    }
}

impl<R: PeerReader, D: Door, C: Clock> Incoming<'_, '_, R, D, C> {
    /// How long the peer has been served while others wait, if some do now. If none was seen to before, as long as it
    /// was waited for the answer to be taken, since nobody looked meanwhile.
    fn served(&mut self, is_wanted: bool) -> io::Result<Duration>
        ensures peer { self.new.peer ≡ self.old.peer }
    {
        if !is_wanted {
            self.wanted = None;
            return Ok(Duration::ZERO);
        }
        match self.wanted {
            Some(since) => since.elapsed(self.clock),
            None => {
                self.wanted = Some(Instant::now(self.clock)?);
                Ok(spent_on_answer(self.limits, self.wait.get()))
            }
        }
    }

    /// The end of the peer's turn, between two of its messages, if it has been served for as long while others wait. If
    /// the clock fails, it is over. `is_begun` says that some of the next message is there already: else its first bytes
    /// are waited for next.
    pub fn is_over(&mut self, is_begun: bool) -> Option<TurnOver>
        ensures peer { self.new.peer ≡ self.old.peer }
        ensures alone { D.IsAlone self.old.door.now → result ≡ None }
    {
        let others = self.door.others();
        let served = self.served(others != 0);
        self.wait.set(wait_between(self.wait.get(), is_begun));
        end_of_turn(self.limits.turn, served, others)
    }

    /// Waits for more of a message, of whose limits so much is spent: in vain no longer than what is left, and all of it
    /// is spent then.
    fn read_on(&mut self, buf: &mut [u8], spent: &mut Spent) -> io::Result<usize>
        ensures bound { ReadsAtMost result buf.new }
        ensures bytes { ReadConsumes (R.remaining self.old.peer) (R.remaining self.new.peer) result buf.new }
        ensures retried { IfErr result (λ error. error_kind error ≢ ErrorKind.Interrupted) }
        ensures wait { R.waited self.new.peer
            ≤ R.waited self.old.peer + (millis self.old.limits.message - as_nanos spent.old.all) }
        ensures late { D.IsWanted self.old.door.now → R.waited self.new.peer
            ≤ R.waited self.old.peer + (millis self.old.limits.late - as_nanos spent.old.wanted) }
        ensures counts { R.waited self.new.peer + as_nanos spent.old.all
            ≤ R.waited self.old.peer + as_nanos spent.new.all }
        ensures counts_late { D.IsWanted self.old.door.now → R.waited self.new.peer + as_nanos spent.old.wanted
            ≤ R.waited self.old.peer + as_nanos spent.new.wanted }
    {
        let limits = self.limits;
        for _ in 0..u64::MAX {
            let is_wanted = self.door.has_another();
            let within = next_read(limits, is_wanted, *spent)?;
            let Ok(asked) = Instant::now(self.clock) else {
                return Err(timed_out());
            };
            self.wanted = since(self.wanted, is_wanted, asked);
            let received = self.peer.receive(buf, within);
            *spent = spent.and(counted(self.clock, asked, within, &received), is_wanted);
            match received {
                Ok(count) => return Ok(count),
                Err(error) => {
                    if !is_unfinished(error.kind()) {
                        return Err(error);
                    }
                }
            }
        }
        Err(timed_out())
    }

    /// Waits for the first bytes of a message: as long as no other peer waits, and then for the grace.
    fn begin(&mut self, buf: &mut [u8], grace: u64) -> io::Result<usize>
        ensures bound { ReadsAtMost result buf.new }
        ensures bytes { ReadConsumes (R.remaining self.old.peer) (R.remaining self.new.peer) result buf.new }
        ensures retried { IfErr result (λ error. error_kind error ≢ ErrorKind.Interrupted) }
        ensures late { D.IsWanted self.old.door.now → R.waited self.new.peer
            ≤ R.waited self.old.peer + millis grace }
    {
        for _ in 0..u64::MAX {
            let is_wanted = self.door.has_another();
            let within = if is_wanted { grace } else { self.limits.look };
            match self.peer.receive(buf, Duration::from_millis(within)) {
                Ok(count) => return Ok(count),
                Err(error) => match error.kind() {
                    ErrorKind::Interrupted => {}
                    ErrorKind::WouldBlock if !is_wanted => {}
                    _ => return Err(error),
                },
            }
        }
        Err(timed_out())
    }
}

impl<R: PeerReader, D: Door, C: Clock> Read for Incoming<'_, '_, R, D, C> {
    ghost remaining = { λ incoming. R.remaining incoming.peer };

    fn read(&mut self, buf: &mut [u8]) -> io::Result<usize> {
        let mut spent = Spent::NONE;
        let read = match waits_for(self.limits, self.wait.get()) {
            Awaited::First(grace) => self.begin(buf, grace),
            Awaited::More(before) => {
                spent = before;
                self.read_on(buf, &mut spent)
            }
        };
        self.wait.set(Wait::Message(spent));
        read
    }
}

/// What a peer takes, as far as it is waited for. A wait that a signal cuts short goes on. No limit is longer
/// than that of `broker serve`.
#[derive(Drop)]
pub struct Outgoing<'a, 'w, W: PeerWriter, C: Clock> {
    pub peer: W,
    pub clock: &'a C,
    pub limits: Limits,
    /// What is waited for, which the other side of the connection sets too.
    pub wait: &'w Cell<Wait>,
    ghost within: { AreWithin limits },
}

impl<'a, 'w, W: PeerWriter, C: Clock> Outgoing<'a, 'w, W, C> {
    /// What this peer takes, as far as these limits let it be waited for.
    pub fn new(
        peer: W,
        clock: &'a C,
        limits: Limits,
        wait: &'w Cell<Wait>,
    ) -> Outgoing<'a, 'w, W, C>
        requires { AreWithin limits }
        ensures { (result.peer ≡ peer) × (result.limits ≡ limits) }
    {
        Outgoing {
            peer,
            clock,
            limits,
            wait,
        }
    }
}

impl<W: PeerWriter, C: Clock> Outgoing<'_, '_, W, C> {
    /// Waits for room for more of an answer, of whose limit so much is spent: in vain no longer than what is left, and all
    /// of it is spent then.
    fn write_on(&mut self, buf: &[u8], spent: &mut Duration) -> io::Result<usize>
        ensures bound { WritesAtMost result buf.now }
        ensures bytes { WriteAppends (W.contents self.old.peer) (W.contents self.new.peer) result buf.now }
        ensures retried { IfErr result (λ error. error_kind error ≢ ErrorKind.Interrupted) }
        ensures wait { W.waited self.new.peer
            ≤ W.waited self.old.peer + (millis self.old.limits.answer - as_nanos spent.old) }
        ensures counts { W.waited self.new.peer + as_nanos spent.old ≤ W.waited self.old.peer + as_nanos spent.new }
    {
        let limits = self.limits;
        for _ in 0..u64::MAX {
            let within = next_look(limits.answer, limits.look, *spent)?;
            let Ok(asked) = Instant::now(self.clock) else {
                return Err(timed_out());
            };
            let sent = self.peer.send(buf, within);
            *spent = spent.saturating_add(counted(self.clock, asked, within, &sent));
            match sent {
                Ok(count) => return Ok(count),
                Err(error) => {
                    if !is_unfinished(error.kind()) {
                        return Err(error);
                    }
                }
            }
        }
        Err(timed_out())
    }
}

impl<W: PeerWriter, C: Clock> Write for Outgoing<'_, '_, W, C> {
    ghost contents = { λ outgoing. W.contents outgoing.peer };

    fn write(&mut self, buf: &[u8]) -> io::Result<usize> {
        let mut spent = spent_on_answer(self.limits, self.wait.get());
        let sent = self.write_on(buf, &mut spent);
        self.wait.set(Wait::Answer(spent));
        sent
    }

    fn flush(&mut self) -> io::Result<()> {
        Ok(())
    }
}
