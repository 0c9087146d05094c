//! Those that wait while another one is served, and which of them comes next.
ghost use Rattle.std.specs.Prelude.{◌≡◌, ◌+◌, ◌<◌, ◌≤◌, length, max, not, position, IfSome};
ghost use Rattle.http_messages.specs.Arrival.{is_ready};
ghost use Rattle.http_messages.specs.Room.{KeepsReady, next_of, places};

use crate::arrival::Waiting;
use crate::patience::LIMITS;
use std::io::Read;
use std::time::{Clock, Instant};

/// How many wait at most.
pub const MOST_WAITING: usize = 64;

/// The place of the first that is ready.
fn first_ready<S: Read + Drop>(waiting: &[Waiting<S>]) -> Option<usize>
    ensures first { result ≡ position (λ it. is_ready it.arrived) waiting.now }
    ensures within { IfSome result (λ place. place < length waiting.now) }
{
    waiting.iter().position(|it| it.is_ready())
}

/// The place of the first that isn't.
fn first_unready<S: Read + Drop>(waiting: &[Waiting<S>]) -> Option<usize>
    ensures first { result ≡ position (λ it. not (is_ready it.arrived)) waiting.now }
    ensures within { IfSome result (λ place. place < length waiting.now) }
{
    waiting.iter().position(|it| !it.is_ready())
}

/// The place of the one that comes next of these, which wait in the order in which they came: the first that is ready,
/// or if none is the first of all.
pub fn next_of<S: Read + Drop>(waiting: &[Waiting<S>]) -> Option<usize>
    ensures next { result ≡ next_of (λ it. is_ready it.arrived) waiting.now }
    ensures within { IfSome result (λ place. place < length waiting.now) }
{
    match first_ready(waiting) {
        Some(place) => Some(place),
        None if waiting.is_empty() => None,
        None => Some(0),
    }
}

/// Adds one after those that wait. If as many wait as may, the first that isn't ready goes, or if all are ready,
/// this one does. It says how many went: none, or one, also if there is no memory.
pub fn take_in<S: Read + Drop>(waiting: &mut Vec<Waiting<S>>, it: Waiting<S>) -> u32
    ensures ready { KeepsReady (λ it. is_ready it.arrived) waiting.old.items waiting.new.items }
    ensures counts { length waiting.old.items + 1 ≡ length waiting.new.items + result }
    ensures stay { length waiting.old.items ≤ length waiting.new.items }
    ensures most { length waiting.new.items ≤ max (length waiting.old.items) MOST_WAITING }
{
    if waiting.len() < MOST_WAITING {
        return u32::from(waiting.push(it).is_err());
    }
    if let Some(place) = first_unready(waiting) {
        drop(waiting.remove(place));
        let _ = waiting.push(it);
    }
    1
}

/// How many may be taken in before one goes whom nobody looked at, if all of these were looked at once as many wait as
/// may.
pub fn places<S: Read + Drop>(waiting: &[Waiting<S>]) -> usize
    ensures { result ≡ places (λ it. is_ready it.arrived) waiting.now }
{
    if waiting.len() < MOST_WAITING {
        MOST_WAITING - waiting.len()
    } else {
        MOST_WAITING.saturating_sub(waiting.iter().filter(|it| it.is_ready()).count())
    }
}

/// Reads what has come from each that isn't ready. Who is ready now counts as ready since `before`, when they were looked
/// at before this, or nobody waited: nobody saw what came since then, so each may have waited for as long.
pub fn look<S: Read + Drop>(waiting: &mut [Waiting<S>], before: Option<Instant>) {
    for it in waiting.iter_mut() {
        it.look(before);
    }
}

/// For how many milliseconds those that are ready wait: the longest time for which one has been ready so far, and a look
/// for each of them, as long as it may take of the last. None of the former if the clock fails.
pub fn others_wait<S: Read + Drop, C: Clock>(waiting: &[Waiting<S>], clock: &C) -> u64 {
    let longest = match Instant::now(clock) {
        Ok(now) => waiting
            .iter()
            .map(|it| it.ready_for(now))
            .max()
            .unwrap_or(0),
        Err(_) => 0,
    };
    let ready = waiting.iter().filter(|it| it.is_ready()).count();
    longest.saturating_add(LIMITS.look.saturating_mul(ready as u64))
}
