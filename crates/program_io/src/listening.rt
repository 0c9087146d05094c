//! Where connections come in, and which of them comes next.
ghost use Rattle.std.specs.Prelude.{◌≡◌, ◌≢◌, ◌+◌, ◌<◌, ◌≤◌, ◌↔◌, [], length, max, IfErr, IfOk, IfSome, IsTrue, MatchOption};
ghost use Rattle.http_messages.specs.Arrival.{is_ready};
ghost use Rattle.http_messages.specs.Room.{KeepsReady};
ghost use Rattle.program_io.specs.Listening.{ListensOn};

use crate::fault::RunFault;
use crate::loopback::{LoopbackListener, listener_on};
use http_messages::arrival::Waiting;
use http_messages::patience::Door;
use http_messages::room::{MOST_WAITING, look, next_of, others_wait, places, take_in};
use std::net::TcpStream;
use std::time::Instant;

/// Where connections come in.
#[derive(Drop)]
pub struct Entrance {
    /// It doesn't block, but while nobody is served.
    listener: LoopbackListener,
    /// Those that came in while another was served, in this order.
    waiting: Vec<Waiting<TcpStream>>,
    /// How many more are to be taken in.
    room: u32,
    /// How many were taken in and are gone, and weren't reported as lost yet.
    gone: u32,
    /// When those that wait were looked at last, or nobody waited.
    looked: Option<Instant>,
    rt: HostRuntime,
    ghost fits: { gone + room ≤ 4294967295 },
}

impl Entrance {
    /// Whether all that will be served were taken in.
    fn is_full(&self) -> bool
        ensures { IsTrue result ↔ (self.now.room ≡ 0) }
    {
        self.room == 0
    }

    /// Takes in this one, which has come, and says how many are gone for it: this one, another or none.
    fn admit(&mut self, stream: TcpStream) -> u32
        ensures ready { KeepsReady (λ it. is_ready it.arrived) self.old.waiting.items self.new.waiting.items }
        ensures counts { length self.old.waiting.items + 1 ≡ length self.new.waiting.items + result }
        ensures stay { length self.old.waiting.items ≤ length self.new.waiting.items }
        ensures most { length self.new.waiting.items ≤ max (length self.old.waiting.items) MOST_WAITING }
        ensures same { (self.new.room ≡ self.old.room) × (self.new.gone ≡ self.old.gone) }
    {
        if stream.set_nonblocking(true).is_err() {
            return 1;
        }
        match Waiting::new(self.rt.alloc(), stream) {
            Some(it) => take_in(&mut self.waiting, it),
            None => 1,
        }
    }

    /// Takes in those that have come, but no more than will be served. They wait after the others. Who is ready stays.
    fn gather(&mut self)
        ensures ready { KeepsReady (λ it. is_ready it.arrived) self.old.waiting.items self.new.waiting.items }
        ensures counts { length self.old.waiting.items + self.old.room + self.old.gone
            ≡ length self.new.waiting.items + self.new.room + self.new.gone }
        ensures stay { length self.old.waiting.items ≤ length self.new.waiting.items }
        ensures most { length self.new.waiting.items ≤ max (length self.old.waiting.items) MOST_WAITING }
    {
        for _ in 0..places(&self.waiting) {
            if self.is_full() {
                return;
            }
            let Ok((stream, _)) = self.listener.accept() else {
                return;
            };
            let gone = self.admit(stream);
            self.room -= 1;
            self.gone += gone;
        }
    }

    /// Reads what has come from those that wait. Who is ready now counts as ready since they were looked at before.
    fn look(&mut self)
        ensures same { (length self.new.waiting.items ≡ length self.old.waiting.items) × (self.new.room ≡ self.old.room)
            × (self.new.gone ≡ self.old.gone) }
    {
        look(&mut self.waiting, self.looked);
        self.looked = Instant::now(&self.rt).ok();
    }

    /// The next one that comes in. None if it was lost.
    fn wait_for_one(&mut self) -> Option<Waiting<TcpStream>>
        ensures taken { self.old.room ≢ 0 → self.old.room ≡ self.new.room + 1 }
        ensures same { (self.new.waiting ≡ self.old.waiting) × (self.new.gone ≡ self.old.gone) }
    {
        self.room = self.room.saturating_sub(1);
        self.listener.set_nonblocking(false).ok()?;
        let found = self.listener.accept();
        self.looked = Instant::now(&self.rt).ok();
        self.listener.set_nonblocking(true).ok()?;
        Waiting::new(self.rt.alloc(), found.ok()?.0)
    }

    /// The next connection, of those that wait, or else once one has come in. None if it was lost. If some are still to
    /// be handed out or reported as lost, it is one of them.
    fn next(&mut self) -> Option<Waiting<TcpStream>>
        ensures counts { 0 < length self.old.waiting.items + self.old.room + self.old.gone →
            length self.old.waiting.items + self.old.room + self.old.gone
            ≡ length self.new.waiting.items + self.new.room + self.new.gone + 1 }
    {
        // Before others are taken in: in their place one might go at whom nobody looked.
        if self.gone > 0 {
            self.gone -= 1;
            return None;
        }
        self.gather();
        self.look();
        match next_of(&self.waiting) {
            Some(place) => Some(self.waiting.remove(place)),
            None if self.gone > 0 => {
                self.gone -= 1;
                None
            }
            None => self.wait_for_one(),
        }
    }

    /// For how many milliseconds those that are ready wait.
    pub(crate) fn others_wait(&self) -> u64 {
        others_wait(&self.waiting, &self.rt)
    }
}

impl Door for Entrance {
    ghost IsWanted = { λ entrance. 0 < length entrance.waiting.items };

    fn has_another(&mut self) -> bool {
        self.gather();
        self.look();
        !self.waiting.is_empty()
    }

    fn others(&mut self) -> u32 {
        self.gather();
        // So that nobody goes whom nobody looked at.
        if self.waiting.len() >= MOST_WAITING {
            self.look();
        }
        u32::try_from(self.waiting.len()).unwrap_or(u32::MAX)
    }
}

/// So many connections that come in at an address, one after the other.
#[derive(Drop)]
pub struct Connections {
    /// Where they come in. It also sees whether another one waits.
    pub entrance: Entrance,
    /// How many are still to be taken,
    pub left: u32,
    /// how many were handed out to be served,
    pub served: u32,
    /// how many were lost as they came in,
    pub lost: u32,
    /// and how many there are to be.
    pub all: u32,
    ghost counted: { left + served + lost ≡ all },
}

impl Connections {
    /// The next connection, once one has come in; it counts among those served. None if it was lost, and then it counts
    /// among those.
    pub fn next(&mut self) -> Option<Waiting<TcpStream>>
        requires { self.old.left ≢ 0 }
        ensures left { (self.old.left ≡ self.new.left + 1) × (self.new.all ≡ self.old.all) }
        ensures taken { MatchOption result (self.new.served ≡ self.old.served)
            (λ _. self.new.served ≡ self.old.served + 1) }
        ensures lost { IfSome result (λ _. self.new.lost ≡ self.old.lost) }
    {
        self.left -= 1;
        match self.entrance.next() {
            Some(found) => {
                self.served += 1;
                Some(found)
            }
            None => {
                self.lost += 1;
                None
            }
        }
    }
}

/// So many connections to an address of loopback. `Listen`: the text says none, or it can't be listened on.
pub fn listen_on(rt: &HostRuntime, listen: &str, connections: u32) -> Result<Connections, RunFault>
    ensures count { IfOk result (λ found. (found.all ≡ connections) × (found.served ≡ 0)) }
    ensures room { IfOk result (λ found. (found.entrance.room ≡ connections) × (found.entrance.gone ≡ 0)
        × (found.entrance.waiting.items ≡ [])) }
    ensures said { IfOk result (λ _. ListensOn listen.now) }
    ensures cause { IfErr result (λ fault. fault ≡ RunFault.Listen) }
{
    let (listener, _) = listener_on(rt, listen)?;
    let Ok(()) = listener.set_nonblocking(true) else {
        return Err(RunFault::Listen);
    };
    Ok(Connections {
        entrance: Entrance {
            listener,
            waiting: Vec::new(rt.alloc()),
            room: connections,
            gone: 0,
            looked: Instant::now(rt).ok(),
            rt: *rt,
        },
        left: connections,
        served: 0,
        lost: 0,
        all: connections,
    })
}
