//! Peers that come in one after the other, to be served by a function that is proved for all that they send and take.
ghost use Rattle.std.specs.Prelude.{◌≡◌, ◌≢◌, ◌+◌, ◌<◌, length, refl, IfSome, MatchOption};
ghost use Rattle.std.specs.Borrow.{sem, Lends};
ghost use Rattle.program_io.specs.Entrance.{IsLetGo, IsLetIn, IsLost, Queue, peer_of, queue_of};
ghost use Rattle.program_io.specs.Lending.{LendsEntrance};

use crate::listening::{Connections, Entrance};
use http_messages::arrival::{Begun, Waiting};
use http_messages::patience::{Door, PeerReader, PeerWriter};
use std::net::TcpStream;

/// Peers that come in one after the other. Each that is let in is let go before the next one.
pub trait Peers {
    /// Where it is seen whether another one waits.
    type Door: Door;
    /// What one sends,
    type Reader: PeerReader + Drop;
    /// and what it takes.
    type Writer: PeerWriter + Drop;

    /// What is known of them.
    ghost queue: { Self → Queue };

    /// The same peers with another door.
    ghost with_door: { Self → Self.Door → Self };

    /// How many are still to come,
    fn left(&self) -> u32
        ensures { result ≡ length (queue self.now).coming };

    /// how many were let go,
    fn gone(&self) -> u32
        ensures { result ≡ length (queue self.now).went };

    /// and how many were lost as they came in.
    fn lost(&self) -> u32
        ensures { result ≡ (queue self.now).lost };

    /// The next one, once it has come in. None if it was lost.
    fn next(&mut self) -> Option<(Self::Reader, Self::Writer)>
        requires { 0 < length (queue self.old).coming }
        ensures { MatchOption result (IsLost (queue self.old) (queue self.new))
            (λ sides. IsLetIn (queue self.old) (queue self.new)
            (peer_of (Self.Reader.remaining sides.0) (Self.Writer.contents sides.1))) };

    /// The door.
    fn door(&mut self) -> &mut Self::Door
        ensures* writes_back { sem 𝓛 (Lends Self.row Self.Door.row self.entry result (with_door self.old)) };

    /// For how many milliseconds those wait that are ready, as far as is known.
    fn others_wait(&self) -> u64 {
        0
    }

    /// Lets go the peer that is in.
    fn let_go(&mut self, reader: Self::Reader, writer: Self::Writer)
        requires { length (queue self.old).went < length (queue self.old).came }
        ensures { IsLetGo (queue self.old) (queue self.new)
            (peer_of (Self.Reader.remaining reader) (Self.Writer.contents writer)) };

    ghost stays: { (peers : Self) (door : Self.Door) → queue (with_door peers door) ≡ queue peers };
}

/// The two sides of a connection, of which so much was read.
fn sides_of(begun: Begun<TcpStream>) -> Option<(Begun<TcpStream>, TcpStream)>
    ensures { IfSome result (λ sides. sides.0 ≡ begun) }
{
    begun.peer().set_nonblocking(false).ok()?;
    // Else an answer in two parts would wait for the peer to acknowledge the first.
    let _ = begun.peer().set_nodelay(true);
    let writer = begun.peer().try_clone().ok()?;
    Some((begun, writer))
}

/// The two sides of a connection that waited.
fn sides_of_waiting(waiting: Waiting<TcpStream>) -> Option<(Begun<TcpStream>, TcpStream)>
    ensures { IfSome result (λ sides. (sides.0.peer ≡ waiting.stream) × (sides.0.sent ≡ waiting.sent)) }
{
    sides_of(waiting.into_begun()?)
}

/// Counts a connection that was to be served as lost.
fn lose(connections: &mut Connections)
    requires { connections.old.served ≢ 0 }
    ensures served { connections.old.served ≡ connections.new.served + 1 }
    ensures lost { connections.new.lost ≡ connections.old.lost + 1 }
    ensures same { (connections.new.left ≡ connections.old.left) × (connections.new.all ≡ connections.old.all) }
{
    connections.served -= 1;
    connections.lost += 1;
}

/// Where they come in.
fn door_of(connections: &mut Connections) -> &mut Entrance
    ensures* writes_back { sem 𝓛 (LendsEntrance connections.entry result) }
{
    &mut connections.entrance
}

/// One more than this, of so many.
fn one_more(count: u32, of: u32) -> u32
    requires { count < of }
    ensures { result ≡ count + 1 }
{
    count + 1
}

/// The peers of so many connections. What they send and take isn't known.
#[derive(Drop)]
pub struct Sockets {
    connections: Connections,
    /// How many were let go.
    gone: u32,
}

impl Sockets {
    /// The peers of these connections, of which none was taken.
    pub fn new(connections: Connections) -> Sockets
        requires { connections.served ≡ 0 }
        ensures { ⟦<Sockets as Peers>⟧.queue result ≡ queue_of connections.left 0 0 connections.lost }
    {
        Sockets {
            connections,
            gone: 0,
        }
    }
}

impl Peers for Sockets {
    type Door = Entrance;

    type Reader = Begun<TcpStream>;

    type Writer = TcpStream;

    ghost queue = { λ s. queue_of s.connections.left s.connections.served s.gone s.connections.lost };

    ghost with_door = { λ s door. record s { connections = record s.connections { entrance = door } } };

    fn left(&self) -> u32 {
        self.connections.left
    }

    fn gone(&self) -> u32 {
        self.gone
    }

    fn lost(&self) -> u32 {
        self.connections.lost
    }

    /// One whose connection has no second handle is lost too.
    fn next(&mut self) -> Option<(Begun<TcpStream>, TcpStream)> {
        match self.connections.next() {
            Some(waiting) => match sides_of_waiting(waiting) {
                Some(sides) => Some(sides),
                None => {
                    lose(&mut self.connections);
                    None
                }
            },
            None => None,
        }
    }

    fn door(&mut self) -> &mut Entrance {
        door_of(&mut self.connections)
    }

    fn others_wait(&self) -> u64 {
        self.connections.entrance.others_wait()
    }

    fn let_go(&mut self, reader: Begun<TcpStream>, writer: TcpStream) {
        drop(reader);
        drop(writer);
        let gone = one_more(self.gone, self.connections.served);
        self.gone = gone;
    }

    ghost stays = { λ _ _. refl };
}
