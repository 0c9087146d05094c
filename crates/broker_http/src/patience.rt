//! Serving a peer, and waiting for it no longer than the limits say.
ghost use Rattle.broker_http.specs.Calls.{IsServed};

use crate::served::{Served, StreamFault};
use crate::serving::{Turn, serve_for};
use broker_database::Service;
use http_messages::hurry::limits_after;
use http_messages::patience::{Door, Incoming, Outgoing, PeerReader, PeerWriter, Wait};
use http_messages::turn::TurnOver;
use http_routes::RouteTable;
use std::alloc::Global;
use std::cell::Cell;
use std::time::Clock;

/// As long as the limits say, if others wait.
struct InTurn;

impl<R: PeerReader, D: Door, C: Clock> Turn<Incoming<'_, '_, R, D, C>> for InTurn {
    fn is_over(reader: &mut Incoming<'_, '_, R, D, C>, is_begun: bool) -> Option<TurnOver> {
        reader.is_over(is_begun)
    }
}

/// Answers what the peer asks, as `serve` does, and waits for it as the limits of `broker serve` say, once another peer
/// that is ready has waited for so many milliseconds. If one is over, the reader or the writer has failed to `serve`. If
/// the peer's turn is over while others wait, it ends with `StreamFault::Turn`, between two messages. It gives the peer's
/// two sides back.
pub fn serve_peer<'a, B: Service, R: PeerReader + Drop, W: PeerWriter + Drop, D: Door, C: Clock>(
    alloc: Global,
    routes: &RouteTable,
    broker: &mut B,
    reader: R,
    writer: W,
    door: &'a mut D,
    clock: &'a C,
    waited: u64,
) -> (Result<Served, StreamFault>, R, W)
    ensures { IsServed B.shown (B.seen broker.old) (B.seen broker.new)
        (R.remaining reader) (R.remaining result.1)
        (W.contents writer) (W.contents result.2) result.0 }
{
    let limits = limits_after(waited);
    let wait = Cell::new(Wait::First);
    let mut incoming = Incoming::new(reader, door, clock, limits, &wait);
    let mut outgoing = Outgoing::new(writer, clock, limits, &wait);
    let served = serve_for::<InTurn, _, _, _>(alloc, routes, broker, &mut incoming, &mut outgoing);
    (served, incoming.peer, outgoing.peer)
}
