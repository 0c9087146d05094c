//! When a peer's turn is over.
ghost use Rattle.std.specs.Prelude.{◌<◌, ◌≤◌, ◌*◌, ◌↔◌, ◌≡◌, true, IfSome, IfNone, IfOk, IsOkAnd};
ghost use Rattle.std.specs.Duration.{as_nanos};
ghost use Rattle.http_messages.specs.Waits.{millis};

use std::io;
use std::time::Duration;

/// The turn of a peer is over that others wait for. Only `end_of_turn` makes one.
#[derive(Clone, Copy, Debug, PartialEq, Eq)]
pub struct TurnOver(());

/// Whether the turn of a peer is over that was served for so long while so many others waited.
fn is_turn_over(turn: u64, served: Duration, others: u32) -> bool
    ensures { result ≡ true ↔ millis turn ≤ as_nanos served * others }
{
    Duration::from_millis(turn)
        .saturating_sub(served.saturating_mul(others))
        .is_zero()
}

/// The end of such a turn, if it is over. If the clock failed, and nobody knows how long the peer was served, it is.
pub(crate) fn end_of_turn(turn: u64, served: io::Result<Duration>, others: u32) -> Option<TurnOver>
    ensures over { IfSome result (λ _. (0 < others) × IfOk served (λ time. millis turn ≤ as_nanos time * others)) }
    ensures goes_on { IfNone result (0 < others → IsOkAnd served (λ time. as_nanos time * others < millis turn)) }
{
    if others == 0 {
        return None;
    }
    match served {
        Ok(served) if !is_turn_over(turn, served, others) => None,
        _ => Some(TurnOver(())),
    }
}
