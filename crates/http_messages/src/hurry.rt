//! The limits of a peer that is let in while another waits already.
ghost use Rattle.std.specs.Prelude.{◌≡◌, ◌-◌, max};
ghost use Rattle.http_messages.specs.Waits.{AreWithin, limits_after};

use crate::patience::{LIMITS, Limits};

/// What is left of a limit of `broker serve` once another peer has waited for so long, all in milliseconds: a look at
/// least.
fn left_of(limit: u64, waited: u64) -> u64
    ensures { result ≡ max (limit - waited) 20 }
{
    limit.saturating_sub(waited).max(LIMITS.look)
}

/// The limits of `broker serve` for a peer that is let in once others that are ready wait for so many milliseconds: what
/// this one may take of them is less by as much, but for a look.
pub fn limits_after(waited: u64) -> Limits
    ensures limits { result ≡ limits_after waited }
    ensures within { AreWithin result }
{
    Limits {
        late: left_of(LIMITS.late, waited),
        answer: left_of(LIMITS.answer, waited),
        turn: left_of(LIMITS.turn, waited),
        ..LIMITS
    }
}
