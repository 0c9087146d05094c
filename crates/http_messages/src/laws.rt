//! The numbers of waiting. The program doesn't call this law.
ghost use Rattle.std.specs.Prelude.{◌≡◌};
ghost use Rattle.http_messages.specs.Waits.{serve_limits};

use crate::patience::LIMITS;

/// How long `broker serve` waits for a peer, by its numbers.
pub fn limits_of_serve()
    ensures { LIMITS ≡ serve_limits }
{}
