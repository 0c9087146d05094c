//! The limit on the numbers of versions, contents and results.
ghost use Rattle.std.specs.Prelude.{IsTrue, ◌↔◌};
ghost use Rattle.broker_core.specs.Limit.{HasRoom};

/// The greatest number of a version, of a content and of a result (this project's own choice).
pub const GREATEST_NUMBER: u64 = 1_000_000_000;

/// Whether one more may be numbered if there are `count`: numbers go from 1 to [`GREATEST_NUMBER`].
pub fn room(count: u64) -> bool
    ensures { IsTrue result ↔ HasRoom count }
{
    count < GREATEST_NUMBER
}
