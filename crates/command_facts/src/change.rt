//! What a command answers by its change.
ghost use Rattle.std.specs.Prelude.{◌≡◌};
ghost use Rattle.command_facts.specs.Performs.{returned_done};

use broker_core::answer::{Answer, Detail};
use table_access::StoreFault;

/// Done if the change is made; or its failure.
///
/// # Errors
/// That of the change.
pub fn returned(change: Result<(), StoreFault>) -> Result<Answer, StoreFault>
    ensures { result ≡ returned_done change }
{
    match change {
        Ok(()) => Ok(Answer::Done(Detail::Plain)),
        Err(fault) => Err(fault),
    }
}
