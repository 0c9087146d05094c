//! A reader, whose questions stop no broker whose disk works.
ghost use Rattle.std.specs.Prelude.{◌≡◌};
ghost use Rattle.sqlite.specs.Held.{state};
ghost use Rattle.worked_examples.specs.Asking.{is_question, IsAsked};

use answer_texts::RenderedAnswer;
use broker_core::command::Command;
use broker_service::Broker;
use sqlite::Alter;
use std::alloc::Global;

/// Whether a command asks, and changes nothing.
fn is_question(command: &Command) -> bool
    ensures { result ≡ is_question command.now }
{
    matches!(
        command,
        Command::GetPact { .. }
            | Command::GetBranchPact { .. }
            | Command::GetEnvironment { .. }
            | Command::CanIDeploy { .. }
            | Command::GetMatrix { .. }
    )
}

/// Asks a broker for the caller with this token. A command that may change something isn't run, and there is no answer.
/// Unless its store fails, the broker answers each question as the machine does, or that it is out of memory, holds what
/// it held, and isn't stopped: so a reader never has to open it again.
pub fn ask<S: Alter>(
    alloc: Global,
    broker: &mut Broker<S>,
    token: &str,
    command: &Command,
) -> Option<RenderedAnswer>
    ensures { IsAsked (state S.Store) broker.old token.now command.now result broker.new }
{
    if !is_question(command) {
        return None;
    }
    Some(broker.apply(alloc, Some(token), command))
}
