//! A deployment whose refusal is handed on with its faults.
ghost use Rattle.std.specs.Prelude.{◌≡◌, Some, None, IfOk};
ghost use Rattle.sqlite.specs.Held.{state};
ghost use Rattle.broker_core.specs.Text.{version};
ghost use Rattle.broker_core.specs.declared.command.Command.TheVariants.{Deploy};
ghost use Rattle.worked_examples.specs.Deploying.{is_accepted, IsDeployedOrRefused};

use answer_texts::RenderedAnswer;
use broker_core::answer::Answer;
use broker_core::command::{Command, Version};
use broker_names::name::{Name, NameFault};
use broker_service::Broker;
use sqlite::Alter;
use std::alloc::Global;

/// The command that deploys a version of a pacticipant into an environment. Its names are tested here.
pub fn deployment(
    alloc: Global,
    pacticipant: &str,
    name: &str,
    environment: &str,
) -> Result<Command, NameFault>
    ensures { IfOk result (λ command. command ≡ Deploy environment.now (version pacticipant.now name.now) None) }
{
    let environment = Name::new(alloc, environment)?;
    let pacticipant = Name::new(alloc, pacticipant)?;
    let name = Name::new(alloc, name)?;
    Ok(Command::Deploy {
        environment,
        version: Version { pacticipant, name },
        instance: None,
    })
}

/// Whether a command was done, or had been done before.
fn is_accepted(answer: &Answer) -> bool
    ensures { result ≡ is_accepted answer.now }
{
    matches!(answer, Answer::Done(_) | Answer::Already(_))
}

/// Records a deployment, or hands on what the broker answers in its place. That answer lists every pair
/// at fault, or says which name isn't known or which rule denies; its body says the same as JSON; and nothing has
/// changed, but that the broker is stopped if its store failed.
pub fn deploy<S: Alter>(
    alloc: Global,
    broker: &mut Broker<S>,
    token: &str,
    deployment: &Command,
) -> Result<(), RenderedAnswer>
    ensures { IsDeployedOrRefused (state S.Store) broker.old token.now deployment.now result broker.new }
{
    let answer = broker.apply(alloc, Some(token), deployment);
    if is_accepted(answer.answer()) {
        return Ok(());
    }
    Err(answer)
}
