//! Asking the broker in a file whether a version may be deployed.
ghost use Rattle.std.specs.Prelude.{◌≡◌, ◌⊎◌, IfErr, IfOk, OnErr};
ghost use Rattle.sqlite.specs.WalFiles.{image_at};
ghost use Rattle.broker_names.specs.Name.{IsToken};
ghost use Rattle.broker_program.specs.Reasons.{AsksByNames, FailsToAnswer, FailsToAsk, FailsToOpen};
ghost use Rattle.broker_program.specs.Reasons.{IsAnswerFault, IsNameFault, IsQuestionFault};
ghost use Rattle.broker_program.specs.Returned.{AnswersFrom, AnswersQuestion, Asks, AsksUntil, asked, permission};
ghost use Rattle.broker_program.specs.Returned.{ReportsGate, ReportsGateUntil};

use crate::files::{Failed, open_broker, release};
use crate::run_end::FileAfter;
use answer_texts::RenderedAnswer;
use broker_core::answer::{Answer, Shown};
use broker_core::command::{Command, Version};
use broker_names::name::Token;
use command_line::FilePath;
use program_io::fault::RunFault;
use program_io::forms::{name_of, token_of};
use program_io::output::write_line;
use sqlite::{FileFrom, FileStore, Start};
use std::alloc::Global;
use std::io::Write;

/// What is asked: the texts of the caller's token, of the names of a version's pacticipant and of the version, and of
/// the environment's name.
#[derive(Clone, Copy)]
pub(crate) struct Question<'a> {
    pub token: &'a str,
    pub pacticipant: &'a str,
    pub version: &'a str,
    pub environment: &'a str,
}

/// The question as a command. `Name`: one of its texts isn't a name.
fn command_of(alloc: Global, question: Question<'_>) -> Result<Command, RunFault>
    ensures ok { IfOk result (λ command. (command ≡ asked question.entry) × AsksByNames question.entry) }
    ensures cause { IfErr result (IsNameFault question.entry) }
{
    let version = Version {
        pacticipant: name_of(alloc, question.pacticipant)?,
        name: name_of(alloc, question.version)?,
    };
    let environment = name_of(alloc, question.environment)?;
    Ok(Command::CanIDeploy {
        version,
        environment,
    })
}

/// The question as a command, with the caller's token. `Token`: it isn't one. `Name`: another text isn't a name.
fn request_of(alloc: Global, question: Question<'_>) -> Result<(Token, Command), RunFault>
    ensures ok { IfOk result (λ request. (request.0 ≡ question.entry.token.now) × (request.1 ≡ asked question.entry)) }
    ensures sound { IfOk result (λ _. IsToken question.entry.token.now × AsksByNames question.entry) }
    ensures cause { IfErr result (IsQuestionFault question.entry) }
{
    let token = token_of(alloc, question.token)?;
    let command = command_of(alloc, question)?;
    Ok((token, command))
}

/// What a broker answered, and the store of its file, which is given up as it is.
type Answered<S> = (RenderedAnswer, FileStore<FileFrom<S>>);

/// What the broker in the file answers the caller with the token.
fn answer_at<S: Start>(
    rt: &HostRuntime,
    file: FilePath<'_>,
    token: &Token,
    command: &Command,
    start: S,
) -> Result<Answered<S>, Failed<S>>
    ensures ok { IfOk result (λ r. AnswersFrom (image_at S.Start) token.now command.now r.0 r.1) }
    ensures cause { IfErr result (λ failed. FailsToOpen (image_at S.Start) failed.0 failed.1) }
{
    let mut broker = open_broker(rt, file, start)?;
    let answer = broker.apply(rt.alloc(), Some(token.as_str()), command);
    Ok((answer, release(broker)))
}

/// The same of a question.
fn answer_to<S: Start>(
    rt: &HostRuntime,
    file: FilePath<'_>,
    question: Question<'_>,
    start: S,
) -> Result<Answered<S>, Failed<S>>
    ensures ok { IfOk result (λ r. AnswersQuestion (image_at S.Start) question.entry r.0 r.1) }
    ensures cause { IfErr result (λ failed. FailsToAnswer (image_at S.Start) question.entry failed.0 failed.1) }
{
    match request_of(rt.alloc(), question) {
        Ok((token, command)) => {
            let answered = answer_at(rt, file, &token, &command, start);
            drop(command);
            answered
        }
        Err(fault) => Err((fault, FileAfter::Nothing)),
    }
}

/// Whether the answer permits the deployment, if it says so.
fn permits(answer: &RenderedAnswer) -> Option<bool>
    ensures { result ≡ permission answer.now }
{
    match answer.answer() {
        Answer::Shown(Shown::Gate { permitted, .. }) => Some(*permitted),
        _ => None,
    }
}

/// Writes the answer and a newline, and says whether the version is permitted. An answer that doesn't say so is a
/// fault.
fn print_answer<W: Write>(answer: RenderedAnswer, output: &mut W) -> Result<bool, RunFault>
    ensures ok { IfOk result (ReportsGate answer (W.contents output.old) (W.contents output.new)) }
    // Nothing was written, or a beginning of the answer.
    ensures err { OnErr result ((output.new ≡ output.old)
        ⊎ ReportsGateUntil answer (W.contents output.old) (W.contents output.new)) }
    ensures cause { IfErr result (IsAnswerFault answer) }
{
    match permits(&answer) {
        Some(permitted) => {
            let written = write_line(output, answer.body());
            drop(answer);
            written?;
            Ok(permitted)
        }
        None => Err(RunFault::Answer(answer)),
    }
}

/// Writes what the broker in the file answers, and a newline, and says whether the version is permitted. An answer that
/// doesn't say so is a fault. What is left of the file comes with it, if it was opened.
pub(crate) fn ask<S: Start, W: Write>(
    rt: &HostRuntime,
    file: FilePath<'_>,
    question: Question<'_>,
    start: S,
    output: &mut W,
) -> (Result<bool, RunFault>, FileAfter<FileFrom<S>>)
    ensures ok { IfOk result.0 (Asks (image_at S.Start) question.entry
        (W.contents output.old) (W.contents output.new) result.1) }
    // Nothing was written, or a beginning of the answer.
    ensures err { OnErr result.0 ((output.new ≡ output.old)
        ⊎ AsksUntil (image_at S.Start) question.entry
        (W.contents output.old) (W.contents output.new) result.1) }
    ensures cause { IfErr result.0 (λ fault. FailsToAsk (image_at S.Start) question.entry fault result.1) }
{
    match answer_to(rt, file, question, start) {
        Ok((answer, store)) => (print_answer(answer, output), FileAfter::GivenUp(store)),
        Err((fault, left)) => (Err(fault), left),
    }
}
