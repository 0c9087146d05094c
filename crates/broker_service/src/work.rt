//! A command inside its transaction, and the transaction round it.
ghost use Rattle.std.specs.Prelude.{◌≡◌, ◌↔◌, IsTrue, IfOk, IfErr, IsOk, IsOkAnd, None};
ghost use Rattle.sqlite.specs.Held.{state};
ghost use Rattle.broker_core.specs.Contents.{HasSoundContents};
ghost use Rattle.broker_core.specs.Laws.{IsDone};
ghost use Rattle.broker_core.specs.Words.{named_in};
ghost use Rattle.broker_core.specs.declared.answer.Answer.TheVariants.{BadForm};
ghost use Rattle.caller_facts.specs.Callers.{token_of};
ghost use Rattle.command_facts.specs.Performs.{Performs, FailsToChangeFrom, IsMisnamed, TokensStep};
ghost use Rattle.command_facts.specs.Primitives.{broker_primitives};
ghost use Rattle.broker_service.specs.Transacted.{IsNoFailure, Transacted};
ghost use Rattle.broker_service.specs.Does.{Does};

use answer_texts::RenderedAnswer;
use broker_core::answer::Answer;
use broker_core::command::{Command, FormFault};
use broker_core::policy::{Caller, Rule};
use broker_database::{Failure, conclude};
use caller_facts::callers::caller_of;
use contract_commands::branch_pact::get_branch_pact;
use contract_commands::pacts::get_pact;
use contract_commands::publish::put_pact;
use contract_commands::replies::post_replies;
use contract_commands::results::post_result;
use environment_commands::can_i_deploy::can_i_deploy;
use environment_commands::deploy::deploy;
use environment_commands::end_support::end_support;
use environment_commands::listing::get_environment;
use environment_commands::matrix::get_matrix;
use environment_commands::release::release;
use environment_commands::undeploy::undeploy;
use registry_commands::environments::put_environment;
use registry_commands::grants::{delete_grant, put_grant};
use registry_commands::put_pacticipant::put_pacticipant;
use registry_commands::put_team::put_team;
use registry_commands::versions::put_version;
use sqlite::{Alter, Connection};
use std::alloc::Global;
use table_access::{StoreFault, begin};

/// The answer to a command whose form is at fault.
fn bad_form(fault: &FormFault) -> Result<Answer, StoreFault>
    ensures ok { IfOk result (λ answer. answer ≡ BadForm fault.now) }
    ensures cause { IfErr result (λ e. e ≡ StoreFault.Memory) }
    ensures plain { named_in fault.now ≡ None → IsOk result }
{
    match fault.clone() {
        Ok(fault) => Ok(Answer::BadForm(fault)),
        Err(_) => Err(StoreFault::Memory),
    }
}

/// What a known caller's command does.
fn follow<S: Alter>(
    alloc: Global,
    conn: &mut Connection<S>,
    caller: &Caller,
    command: &Command,
) -> Result<Answer, StoreFault>
    ensures { Does S.Store conn.old conn.new result caller.now command.now }
{
    match command {
        Command::PutTeam { team, token } => put_team(alloc, conn, caller, team, token),
        Command::PutPacticipant { pacticipant, team } => put_pacticipant(
            conn,
            caller,
            pacticipant,
            team,
        ),
        Command::PutEnvironment { environment, marks } => put_environment(
            alloc,
            conn,
            caller,
            environment,
            *marks,
        ),
        Command::PutGrant { team, environment } => put_grant(conn, caller, team, environment),
        Command::DeleteGrant { team, environment } => delete_grant(conn, caller, team, environment),
        Command::PutVersion { version, branch } => put_version(conn, caller, version, branch),
        Command::PutPact { path, file } => put_pact(alloc, conn, caller, path, file),
        Command::GetPact { path } => get_pact(conn, caller, path),
        Command::GetBranchPact {
            provider,
            consumer,
            branch,
        } => get_branch_pact(conn, caller, provider, consumer, branch),
        Command::PostResult {
            path,
            report,
            success,
        } => post_result(conn, caller, path, report, *success),
        Command::PostReplies {
            path,
            report,
            replies,
        } => post_replies(alloc, conn, caller, path, report, replies),
        Command::Deploy {
            environment,
            version,
            instance,
        } => deploy(alloc, conn, caller, environment, version, instance),
        Command::Undeploy {
            environment,
            version,
            instance,
        } => undeploy(conn, caller, environment, version, instance),
        Command::Release {
            environment,
            version,
        } => release(alloc, conn, caller, environment, version),
        Command::EndSupport {
            environment,
            version,
        } => end_support(conn, caller, environment, version),
        Command::CanIDeploy {
            version,
            environment,
        } => can_i_deploy(alloc, conn, caller, version, environment),
        Command::GetMatrix { version } => get_matrix(alloc, conn, caller, version),
        Command::GetEnvironment { environment } => get_environment(
            alloc,
            conn,
            caller,
            environment,
        ),
        Command::Malformed(fault) => Ok(done!(bad_form(fault))),
    }
}

/// The step of a command, by the caller of its token.
fn step_of<S: Alter>(
    alloc: Global,
    conn: &mut Connection<S>,
    token: Option<&str>,
    command: &Command,
) -> Result<Answer, StoreFault>
    ensures answers { Performs S.Store conn.old conn.new result (TokensStep (token_of token.entry) command.now) }
    ensures failure { FailsToChangeFrom S.Store conn.old conn.new result (IsMisnamed command.now)
        (HasSoundContents broker_primitives) (TokensStep (token_of token.entry) command.now) }
{
    match done!(caller_of(alloc, conn, token)) {
        Some(caller) => follow(alloc, conn, &caller, command),
        None => Ok(Answer::Denied(Rule::KnownCaller)),
    }
}

/// The answer with its body. Only `Broker::apply` answers a failure, or that the broker is stopped: no command has such
/// an answer.
fn answer_of(alloc: Global, answer: Answer) -> Result<RenderedAnswer, StoreFault>
    ensures ok { IfOk result (λ made. (made ≡ answer) × IsNoFailure made) }
    ensures cause { IsNoFailure answer → IfErr result (λ e. e ≡ StoreFault.Memory) }
{
    if matches!(answer, Answer::Memory | Answer::Store | Answer::Stopped) {
        return Err(StoreFault::Store);
    }
    match RenderedAnswer::new(alloc, answer) {
        Ok(answer) => Ok(answer),
        Err(_) => Err(StoreFault::Memory),
    }
}

/// What a command does inside its transaction. Every allocation comes here, before the commit.
fn work<S: Alter>(
    alloc: Global,
    conn: &mut Connection<S>,
    token: Option<&str>,
    command: &Command,
) -> Result<RenderedAnswer, StoreFault>
    ensures performs { Performs S.Store conn.old conn.new result (TokensStep (token_of token.entry) command.now) }
    ensures failure { FailsToChangeFrom S.Store conn.old conn.new result (IsMisnamed command.now)
        (HasSoundContents broker_primitives) (TokensStep (token_of token.entry) command.now) }
    ensures answers { IfOk result IsNoFailure }
{
    let answer = done!(step_of(alloc, conn, token, command));
    Ok(done!(answer_of(alloc, answer)))
}

/// Whether something was done, so that there is something to commit.
fn is_done(worked: &Result<RenderedAnswer, StoreFault>) -> bool
    ensures { IsTrue result ↔ IsOkAnd worked.now (λ answer. IsDone answer) }
{
    match worked {
        Ok(answer) => matches!(answer.answer(), Answer::Done(_)),
        Err(_) => false,
    }
}

/// One command in one transaction. It is committed if something was done, else it is rolled back. What was done and
/// isn't kept has the refusal of its COMMIT in hand.
pub(crate) fn transact<S: Alter>(
    alloc: Global,
    conn: &mut Connection<S>,
    token: Option<&str>,
    command: &Command,
) -> Result<RenderedAnswer, Failure>
    ensures transacts { Transacted (state S.Store) (token_of token.entry) command.now conn.old conn.new result }
    ensures answers { IfOk result IsNoFailure }
{
    match begin(conn) {
        Ok(()) => {},
        Err(fault) => return Err(Failure::Call(fault)),
    }
    let worked = work(alloc, conn, token, command);
    let keeps = is_done(&worked);
    conclude(conn, worked, keeps)
}
