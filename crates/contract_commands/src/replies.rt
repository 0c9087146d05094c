//! Replies that were recorded: the broker checks them itself against the contract's pact.
ghost use Rattle.std.specs.Prelude.{◌≡◌, ℕ, List, Ok};
ghost use Rattle.broker_core.specs.declared.answer.Detail.TheVariants as detail;
ghost use Rattle.broker_core.specs.declared.command.Command.TheVariants.{PostReplies};
ghost use Rattle.command_facts.specs.declared.checking.Comparison.TheVariants.{Failing};
ghost use Rattle.reply_check.specs.Replies.{RepliesRead};
ghost use Rattle.broker_core.specs.Contents.{HasSoundContents};
ghost use Rattle.command_facts.specs.Performs.{Performs, PerformsWhere, FailsToChangeFrom, FailsToDoFrom, CallersStep, IsStepOf};
ghost use Rattle.command_facts.specs.Primitives.{broker_primitives};
ghost use Rattle.contract_commands.specs.Results.{AreLong, HasPacticipant, CanReceive, returned_as};
ghost use Rattle.contract_commands.specs.Checks.{Leads, Checks, CanLead, CanCheck};

use crate::publish::report_unread;
use crate::results::{Finding, Reported, receive};
use crate::sides::{read_contract_to_verify, read_text};
use broker_core::answer::{Answer, Clash, Detail, Places};
use broker_core::command::{FormFault, PactPath, Report};
use broker_core::policy::Caller;
use broker_names::name::{Body, Name};
use command_facts::{Comparison, Replies, compare, read_replies_body};
use sqlite::{Alter, Connection};
use std::alloc::Global;
use table_access::StoreFault;

/// The answer to replies by which these interactions fail.
fn replies_answer(failing: Places, success: bool, it: Reported) -> Answer
    ensures { result ≡ returned_as (λ n. detail.Replies failing n success) it }
{
    match it {
        Reported::Recorded(number) => Answer::Done(Detail::Replies {
            failing,
            result: number as u64,
            success,
        }),
        Reported::Known(number) => Answer::Already(Detail::Replies {
            failing,
            result: number as u64,
            success,
        }),
        Reported::RunTaken => Answer::Taken(Clash::Run),
        Reported::Full => Answer::Full,
    }
}

/// The result of replies by which these interactions fail comes in: it is a pass if none fails.
fn report_failing<S: Alter>(
    conn: &mut Connection<S>,
    provider: &Name,
    report: &Report,
    content: u32,
    failing: Places,
) -> Result<Answer, StoreFault>
    ensures answers { PerformsWhere S.Store conn.old conn.new result (λ s. HasPacticipant s provider.now)
        (λ s out. Leads s provider.now report.now content (Failing failing) out) }
    ensures failure { FailsToChangeFrom S.Store conn.old conn.new result
        (AreLong provider.now report.now) (CanReceive provider.now content)
        (λ s out. Leads s provider.now report.now content (Failing failing) out) }
{
    let pass = failing.as_slice().is_empty();
    let found = Finding {
        content,
        pass,
        checked: true,
    };
    let it = done!(receive(conn, provider, report, found));
    Ok(replies_answer(failing, pass, it))
}

/// What the comparison of a content with replies leads to.
fn answer_compared<S: Alter>(
    conn: &mut Connection<S>,
    provider: &Name,
    report: &Report,
    content: u32,
    returned: Comparison,
) -> Result<Answer, StoreFault>
    ensures answers { PerformsWhere S.Store conn.old conn.new result (λ s. HasPacticipant s provider.now)
        (λ s out. Leads s provider.now report.now content returned out) }
    ensures failure { FailsToChangeFrom S.Store conn.old conn.new result
        (AreLong provider.now report.now) (CanLead provider.now content returned)
        (λ s out. Leads s provider.now report.now content returned out) }
{
    match returned {
        Comparison::Failing(failing) => report_failing(conn, provider, report, content, failing),
        Comparison::UnknownReply => Ok(Answer::BadForm(FormFault::UnknownReply)),
        Comparison::Pattern => Ok(Answer::Pattern),
        Comparison::NoPact => Err(StoreFault::Store),
    }
}

/// Checks replies against the text of a content.
fn check_content<S: Alter>(
    alloc: Global,
    conn: &mut Connection<S>,
    provider: &Name,
    report: &Report,
    content: u32,
    replies: &Replies,
) -> Result<Answer, StoreFault>
    ensures answers { PerformsWhere S.Store conn.old conn.new result (λ s. HasPacticipant s provider.now)
        (λ s out. Checks s provider.now report.now content replies.now out) }
    ensures failure { FailsToChangeFrom S.Store conn.old conn.new result
        (AreLong provider.now report.now) (CanCheck provider.now content)
        (λ s out. Checks s provider.now report.now content replies.now out) }
{
    let text = done!(read_text(conn, content));
    match compare(alloc, text.as_str(), replies) {
        Ok(returned) => answer_compared(conn, provider, report, content, returned),
        Err(_) => Err(StoreFault::Memory),
    }
}

/// Checks replies that are well formed against the contract, or says why not.
fn check_replies<S: Alter>(
    alloc: Global,
    conn: &mut Connection<S>,
    caller: &Caller,
    path: &PactPath,
    report: &Report,
    replies: &Replies,
) -> Result<Answer, StoreFault>
    ensures answers { (body : List ℕ) → RepliesRead body (Ok replies.now)
        → Performs S.Store conn.old conn.new result (CallersStep caller.now (PostReplies path.now report.now body)) }
    ensures failure { (body : List ℕ) → RepliesRead body (Ok replies.now)
        → FailsToDoFrom S.Store conn.old conn.new result (HasSoundContents broker_primitives) caller.now
        (PostReplies path.now report.now body) }
{
    match done!(read_contract_to_verify(conn, caller, path)) {
        Ok(content) => check_content(alloc, conn, &path.provider, report, content, replies),
        Err(answer) => Ok(answer),
    }
}

/// Checks recorded replies against the contract and records the result, or says why not.
pub fn post_replies<S: Alter>(
    alloc: Global,
    conn: &mut Connection<S>,
    caller: &Caller,
    path: &PactPath,
    report: &Report,
    body: &Body,
) -> Result<Answer, StoreFault>
    ensures answers { Performs S.Store conn.old conn.new result
        (CallersStep caller.now (PostReplies path.now report.now body.now)) }
    ensures failure { FailsToDoFrom S.Store conn.old conn.new result (HasSoundContents broker_primitives) caller.now
        (PostReplies path.now report.now body.now) }
{
    match read_replies_body(alloc, body.as_slice()) {
        Ok(replies) => check_replies(alloc, conn, caller, path, report, &replies),
        Err(fault) => report_unread(fault),
    }
}
