//! Results of verification: how one comes in, and those that their senders claim.
ghost use Rattle.std.specs.Prelude.{◌≡◌, ◌==◌, ◌&&◌, option_map};
ghost use Rattle.sqlite.specs.Held.{state};
ghost use Rattle.table_access.specs.Calls.{ReportsMemory};
ghost use Rattle.broker_core.specs.Text.{same_bool};
ghost use Rattle.broker_core.specs.State.{State as BrokerState};
ghost use Rattle.broker_core.specs.Change.{result_of_run as run_result};
ghost use Rattle.broker_core.specs.declared.answer.Detail.TheVariants as detail;
ghost use Rattle.broker_core.specs.declared.command.Command.TheVariants.{PostResult};
ghost use Rattle.broker_tables.specs.Holds.{AnswersTaking};
ghost use Rattle.broker_tables.specs.Failures.{LooksUpInPlace, FailsFrom};
ghost use Rattle.broker_tables.specs.ChangeRefusals.{FailsByStoreTaking};
ghost use Rattle.contract_tables.specs.Verified.{returned_of};
ghost use Rattle.command_facts.specs.Performs.{Carries, PerformsWhere, FailsToChangeFrom};
ghost use Rattle.contract_commands.specs.Pacts.{HasContent};
ghost use Rattle.contract_commands.specs.Results.{names_of, AreLong, HasPacticipant, CanReceive, IsToReport, returned_as, Receives, Claims, returned_row, ReportsSame, ReportsAgain, IsUnused, CanReport, CanRecordReport, AllowsReport, RecordsReport};

use crate::numbers::{VersionNumber, ensure_named, next_result, number_for};
use crate::sides::read_contract_to_verify;
use broker_core::answer::{Answer, Clash, Detail};
use broker_core::command::{PactPath, Report};
use broker_core::policy::Caller;
use broker_names::name::Name;
use contract_tables::{ResultRow, record_result, result_of_run};
use registry_tables::version_of;
use sqlite::{Alter, Connection};
use table_access::StoreFault;

/// What a result says of a content: whether it is a pass, and whether the broker checked it.
#[derive(Clone, Copy)]
pub(crate) struct Finding {
    pub(crate) content: u32,
    pub(crate) pass: bool,
    pub(crate) checked: bool,
}

/// What is reported of a result that comes in.
#[derive(Clone, Copy)]
pub(crate) enum Reported {
    /// It is recorded under this number.
    Recorded(u32),
    /// The provider has used its run for a result that says the same, which has this number.
    Known(u32),
    /// The provider has used its run for another result.
    RunTaken,
    /// There is no number left for it or for its version.
    Full,
}

/// The result of a run of the provider, if there is a run and it was used.
fn read_run<S: Alter>(
    conn: &mut Connection<S>,
    provider: &Name,
    run: &Option<Name>,
) -> Result<Option<ResultRow>, StoreFault>
    ensures { LooksUpInPlace S.Store conn.old conn.new result
        (λ found s. option_map returned_row found ≡ option_map (returned_of s.versions) (run_result s provider.now run.now)) }
{
    match run {
        Some(run) => result_of_run(conn, provider.as_str(), run),
        None => Ok(None),
    }
}

/// Whether a result that is there is of the version of this number, and of the content, and says what was found.
fn has_outcome(row: ResultRow, number: u32, found: Finding) -> bool
    ensures { result ≡ (row.content == found.content && (row.provider_version == number
        && (same_bool row.pass found.pass && same_bool row.checked found.checked))) }
{
    row.content == found.content
        && row.provider_version == number
        && row.pass == found.pass
        && row.checked == found.checked
}

/// Whether a result that is there says the same as one of the version of this number, if it has one.
fn says_same(row: ResultRow, number: Option<u32>, found: Finding) -> bool
    ensures { (s : BrokerState) → ReportsSame s row number found result }
{
    match number {
        Some(number) => has_outcome(row, number, found),
        None => false,
    }
}

/// What is reported of a result of a run that was used.
fn answer_again(row: ResultRow, number: Option<u32>, found: Finding) -> Reported
    ensures { (s : BrokerState) → ReportsAgain s row number found result }
{
    if says_same(row, number, found) {
        Reported::Known(row.number)
    } else {
        Reported::RunTaken
    }
}

/// Names the version if it isn't named, and records the result under this number.
fn record_report<S: Alter>(
    conn: &mut Connection<S>,
    provider: &Name,
    report: &Report,
    found: Finding,
    version: VersionNumber,
    next: u32,
) -> Result<(), StoreFault>
    ensures answers { AnswersTaking S.Store conn.old conn.new 4 result
        (CanRecordReport provider.now report.now version next) (λ _. RecordsReport provider.now report.now found) }
    ensures failure { FailsByStoreTaking S.Store conn.old conn.new 3 result (names_of provider.now report.now)
        (AllowsReport provider.now report.now found version next) }
{
    let number = done!(ensure_named(conn, provider, &report.provider_version, version));
    record_result(
        conn,
        next,
        found.content,
        provider.as_str(),
        number,
        found.pass,
        found.checked,
        &report.run,
    )
}

/// A result comes in whose run wasn't used, of a version that has this number or gets it.
fn receive_numbered<S: Alter>(
    conn: &mut Connection<S>,
    provider: &Name,
    report: &Report,
    found: Finding,
    version: VersionNumber,
) -> Result<Reported, StoreFault>
    ensures answers { AnswersTaking S.Store conn.old conn.new 4 result
        (CanReport provider.now report.now version) (Receives provider.now report.now found) }
    ensures failure { FailsFrom S.Store conn.old conn.new result (AreLong provider.now report.now)
        (λ s. CanReport provider.now report.now version s × HasContent s found.content)
        (IsToReport provider.now report.now found) }
{
    match done!(next_result(conn)) {
        Some(next) => {
            done!(record_report(conn, provider, report, found, version, next));
            Ok(Reported::Recorded(next))
        }
        None => Ok(Reported::Full),
    }
}

/// A result comes in whose run wasn't used.
fn receive_new<S: Alter>(
    conn: &mut Connection<S>,
    provider: &Name,
    report: &Report,
    found: Finding,
    number: Option<u32>,
) -> Result<Reported, StoreFault>
    ensures answers { AnswersTaking S.Store conn.old conn.new 4 result
        (λ s. IsUnused s provider.now report.now number) (Receives provider.now report.now found) }
    ensures failure { FailsFrom S.Store conn.old conn.new result (AreLong provider.now report.now)
        (λ s. IsUnused s provider.now report.now number × HasContent s found.content)
        (IsToReport provider.now report.now found) }
{
    match done!(number_for(conn, number)) {
        Some(version) => receive_numbered(conn, provider, report, found, version),
        None => Ok(Reported::Full),
    }
}

/// A result of the provider comes in. No version is named unless it is recorded.
pub(crate) fn receive<S: Alter>(
    conn: &mut Connection<S>,
    provider: &Name,
    report: &Report,
    found: Finding,
) -> Result<Reported, StoreFault>
    ensures answers { AnswersTaking S.Store conn.old conn.new 4 result
        (λ s. HasPacticipant s provider.now) (Receives provider.now report.now found) }
    ensures failure { FailsFrom S.Store conn.old conn.new result (AreLong provider.now report.now)
        (CanReceive provider.now found.content) (IsToReport provider.now report.now found) }
{
    let number = done!(version_of(conn, provider.as_str(), report.provider_version.as_str()));
    match done!(read_run(conn, provider, &report.run)) {
        Some(row) => Ok(answer_again(row, number, found)),
        None => receive_new(conn, provider, report, found, number),
    }
}

/// The answer to a result that was claimed.
fn answer_result(it: Reported) -> Answer
    ensures { result ≡ returned_as detail.Result it }
{
    match it {
        Reported::Recorded(number) => Answer::Done(Detail::Result(number as u64)),
        Reported::Known(number) => Answer::Already(Detail::Result(number as u64)),
        Reported::RunTaken => Answer::Taken(Clash::Run),
        Reported::Full => Answer::Full,
    }
}

/// A result comes in as its sender claims it.
fn claim<S: Alter>(
    conn: &mut Connection<S>,
    provider: &Name,
    report: &Report,
    content: u32,
    success: bool,
) -> Result<Answer, StoreFault>
    ensures answers { PerformsWhere S.Store conn.old conn.new result (λ s. HasPacticipant s provider.now)
        (Claims provider.now report.now content success) }
    ensures failure { FailsToChangeFrom S.Store conn.old conn.new result
        (AreLong provider.now report.now) (CanReceive provider.now content)
        (Claims provider.now report.now content success) }
    ensures memory { ReportsMemory (state S.Store conn.old) (state S.Store conn.new) result }
{
    let found = Finding {
        content,
        pass: success,
        checked: false,
    };
    let it = done!(receive(conn, provider, report, found));
    Ok(answer_result(it))
}

/// Records the result that is claimed of a contract, or says why not.
pub fn post_result<S: Alter>(
    conn: &mut Connection<S>,
    caller: &Caller,
    path: &PactPath,
    report: &Report,
    success: bool,
) -> Result<Answer, StoreFault>
    ensures { Carries S.Store conn.old conn.new result caller.now (PostResult path.now report.now success) }
{
    match done!(read_contract_to_verify(conn, caller, path)) {
        Ok(content) => claim(conn, &path.provider, report, content, success),
        Err(answer) => Ok(answer),
    }
}
