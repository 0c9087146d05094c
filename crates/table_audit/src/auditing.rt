//! The rules, which are tried one after another.
ghost use Rattle.std.specs.Prelude.{false};
ghost use Rattle.sqlite.specs.Held.{state};
ghost use Rattle.broker_database.specs.Transaction.{Concludes};
ghost use Rattle.table_audit.specs.Audit.{Audited, Verdict};
ghost use Rattle.table_audit.specs.Shown.{AreJudged, HasOffice, FindsUnder, Tries};

use crate::linked::{judge_deployed, judge_named, judge_newest, judge_providers};
use crate::rules::{
    judge_contents, judge_office, judge_pacticipants, judge_results, judge_teams, judge_versions,
};
use broker_database::conclude;
use sqlite::{Alter, Connection};
use std::alloc::Global;
use table_access::{StoreFault, begin, has_row};

/// What the rows of a table have to be, besides what SQLite tests.
#[derive(Clone, Copy, Debug, PartialEq, Eq)]
pub enum TableRule {
    /// `meta` has a row, with today's format and a digest in UTF-8.
    Office,
    /// A team has a name, and a digest in UTF-8.
    Team,
    /// A pacticipant and its team have names.
    Pacticipant,
    /// Versions are numbered from 1 without gaps, up to 1,000,000,000, and each has two names.
    Version,
    /// Contents are numbered in the same way, and each is a text in UTF-8 with its own digest.
    Content,
    /// Results are too, and each has a run, or says that it has none.
    Result,
    /// The provider of a result is the pacticipant of its version.
    Provider,
    /// A row of `latest` names a result for its own content and version.
    Named,
    /// A row of `latest` for the content and the version of a result names this result or a later one.
    Newest,
    /// A row of `deployed` has a version of its own pacticipant, and its instance is in UTF-8.
    Deployed,
}

/// A rule that is broken, and the number (the rowid) of a row that breaks it; `None` if `meta` has no row.
#[derive(Clone, Copy, Debug, PartialEq, Eq)]
pub struct Finding {
    pub rule: TableRule,
    pub row: Option<i64>,
}

/// All rules, in the order in which they are tried.
const RULES: [TableRule; 10] = [
    TableRule::Office,
    TableRule::Team,
    TableRule::Pacticipant,
    TableRule::Version,
    TableRule::Content,
    TableRule::Result,
    TableRule::Provider,
    TableRule::Named,
    TableRule::Newest,
    TableRule::Deployed,
];

/// Whether `meta` has a row.
fn has_office<S: Alter>(conn: &mut Connection<S>) -> Result<bool, StoreFault>
    ensures { Tries S.Store conn.old conn.new result HasOffice }
{
    has_row(conn, "SELECT one FROM meta", &[])
}

/// Judges the rows by one rule: the number of one that breaks it, or `None`.
fn judge_by<S: Alter>(
    alloc: Global,
    conn: &mut Connection<S>,
    rule: TableRule,
) -> Result<Option<i64>, StoreFault>
    ensures { Tries S.Store conn.old conn.new result (λ found db. FindsUnder rule db found) }
{
    match rule {
        TableRule::Office => judge_office(alloc, conn),
        TableRule::Team => judge_teams(alloc, conn),
        TableRule::Pacticipant => judge_pacticipants(alloc, conn),
        TableRule::Version => judge_versions(alloc, conn),
        TableRule::Content => judge_contents(alloc, conn),
        TableRule::Result => judge_results(alloc, conn),
        TableRule::Provider => judge_providers(alloc, conn),
        TableRule::Named => judge_named(alloc, conn),
        TableRule::Newest => judge_newest(alloc, conn),
        TableRule::Deployed => judge_deployed(alloc, conn),
    }
}

/// Judges the rows by each rule, until one is broken.
fn first_broken<S: Alter>(
    alloc: Global,
    conn: &mut Connection<S>,
) -> Result<Option<Finding>, StoreFault>
    ensures { Tries S.Store conn.old conn.new result AreJudged }
{
    for rule in &RULES {
        let row = done!(judge_by(alloc, conn, *rule));
        if row.is_some() {
            return Ok(Some(Finding { rule: *rule, row }));
        }
    }
    Ok(None)
}

/// Judges the tables: `None` if they hold a state of the broker that can be read back, and else a rule that is broken.
fn verdict<S: Alter>(alloc: Global, conn: &mut Connection<S>) -> Result<Option<Finding>, StoreFault>
    ensures { Tries S.Store conn.old conn.new result Verdict }
{
    if !done!(has_office(conn)) {
        return Ok(Some(Finding {
            rule: TableRule::Office,
            row: None,
        }));
    }
    first_broken(alloc, conn)
}

/// Ends the transaction in which this was found, and keeps nothing of it.
fn end<S: Alter>(
    conn: &mut Connection<S>,
    found: Result<Option<Finding>, StoreFault>,
) -> Result<Option<Finding>, StoreFault>
    ensures { Concludes (state S.Store conn.old) (state S.Store conn.new) false found result }
{
    match conclude(conn, found, false) {
        Ok(found) => Ok(found),
        Err(failure) => Err(failure.fault()),
    }
}

/// Whether the tables of a broker's database hold a state of the broker that can be read back: `None` if they do, and
/// else a rule that is broken, with a row that breaks it. Nothing changes. Each row is looked at a few times, and memory
/// is taken for the rows of one query at a time.
///
/// # Errors
/// `StoreFault::Memory` if the database is out of memory, or an allocation failed; `StoreFault::Store` if the database
/// failed, or a transaction was open; on a connection as it is opened, only if the database failed.
pub fn audit<S: Alter>(
    alloc: Global,
    conn: &mut Connection<S>,
) -> Result<Option<Finding>, StoreFault>
    ensures { Audited (state S.Store) conn.old conn.new result }
{
    done!(begin(conn));
    let found = verdict(alloc, conn);
    end(conn, found)
}
