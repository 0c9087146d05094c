//! The names of a version, by its number.
ghost use Rattle.std.specs.Prelude.{◌≡◌, ◌<◌, ◌↔◌, Some, IsSome, Contains, length, pos};
ghost use Rattle.sqlite.specs.declared.types.Value.TheVariants.{Int};
ghost use Rattle.broker_core.specs.declared.command.Version.{Version as VersionModel};
ghost use Rattle.broker_tables.specs.Numbers.{number_of};
ghost use Rattle.broker_tables.specs.Failures.{LooksUp, FailsByStoreFrom};
ghost use Rattle.broker_tables.specs.Holds.{Queries};
ghost use Rattle.deploy_tables.specs.AnyThere.{AnswersAsIn, AnswersOnlyIf, IsOfAVersion, LeavesUnchanged};
ghost use Rattle.deploy_tables.specs.Releases.{IsVersion, FindsVersion};

use crate::listings::VersionRow;
use broker_core::command::Version;
use sqlite::{Alter, Connection, params};
use std::alloc::Global;
use table_access::{StoreFault, list_of};

/// The versions of this number: one, or none.
fn versions_numbered<S: Alter>(
    alloc: Global,
    conn: &mut Connection<S>,
    number: u32,
) -> Result<Vec<Version>, StoreFault>
    ensures answers { LooksUp S.Store conn.old conn.new result
        (λ found s. (w : VersionModel) → Contains found.items w ↔ (number_of s.versions w ≡ Some number)) }
    ensures named { AnswersAsIn S.Store conn.old conn.new result
        (λ found db. (0 < length found.items) ↔ IsOfAVersion db (Int (pos number))) }
    ensures stays { LeavesUnchanged S.Store conn.old conn.new result }
{
    list_of::<VersionRow, S>(
        alloc,
        conn,
        "SELECT pacticipant, version FROM versions WHERE number = ?1",
        params![number],
    )
}

/// The version of this number, or `None` if no version has it: in any database with the broker's tables if and only if no
/// row of the versions has the number.
///
/// # Errors
/// `StoreFault::Memory` if the database is out of memory, or there is none for the names; `StoreFault::Store` if it
/// refused the query, or if the row doesn't read.
pub(crate) fn find_version<S: Alter>(
    alloc: Global,
    conn: &mut Connection<S>,
    number: u32,
) -> Result<Option<Version>, StoreFault>
    ensures answers { LooksUp S.Store conn.old conn.new result (FindsVersion number) }
    ensures named { AnswersAsIn S.Store conn.old conn.new result
        (λ found db. IsSome found ↔ IsOfAVersion db (Int (pos number))) }
    ensures stays { LeavesUnchanged S.Store conn.old conn.new result }
{
    let mut found = done!(versions_numbered(alloc, conn, number));
    Ok(found.pop())
}

/// The version of this number, which a row names. An answer comes only if a row of the versions has this number.
///
/// # Errors
/// `StoreFault::Store` if there is none: the row names a version that isn't there.
pub(crate) fn version_numbered<S: Alter>(
    alloc: Global,
    conn: &mut Connection<S>,
    number: u32,
) -> Result<Version, StoreFault>
    ensures answers { Queries S.Store conn.old conn.new result (λ found s. number_of s.versions found ≡ Some number) }
    ensures failure { FailsByStoreFrom S.Store conn.old conn.new result (IsVersion number) }
    ensures named { AnswersOnlyIf S.Store conn.old conn.new result (λ db. IsOfAVersion db (Int (pos number))) }
{
    match done!(find_version(alloc, conn, number)) {
        Some(version) => Ok(version),
        None => Err(StoreFault::Store),
    }
}
