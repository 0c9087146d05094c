//! What is in an environment, listed.
ghost use Rattle.std.specs.Prelude.{◌≡◌, ◌↔◌, ℕ, List, IsTrue, Some, None, false};
ghost use Rattle.broker_core.specs.Listing.{Lists};
ghost use Rattle.broker_core.specs.Machine.{deployed_cmp, version_cmp};
ghost use Rattle.broker_core.specs.declared.command.Version.{Version as VersionModel};
ghost use Rattle.broker_tables.specs.Failures.{LooksUp, TakesNoMemoryIf};
ghost use Rattle.deploy_tables.specs.AnyThere.{AnswersOnlyIf, EachDeployedIsThere, EachReleasedIsThere, LeavesUnchanged};
ghost use Rattle.deploy_tables.specs.Listings.{IsDeployedRow, IsReleasedRow, ReadsAsDeployed, ReadsAsReleased, FailsAsDeployed, FailsAsReleased};

use broker_core::answer::DeployedItem;
use broker_core::command::Version;
use broker_names::name::Text;
use broker_tables::{has_name, name_in, text_in};
use sqlite::{Alter, Connection, Row, params};
use std::alloc::Global;
use table_access::{ReadRow, StoreFault, list_of, text_at};

/// Whether the row has a pacticipant, an instance and a version. No memory is taken.
fn reads_as_deployed(row: &Row) -> bool
    ensures { IsTrue result ↔ ReadsAsDeployed row.now }
{
    has_name(row, 0) && text_at(row, 1).is_some() && has_name(row, 2)
}

/// A pacticipant, an instance and a version. They are looked at before memory is taken.
struct DeployedRow;

impl ReadRow for DeployedRow {
    type Item = DeployedItem;

    ghost reads_as = { IsDeployedRow };

    ghost fails_as = { FailsAsDeployed };

    fn read(alloc: Global, row: &Row) -> Result<DeployedItem, StoreFault> {
        if !reads_as_deployed(row) {
            return Err(StoreFault::Store);
        }
        let pacticipant = name_in(alloc, row, 0)?;
        let instance = text_in(alloc, row, 1)?;
        let version = name_in(alloc, row, 2)?;
        Ok(DeployedItem {
            pacticipant,
            instance: Text::new(instance),
            version,
        })
    }
}

/// Whether the row has a pacticipant and a version. No memory is taken.
fn reads_as_released(row: &Row) -> bool
    ensures { IsTrue result ↔ ReadsAsReleased row.now }
{
    has_name(row, 0) && has_name(row, 1)
}

/// A pacticipant and a version. Both are looked at before memory is taken.
pub(crate) struct VersionRow;

impl ReadRow for VersionRow {
    type Item = Version;

    ghost reads_as = { IsReleasedRow };

    ghost fails_as = { FailsAsReleased };

    fn read(alloc: Global, row: &Row) -> Result<Version, StoreFault> {
        if !reads_as_released(row) {
            return Err(StoreFault::Store);
        }
        let pacticipant = name_in(alloc, row, 0)?;
        let name = name_in(alloc, row, 1)?;
        Ok(Version { pacticipant, name })
    }
}

/// What is deployed in the environment, each once, in the order of pacticipants and instances. A row of it that
/// names no version is never left out, with any CHECKs and references in the tables. What they hold stays.
///
/// # Errors
/// `StoreFault::Memory` if the database is out of memory, or there is none for the answer; `StoreFault::Store` if it
/// refused the query, or if a row holds a text that is no name, or names no version.
pub fn deployed<S: Alter>(
    alloc: Global,
    conn: &mut Connection<S>,
    environment: &str,
) -> Result<Vec<DeployedItem>, StoreFault>
    ensures answers { LooksUp S.Store conn.old conn.new result
        (λ items s. Lists deployed_cmp
        (λ x. s.deployed (environment.now, x.pacticipant, x.instance) ≡ Some x.version) items.items) }
    ensures named { AnswersOnlyIf S.Store conn.old conn.new result (EachDeployedIsThere environment.now) }
    ensures stays { LeavesUnchanged S.Store conn.old conn.new result }
    ensures missing { TakesNoMemoryIf S.Store conn.old conn.new result
        (λ s. (p i : List ℕ) → s.deployed (environment.now, p, i) ≡ None) }
{
    list_of::<DeployedRow, S>(
        alloc,
        conn,
        "SELECT d.pacticipant, d.instance, v.version FROM deployed d LEFT JOIN versions v ON v.number = d.version_number WHERE d.environment = ?1 ORDER BY d.pacticipant, d.instance",
        params![environment],
    )
}

/// The versions that are released in the environment, each once, in the order of pacticipants and versions. A row
/// of it that names no version is never left out, with any CHECKs and references in the tables.
///
/// # Errors
/// `StoreFault::Memory` if the database is out of memory, or there is none for the answer; `StoreFault::Store` if it
/// refused the query, or if a row holds a text that is no name, or names no version.
pub fn released<S: Alter>(
    alloc: Global,
    conn: &mut Connection<S>,
    environment: &str,
) -> Result<Vec<Version>, StoreFault>
    ensures answers { LooksUp S.Store conn.old conn.new result
        (λ items s. Lists version_cmp (λ v. IsTrue (s.released (environment.now, v))) items.items) }
    ensures named { AnswersOnlyIf S.Store conn.old conn.new result (EachReleasedIsThere environment.now) }
    ensures missing { TakesNoMemoryIf S.Store conn.old conn.new result
        (λ s. (v : VersionModel) → s.released (environment.now, v) ≡ false) }
{
    list_of::<VersionRow, S>(
        alloc,
        conn,
        "SELECT v.pacticipant, v.version FROM released r LEFT JOIN versions v ON v.number = r.version_number WHERE r.environment = ?1 ORDER BY v.pacticipant, v.version",
        params![environment],
    )
}
