//! The one row of the broker itself.
ghost use Rattle.std.specs.Prelude.{◌≡◌, ◌↔◌, [], IsTrue, codes, string_bytes};
ghost use Rattle.sqlite.specs.Held.{state};
ghost use Rattle.broker_tables.specs.Schema.{no_schema};
ghost use Rattle.table_access.specs.Calls.{ReportsMemory};
ghost use Rattle.broker_tables.specs.Holds.{IsBroker};
ghost use Rattle.broker_tables.specs.Failures.{LooksUp};
ghost use Rattle.broker_tables.specs.Rows.{rows_of};

use sqlite::{Alter, Connection};
use table_access::{StoreFault, find_text};

/// The digest of the office's token.
///
/// # Errors
/// `StoreFault::Memory` if the database is out of memory, or there is no room for the digest; `StoreFault::Store` if it
/// refused the query or has no such row.
pub fn office_digest<S: Alter>(conn: &mut Connection<S>) -> Result<String, StoreFault>
    ensures reads { LooksUp S.Store conn.old conn.new result (λ digest s. string_bytes digest ≡ s.office) }
    ensures memory { IsBroker (state S.Store conn.old).now →
        rows_of (state S.Store conn.old).now (codes "meta") ≡ [] →
        ReportsMemory (state S.Store conn.old) (state S.Store conn.new) result }
{
    match done!(find_text(conn, "SELECT office_digest FROM meta", &[])) {
        Some(digest) => Ok(digest),
        None => Err(StoreFault::Store),
    }
}

/// Whether the database has no table, no index and no view.
pub fn is_blank<S: Alter>(conn: &Connection<S>) -> bool
    ensures { IsTrue result ↔ ((state S.Store conn.now).now.schema ≡ no_schema) }
{
    let schema = conn.schema();
    schema.tables.is_empty() && schema.indexes.is_empty() && schema.views.is_empty()
}
