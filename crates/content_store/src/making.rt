//! The table as a new broker makes it.
#![tactic(auto, unfolding(sqlite_tied::specs::Compute::everything))]

ghost use Rattle.std.specs.Prelude.{◌≡◌, ◌∷◌, []};
ghost use Rattle.table_access.specs.Calls.{CallsStore};
ghost use Rattle.table_access.specs.Statements.{Makes, Indexes};
ghost use Rattle.broker_tables.specs.Making.{HasShortKeys, FailsByStoreOver};
ghost use Rattle.broker_tables.specs.Schema.{registry_part, contents, schema_of, all_tables, contents_by_digest};

use broker_tables::create::{CONTENTS, CONTENTS_BY_DIGEST};
use broker_tables::make_each;
use sqlite::{Alter, Connection};
use table_access::StoreFault;

/// Makes the table of contents, without rows, after those of the registry. These keep their rows.
///
/// # Errors
/// `StoreFault::Memory` if the database is out of memory; `StoreFault::Store` if it refused the table.
pub fn make_tables<S: Alter>(conn: &mut Connection<S>) -> Result<(), StoreFault>
    ensures makes { CallsStore S.Store conn.old conn.new result
        (λ _ old new. old.now.schema ≡ schema_of registry_part →
        Makes (contents ∷ []) old.now new.now) }
    ensures failure { FailsByStoreOver S.Store conn.old conn.new result
        (λ db. db.schema ≡ schema_of registry_part) }
{
    make_each(conn, &[CONTENTS])
}

/// Makes the index of contents by their digest, once all tables are made. These keep their rows.
///
/// # Errors
/// `StoreFault::Memory` if the database is out of memory; `StoreFault::Store` if it refused the index.
pub fn make_index<S: Alter>(conn: &mut Connection<S>) -> Result<(), StoreFault>
    ensures makes { CallsStore S.Store conn.old conn.new result
        (λ _ old new. old.now.schema ≡ schema_of all_tables →
        Indexes old.now new.now
        contents_by_digest.0 contents_by_digest.1) }
    ensures failure { FailsByStoreOver S.Store conn.old conn.new result
        (λ db. (db.schema ≡ schema_of all_tables) × HasShortKeys db) }
{
    make_each(conn, &[CONTENTS_BY_DIGEST])
}
