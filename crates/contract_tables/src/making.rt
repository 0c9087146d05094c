//! The tables as a new broker makes them.
#![tactic(auto, unfolding(sqlite_tied::specs::Compute::everything))]

ghost use Rattle.std.specs.Prelude.{◌≡◌, ◌++◌, ◌∷◌, []};
ghost use Rattle.table_access.specs.Calls.{CallsStore};
ghost use Rattle.table_access.specs.Statements.{Creates, Makes, MakesIndexes, indexed_by};
ghost use Rattle.broker_tables.specs.Making.{HasShortKeys, FailsByStoreOver};
ghost use Rattle.broker_tables.specs.Schema.{registry_part, contents, contract_part, deploy_part, checked_results, schema_of, all_tables, contents_by_digest, contract_indexes};

use broker_tables::create::{
    CHECKED_RESULTS, CONTRACTS, CONTRACTS_BY_CONTENT, LATEST, LATEST_BY_PROVIDER_VERSION, RESULTS,
};
use broker_tables::make_each;
use sqlite::{Alter, Connection};
use table_access::StoreFault;

/// Makes the tables of contracts, results and latest results, without rows, after those of the registry and of
/// contents. These keep their rows.
///
/// # Errors
/// `StoreFault::Memory` if the database is out of memory; `StoreFault::Store` if it refused a table.
pub fn make_tables<S: Alter>(conn: &mut Connection<S>) -> Result<(), StoreFault>
    ensures makes { CallsStore S.Store conn.old conn.new result
        (λ _ old new. old.now.schema ≡ schema_of (registry_part ++ contents ∷ []) →
        Makes contract_part old.now new.now) }
    ensures failure { FailsByStoreOver S.Store conn.old conn.new result
        (λ db. db.schema ≡ schema_of (registry_part ++ contents ∷ [])) }
{
    make_each(conn, &[CONTRACTS, RESULTS, LATEST])
}

/// Makes the table of the results that the broker checked itself, without rows, after those of what is deployed and
/// released. All others keep their rows.
///
/// # Errors
/// `StoreFault::Memory` if the database is out of memory; `StoreFault::Store` if it refused the table.
pub fn make_checked_results<S: Alter>(conn: &mut Connection<S>) -> Result<(), StoreFault>
    ensures makes { CallsStore S.Store conn.old conn.new result
        (λ _ old new. old.now.schema
        ≡ schema_of (registry_part ++ contents ∷ contract_part ++ deploy_part) →
        Creates old.now new.now checked_results) }
    ensures failure { FailsByStoreOver S.Store conn.old conn.new result
        (λ db. db.schema ≡ schema_of (registry_part ++ contents ∷ contract_part ++ deploy_part)) }
{
    make_each(conn, &[CHECKED_RESULTS])
}

/// Makes the indexes of contracts by their content and of the latest results by the version that was verified, once all
/// tables and the index of contents are made. All tables keep their rows.
///
/// # Errors
/// `StoreFault::Memory` if the database is out of memory; `StoreFault::Store` if it refused an index.
pub fn make_indexes<S: Alter>(conn: &mut Connection<S>) -> Result<(), StoreFault>
    ensures makes { CallsStore S.Store conn.old conn.new result
        (λ _ old new. old.now.schema ≡ indexed_by (schema_of all_tables) (contents_by_digest ∷ []) →
        MakesIndexes contract_indexes old.now new.now) }
    ensures failure { FailsByStoreOver S.Store conn.old conn.new result
        (λ db. (db.schema ≡ indexed_by (schema_of all_tables) (contents_by_digest ∷ [])) × HasShortKeys db) }
{
    make_each(conn, &[CONTRACTS_BY_CONTENT, LATEST_BY_PROVIDER_VERSION])
}
