//! The tables as a new broker makes them.
#![tactic(auto, unfolding(sqlite_tied::specs::Compute::everything))]

ghost use Rattle.std.specs.Prelude.{◌≡◌, ◌++◌, ◌∷◌, []};
ghost use Rattle.table_access.specs.Calls.{CallsStore};
ghost use Rattle.table_access.specs.Statements.{Creates, Makes, Indexes, indexed_by};
ghost use Rattle.broker_tables.specs.Making.{IsBlank, HasTables, HasShortKeys, FailsByStoreOver};
ghost use Rattle.broker_tables.specs.ChangeRefusals.{AreShort};
ghost use Rattle.broker_tables.specs.Schema.{registry_part, contract_part, deploy_part, schema_of, contents, checked_results, strict_environments, all_tables, contents_by_digest, contract_indexes, versions_by_pacticipant};
ghost use Rattle.registry_tables.specs.Registry.{HasEmptyRegistry, PutsMeta};

use broker_tables::create::{
    BRANCHES, ENVIRONMENTS, GRANTS, META, PACTICIPANTS, STRICT_ENVIRONMENTS, TEAMS, VERSIONS,
    VERSIONS_BY_PACTICIPANT,
};
use broker_tables::make_each;
use sqlite::{Alter, Connection, params};
use table_access::{StoreFault, change};

/// Makes the tables of the registry in a database without tables: meta with its one row, which has the format and the
/// digest of the office's token, and those of teams, pacticipants, versions, branches, environments and grants, without
/// rows.
///
/// # Errors
/// `StoreFault::Memory` if the database is out of memory; `StoreFault::Store` if it refused a table or the row.
pub fn make_tables<S: Alter>(
    conn: &mut Connection<S>,
    format: u32,
    digest: &str,
) -> Result<(), StoreFault>
    ensures makes { CallsStore S.Store conn.old conn.new result
        (λ _ old new. IsBlank old.now →
        HasTables registry_part format digest.now new.now) }
    ensures failure { FailsByStoreOver S.Store conn.old conn.new result (λ db. IsBlank db × AreShort (digest.now ∷ [])) }
{
    done!(make_registry(conn));
    put_meta(conn, format, digest)
}

/// Makes the tables of the registry, without rows.
fn make_registry<S: Alter>(conn: &mut Connection<S>) -> Result<(), StoreFault>
    ensures makes { CallsStore S.Store conn.old conn.new result
        (λ _ old new. old.now.schema ≡ schema_of [] →
        Makes registry_part old.now new.now) }
    ensures failure { FailsByStoreOver S.Store conn.old conn.new result
        (λ db. db.schema ≡ schema_of []) }
{
    make_each(
        conn,
        &[
            META,
            TEAMS,
            PACTICIPANTS,
            VERSIONS,
            BRANCHES,
            ENVIRONMENTS,
            GRANTS,
        ],
    )
}

/// Makes the table of strict environments, without rows, after all others, which keep their rows.
///
/// # Errors
/// `StoreFault::Memory` if the database is out of memory; `StoreFault::Store` if it refused the table.
pub fn make_strict_environments<S: Alter>(conn: &mut Connection<S>) -> Result<(), StoreFault>
    ensures makes { CallsStore S.Store conn.old conn.new result
        (λ _ old new. old.now.schema
        ≡ schema_of (registry_part ++ contents ∷ contract_part ++ deploy_part ++ checked_results ∷ []) →
        Creates old.now new.now strict_environments) }
    ensures failure { FailsByStoreOver S.Store conn.old conn.new result
        (λ db. db.schema
        ≡ schema_of (registry_part ++ contents ∷ contract_part ++ deploy_part ++ checked_results ∷ [])) }
{
    make_each(conn, &[STRICT_ENVIRONMENTS])
}

/// Makes the index of versions by their pacticipant and number, once all tables and the other indexes are made. All
/// tables keep their rows.
///
/// # Errors
/// `StoreFault::Memory` if the database is out of memory; `StoreFault::Store` if it refused the index.
pub fn make_index<S: Alter>(conn: &mut Connection<S>) -> Result<(), StoreFault>
    ensures makes { CallsStore S.Store conn.old conn.new result
        (λ _ old new. old.now.schema
        ≡ indexed_by (schema_of all_tables) (contents_by_digest ∷ contract_indexes) →
        Indexes old.now new.now
        versions_by_pacticipant.0 versions_by_pacticipant.1) }
    ensures failure { FailsByStoreOver S.Store conn.old conn.new result
        (λ db. (db.schema ≡ indexed_by (schema_of all_tables) (contents_by_digest ∷ contract_indexes))
        × HasShortKeys db) }
{
    make_each(conn, &[VERSIONS_BY_PACTICIPANT])
}

/// Puts in the one row of meta.
fn put_meta<S: Alter>(conn: &mut Connection<S>, format: u32, digest: &str) -> Result<(), StoreFault>
    ensures puts { CallsStore S.Store conn.old conn.new result (λ _ old new. PutsMeta format digest.now old.now new.now) }
    ensures failure { FailsByStoreOver S.Store conn.old conn.new result
        (λ db. HasEmptyRegistry db × AreShort (digest.now ∷ [])) }
{
    change(
        conn,
        "INSERT INTO meta (one, format, office_digest) VALUES (1, ?1, ?2)",
        params![format, digest],
    )
}
