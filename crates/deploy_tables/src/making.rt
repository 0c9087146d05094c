//! The tables as a new broker makes them.
#![tactic(auto, unfolding(sqlite_tied::specs::Compute::everything))]

ghost use Rattle.std.specs.Prelude.{◌≡◌, ◌++◌, ◌∷◌};
ghost use Rattle.table_access.specs.Calls.{CallsStore};
ghost use Rattle.table_access.specs.Statements.{Makes};
ghost use Rattle.broker_tables.specs.Making.{FailsByStoreOver};
ghost use Rattle.broker_tables.specs.Schema.{registry_part, contents, contract_part, deploy_part, schema_of};

use broker_tables::create::{DEPLOYED, RELEASED};
use broker_tables::make_each;
use sqlite::{Alter, Connection};
use table_access::StoreFault;

/// Makes the tables of what is deployed and released, without rows, after those of the registry, contents and
/// contracts. These keep their rows.
///
/// # Errors
/// `StoreFault::Memory` if the database is out of memory; `StoreFault::Store` if it refused a table.
pub fn make_tables<S: Alter>(conn: &mut Connection<S>) -> Result<(), StoreFault>
    ensures makes { CallsStore S.Store conn.old conn.new result
        (λ _ old new. old.now.schema ≡ schema_of (registry_part ++ contents ∷ contract_part) →
        Makes deploy_part old.now new.now) }
    ensures failure { FailsByStoreOver S.Store conn.old conn.new result
        (λ db. db.schema ≡ schema_of (registry_part ++ contents ∷ contract_part)) }
{
    make_each(conn, &[DEPLOYED, RELEASED])
}
