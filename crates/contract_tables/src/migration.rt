//! The tables of a broker of format 1, as they become today's.
ghost use Rattle.table_access.specs.Calls.{CallsStore};
ghost use Rattle.broker_core.specs.State.{State as Broker};
ghost use Rattle.broker_tables.specs.Making.{FailsByStoreOver};
ghost use Rattle.broker_tables.specs.Format1.{HoldsFormat1};
ghost use Rattle.contract_tables.specs.CheckedTable.{GetsCheckedTable};

use crate::making::make_checked_results;
use sqlite::{Alter, Connection};
use table_access::StoreFault;

/// Makes the table of checked results in a database of format 1, without rows: each result that is there is a claim of
/// its sender. All other tables keep their rows.
///
/// # Errors
/// `StoreFault::Memory` if the database is out of memory; `StoreFault::Store` if it refused the table,
/// which of a database of format 1 that holds a state is only if the store failed.
pub fn to_format_2<S: Alter>(conn: &mut Connection<S>) -> Result<(), StoreFault>
    ensures makes { CallsStore S.Store conn.old conn.new result
        (λ _ old new. GetsCheckedTable old.now new.now) }
    ensures failure { FailsByStoreOver S.Store conn.old conn.new result (λ db. (s : Broker) × HoldsFormat1 db s) }
{
    make_checked_results(conn)
}
