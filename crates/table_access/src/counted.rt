//! Changes that answer how many rows they met.

ghost use Rattle.std.specs.Prelude.{Ok, IfErr};
ghost use Rattle.sqlite.specs.State.{HasCleanDisk, Executes};
ghost use Rattle.sqlite.specs.Held.{state};
ghost use Rattle.sqlite.specs.Values.{bound};
ghost use Rattle.sqlite_resolve.specs.Compile.{first};
ghost use Rattle.table_access.specs.Calls.{CallsStore, FailsToRun};
ghost use Rattle.table_access.specs.Writes.{IsWriteText};

use crate::{StoreFault, fault_of};
use sqlite::types::ValueRef;
use sqlite::{Alter, Connection};

/// Runs a statement that writes rows, in a transaction, and answers how many it put in, changed or took out.
/// After an error the caller ends the transaction: a failure for memory or the disk has ended it already.
pub fn change_counted<S: Alter>(
    conn: &mut Connection<S>,
    sql: &str,
    params: &[ValueRef<'_>],
) -> Result<usize, StoreFault>
    requires { IsWriteText (first sql.now) }
    ensures leaves { CallsStore S.Store conn.old conn.new result
        (λ count old new. Executes sql.now (bound params.now) old new (Ok count)) }
    ensures cause { HasCleanDisk (state S.Store conn.new) →
        IfErr result (FailsToRun sql.now (bound params.now) (state S.Store conn.old) (state S.Store conn.new)) }
{
    match conn.execute(sql, params) {
        Ok(count) => Ok(count),
        Err(error) => Err(fault_of(error)),
    }
}
