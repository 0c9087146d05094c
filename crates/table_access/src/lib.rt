//! Statements on the tables of a database, and the transaction round them.
//!
//! The crate knows SQL and no table: a caller gives the text, and its contract says what the text does under the schema
//! that is there. Each call on tables leaves the same promise, `CallsTables`: what it answers, that it commits nothing,
//! how it fails, and that a crash leaves what it left before; one that takes no memory of its own leaves `CallsStore`,
//! by which only the store is ever out of memory.
#![tactic(auto)]

ghost use Rattle.std.specs.Prelude.{◌≡◌, ◌⊎◌, ℕ, Ok, Err, [], IsTrue, IfErr, OnOk, OnErr, codes};
ghost use Rattle.sqlite.specs.State.{HasCleanDisk, Commits, IsUnchanged, IsRolledBack, Survives, IsLive, Executes, Shown};
ghost use Rattle.sqlite.specs.Held.{state};
ghost use Rattle.sqlite.specs.Values.{bound};
ghost use Rattle.sqlite_resolve.specs.Compile.{first};
ghost use Rattle.table_access.specs.Unit.{Begins, IsLeft, IsOver, FailsToBegin, RollsBack, FailsToRollBack, ReportsRollback, RefusesCommit};
ghost use Rattle.table_access.specs.Calls.{KeepsLastCommit, CallsStore, FailsToRun};
ghost use Rattle.table_access.specs.Calls as spec;
ghost use Rattle.table_access.specs.Reading.{IsRefusedAs};
ghost use Rattle.table_access.specs.Writes.{IsWriteText};

use committing::run_commit;
use sqlite::types::ValueRef;
use sqlite::{Alter, Connection, Error, ErrorCode, Row};

/// Gives what a call on the tables answers. Its failure is the failure of the function in which this is, and nothing
/// more is done there. After it a proof knows what it knows in the arms of the match.
macro_rules! done {
    ($call:expr) => {
        match $call {
            Ok(value) => value,
            Err(fault) => return Err(fault),
        }
    };
}

mod committing;
mod counted;
mod rows;

pub use committing::CommitRefused;
pub use counted::change_counted;
pub use rows::{
    NumberRow, ReadRow, find_number, find_text, has_row, list_of, number_at, number_in, text_at,
};

/// Why a call on the tables failed.
#[derive(Clone, Copy, Debug, PartialEq, Eq, thiserror::Error)]
pub enum StoreFault {
    /// The database is out of memory, or an allocation failed.
    #[error("out of memory")]
    Memory,
    /// The database refused for any other cause, or a row was met that breaks the rules of its table.
    #[error("the store failed")]
    Store,
}

/// The fault of an error of the database: `Memory` if it is out of memory, `Store` for each other.
fn fault_of(error: Error) -> StoreFault
    ensures { result ≡ spec.fault_of error }
{
    match error {
        Error::SqliteFailure(ErrorCode::OutOfMemory) => StoreFault::Memory,
        _ => StoreFault::Store,
    }
}

impl From<Error> for StoreFault {
    ghost from_gives = { λ e f. f ≡ spec.fault_of e };

    fn from(error: Error) -> StoreFault {
        fault_of(error)
    }
}

/// Runs BEGIN.
fn run_begin<S: Alter>(conn: &mut Connection<S>) -> Result<usize, Error>
    ensures begun { HasCleanDisk (state S.Store conn.new) →
        OnOk result (Begins (state S.Store conn.old) (state S.Store conn.new)) }
    ensures refused { HasCleanDisk (state S.Store conn.new) →
        OnErr result (IsLeft (state S.Store conn.old) (state S.Store conn.new)) }
    ensures cause { HasCleanDisk (state S.Store conn.new) →
        IfErr result (λ e. FailsToBegin (state S.Store conn.old) (state S.Store conn.new) (spec.fault_of e)) }
    ensures survives { Survives (state S.Store conn.old) (state S.Store conn.new) (λ _. ⊥) }
{
    conn.execute("BEGIN", &[])
}

/// Runs ROLLBACK. Within a transaction it is refused only if the store failed, which ended the transaction.
fn run_rollback<S: Alter>(conn: &mut Connection<S>) -> Result<usize, Error>
    ensures undone { HasCleanDisk (state S.Store conn.new) →
        OnOk result (RollsBack (state S.Store conn.old) (state S.Store conn.new)) }
    ensures cause { HasCleanDisk (state S.Store conn.new) → IsTrue (state S.Store conn.old).in_transaction →
        IfErr result (λ e. FailsToRollBack (state S.Store conn.old) (state S.Store conn.new) (spec.fault_of e)) }
    ensures survives { Survives (state S.Store conn.old) (state S.Store conn.new) (λ _. ⊥) }
{
    conn.execute("ROLLBACK", &[])
}

/// Begins a transaction, if none is open. After an error none is begun, and what is committed is as it was.
pub fn begin<S: Alter>(conn: &mut Connection<S>) -> Result<(), StoreFault>
    ensures begun { HasCleanDisk (state S.Store conn.new) →
        OnOk result (Begins (state S.Store conn.old) (state S.Store conn.new)) }
    ensures refused { HasCleanDisk (state S.Store conn.new) →
        OnErr result (IsLeft (state S.Store conn.old) (state S.Store conn.new)) }
    ensures cause { HasCleanDisk (state S.Store conn.new) →
        IfErr result (FailsToBegin (state S.Store conn.old) (state S.Store conn.new)) }
    ensures survives { Survives (state S.Store conn.old) (state S.Store conn.new) (λ _. ⊥) }
{
    match run_begin(conn) {
        Ok(_) => Ok(()),
        Err(error) => Err(fault_of(error)),
    }
}

/// Ends the transaction without committing. What is committed stays as it was, and no transaction is open any more.
///
/// An error comes only if the database refused ROLLBACK, since the store failed; that ended the transaction too. If an
/// earlier failure has ended it already, nothing is left to do, and the answer is `Ok`.
pub fn rollback<S: Alter>(conn: &mut Connection<S>) -> Result<(), StoreFault>
    ensures over { HasCleanDisk (state S.Store conn.new) → IsOver (state S.Store conn.new) }
    ensures commit { HasCleanDisk (state S.Store conn.new) →
        KeepsLastCommit (state S.Store conn.old) (state S.Store conn.new) }
    ensures reports { HasCleanDisk (state S.Store conn.new) →
        ReportsRollback (state S.Store conn.old) (state S.Store conn.new) result }
    ensures survives { Survives (state S.Store conn.old) (state S.Store conn.new) (λ _. ⊥) }
{
    if conn.is_autocommit() {
        return Ok(());
    }
    match run_rollback(conn) {
        Ok(_) => Ok(()),
        Err(refusal) => Err(fault_of(refusal)),
    }
}

/// Commits the transaction. If that was refused, the transaction is rolled back, and what was committed before stays
/// while the connection is open; if a fault of the disk shut it, a crash may leave either. An error is the refusal of a
/// COMMIT that was run, or else of one that found no transaction.
pub fn commit<S: Alter>(conn: &mut Connection<S>) -> Result<(), CommitRefused>
    ensures live { IsLive (state S.Store conn.old) }
    ensures done { HasCleanDisk (state S.Store conn.new) →
        OnOk result (Commits (state S.Store conn.old) (state S.Store conn.new)) }
    ensures refused { HasCleanDisk (state S.Store conn.new) →
        IfErr result (λ fault. KeepsLastCommit (state S.Store conn.old) (state S.Store conn.new)
        × IsOver (state S.Store conn.new) × RefusesCommit (state S.Store) conn.old conn.new fault) }
    ensures survives { Survives (state S.Store conn.old) (state S.Store conn.new)
        (λ db. db ≡ (state S.Store conn.old).now.trees) }
{
    // Read for the proof: `schema` says that what an open connection shows is a database (the clause `live`).
    let _schema = conn.schema();
    match run_commit(conn) {
        Ok(()) => Ok(()),
        Err(refusal) => {
            let _ = rollback(conn);
            Err(refusal)
        },
    }
}

/// Runs a statement that writes rows or makes a table or an index, in a transaction.
/// After an error the caller ends the transaction: a failure for memory or the disk has ended it already.
pub fn change<S: Alter>(
    conn: &mut Connection<S>,
    sql: &str,
    params: &[ValueRef<'_>],
) -> Result<(), StoreFault>
    requires { IsWriteText (first sql.now) }
    ensures leaves { CallsStore S.Store conn.old conn.new result
        (λ _ old new. (count : ℕ)
        × Executes sql.now (bound params.now) old new (Ok count)) }
    ensures cause { HasCleanDisk (state S.Store conn.new) →
        IfErr result (FailsToRun sql.now (bound params.now) (state S.Store conn.old) (state S.Store conn.new)) }
{
    done!(change_counted(conn, sql, params));
    Ok(())
}

/// The rows that a query shows, in its order.
pub fn select<S: Alter>(
    conn: &mut Connection<S>,
    sql: &str,
    params: &[ValueRef<'_>],
) -> Result<Vec<Row>, StoreFault>
    ensures leaves { CallsStore S.Store conn.old conn.new result
        (λ rows old new. Shown sql.now (bound params.now) old new rows.items) }
    ensures cause { HasCleanDisk (state S.Store conn.new) →
        IfErr result (IsRefusedAs sql.now (bound params.now) (state S.Store conn.old) (state S.Store conn.new)) }
{
    match conn.query_all(sql, params) {
        Ok(rows) => Ok(rows),
        Err(error) => Err(fault_of(error)),
    }
}
