//! The end of a transaction.
ghost use Rattle.std.specs.Prelude.{◌≡◌, false, IfErr};
ghost use Rattle.sqlite.specs.Held.{state};
ghost use Rattle.sqlite.specs.State.{HasCleanDisk};
ghost use Rattle.broker_database.specs.Transaction as spec;
ghost use Rattle.broker_database.specs.Transaction.{Concludes, EndsFor};

use sqlite::{Alter, Connection};
use table_access::{CommitRefused, StoreFault, commit, rollback};

/// Why a transaction isn't done.
#[derive(Drop)]
pub enum Failure {
    /// A call failed by this: BEGIN, one of its work, or ROLLBACK.
    Call(StoreFault),
    /// Its work was done, and then COMMIT was tried, and refused.
    Commit(CommitRefused),
}

impl Failure {
    /// The fault that is reported. A refused COMMIT is `Store`, for any fault that it was refused by.
    pub fn fault(&self) -> StoreFault
        ensures { result ≡ spec.fault_of self.now }
    {
        match self {
            Failure::Call(fault) => *fault,
            Failure::Commit(_) => StoreFault::Store,
        }
    }
}

/// The fault of a transaction whose rollback was refused by this one: it, or `Store`, if the work had failed by that.
fn worst<A>(worked: &Result<A, StoreFault>, refusal: StoreFault) -> StoreFault
    ensures { result ≡ spec.worst worked.now refusal }
{
    match worked {
        Err(StoreFault::Store) => StoreFault::Store,
        _ => refusal,
    }
}

/// The result of a work, its fault as that of a call.
fn called<A>(worked: Result<A, StoreFault>) -> Result<A, Failure>
    ensures { result ≡ spec.called worked }
{
    match worked {
        Ok(answer) => Ok(answer),
        Err(fault) => Err(Failure::Call(fault)),
    }
}

/// Ends the transaction of a work with this result, and keeps nothing of it. The answer is the result of the work, or
/// the fault of a refused rollback, which leaves what a done one leaves.
pub fn undo<S: Alter, A: Drop>(
    conn: &mut Connection<S>,
    worked: Result<A, StoreFault>,
) -> Result<A, StoreFault>
    ensures { Concludes (state S.Store conn.old) (state S.Store conn.new) false worked result }
{
    match rollback(conn) {
        Ok(()) => worked,
        Err(refusal) => Err(worst(&worked, refusal)),
    }
}

/// Ends the transaction of a work with this result: commits it if something is to be kept, and else rolls it back. The
/// answer is the result of the work, or the fault of a refused end. A refused commit keeps nothing, and a crash may
/// leave what was to be kept; a refused rollback leaves what a done one leaves.
pub fn conclude<S: Alter, A: Drop>(
    conn: &mut Connection<S>,
    worked: Result<A, StoreFault>,
    keeps: bool,
) -> Result<A, Failure>
    ensures concludes { Concludes (state S.Store conn.old) (state S.Store conn.new) keeps worked (spec.returned result) }
    ensures refused { HasCleanDisk (state S.Store conn.new) →
        IfErr result (EndsFor (state S.Store) keeps worked conn.old conn.new) }
{
    if !keeps {
        return called(undo(conn, worked));
    }
    match commit(conn) {
        Ok(()) => called(worked),
        Err(refusal) => Err(Failure::Commit(refusal)),
    }
}
