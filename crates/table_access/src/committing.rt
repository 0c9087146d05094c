//! COMMIT, and that it was refused.

ghost use Rattle.std.specs.Prelude.{◌≡◌, IsTrue, IfErr, OnOk, OnErr};
ghost use Rattle.sqlite.specs.State.{HasCleanDisk, Commits, Survives};
ghost use Rattle.sqlite.specs.Held.{state};
ghost use Rattle.table_access.specs.Unit.{IsLeft, FailsToCommit};

use crate::{StoreFault, fault_of};
use sqlite::{Alter, Connection};
use std::marker::Model;

/// A COMMIT that the database refused. Only the call that runs COMMIT makes one, and only if the database answers it
/// with an error: so who has one in hand has had COMMIT tried. A contract sees the fault by which it was refused.
#[derive(Drop)]
pub struct CommitRefused {
    fault: StoreFault,
}

impl Model for CommitRefused {
    ghost use Rattle.table_access.specs.declared.StoreFault.{StoreFault as Fault};

    ghost Value = { Fault };

    ghost view = { λ refusal. refusal.fault };
}

/// Runs COMMIT. If it is refused, the transaction is rolled back, or there was none.
pub(crate) fn run_commit<S: Alter>(conn: &mut Connection<S>) -> Result<(), CommitRefused>
    ensures done { HasCleanDisk (state S.Store conn.new) →
        OnOk result (IsTrue (state S.Store conn.old).in_transaction
        × Commits (state S.Store conn.old) (state S.Store conn.new)) }
    ensures refused { HasCleanDisk (state S.Store conn.new) →
        OnErr result (IsLeft (state S.Store conn.old) (state S.Store conn.new)) }
    ensures cause { HasCleanDisk (state S.Store conn.new) →
        IfErr result (FailsToCommit (state S.Store conn.old) (state S.Store conn.new)) }
    ensures survives { Survives (state S.Store conn.old) (state S.Store conn.new)
        (λ db. db ≡ (state S.Store conn.old).now.trees) }
{
    match conn.execute("COMMIT", &[]) {
        Ok(_) => Ok(()),
        Err(error) => Err(CommitRefused {
            fault: fault_of(error),
        }),
    }
}
