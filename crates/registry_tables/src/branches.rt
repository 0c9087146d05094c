//! The branches that versions are on.
ghost use Rattle.std.specs.Prelude.{◌≡◌, ℕ, [], ◌∷◌, codes, Some, false};
ghost use Rattle.std.specs.Ordering.{nat_cmp, flip_args};
ghost use Rattle.broker_core.specs.Listing.{Lists};
ghost use Rattle.broker_core.specs.declared.command.Version.{Version as VersionModel};
ghost use Rattle.broker_tables.specs.Numbers.{number_of};
ghost use Rattle.broker_tables.specs.Holds.{Changes};
ghost use Rattle.broker_tables.specs.Failures.{LooksUp, LooksUpInPlace, IfNoVersion, TakesNoMemoryIf};
ghost use Rattle.broker_tables.specs.ChangeRefusals.{FailsByStoreChange};
ghost use Rattle.registry_tables.specs.Registry.{AddsBranch, IsBranchNumber, IsNewestBelow};

use sqlite::{Alter, Connection, params};
use std::alloc::Global;
use table_access::{NumberRow, StoreFault, change, find_number, has_row, list_of};

/// Whether the version with this number is on the branch; none is that no version has.
///
/// # Errors
/// `StoreFault::Memory` if the database is out of memory; `StoreFault::Store` if it refused the query.
pub fn on_branch<S: Alter>(
    conn: &mut Connection<S>,
    number: u32,
    branch: &str,
) -> Result<bool, StoreFault>
    ensures answers { LooksUpInPlace S.Store conn.old conn.new result
        (λ has s. (v : VersionModel) → number_of s.versions v ≡ Some number →
        has ≡ s.branches (v, branch.now)) }
    ensures unknown { IfNoVersion S.Store conn.old conn.new result number (λ has. has ≡ false) }
{
    has_row(
        conn,
        "SELECT branch FROM branches WHERE version_number = ?1 AND branch = ?2",
        params![number, branch],
    )
}

/// Puts the version with this number on a branch that it isn't on.
///
/// # Errors
/// `StoreFault::Memory` if the database is out of memory; `StoreFault::Store` if it refused the row.
#[tactic(auto, unfolding(sqlite_tied::specs::Compute::everything))]
pub fn add_branch<S: Alter>(
    conn: &mut Connection<S>,
    number: u32,
    branch: &str,
) -> Result<(), StoreFault>
    ensures changes { Changes S.Store conn.old conn.new result (AddsBranch number branch.now) }
    ensures failure { FailsByStoreChange S.Store conn.old conn.new result (codes "branches" ∷ []) (branch.now ∷ [])
        (AddsBranch number branch.now) }
{
    change(
        conn,
        "INSERT INTO branches (version_number, branch) VALUES (?1, ?2)",
        params![number, branch],
    )
}

/// The numbers of the pacticipant's versions that are on the branch, each once, the greatest first.
///
/// # Errors
/// `StoreFault::Memory` if the database is out of memory, or there is none for the answer; `StoreFault::Store` if it
/// refused the query or holds no number there.
pub fn branch_numbers<S: Alter>(
    alloc: Global,
    conn: &mut Connection<S>,
    pacticipant: &str,
    branch: &str,
) -> Result<Vec<u32>, StoreFault>
    ensures answers { LooksUp S.Store conn.old conn.new result
        (λ numbers s. Lists (flip_args nat_cmp)
        (IsBranchNumber s pacticipant.now branch.now) numbers.items) }
    ensures missing { TakesNoMemoryIf S.Store conn.old conn.new result
        (λ s. (n : ℕ) → ¬ (IsBranchNumber s pacticipant.now branch.now n)) }
{
    list_of::<NumberRow, S>(
        alloc,
        conn,
        "SELECT v.number FROM versions v JOIN branches b ON b.version_number = v.number WHERE v.pacticipant = ?1 AND b.branch = ?2 ORDER BY v.number DESC",
        params![pacticipant, branch],
    )
}

/// The greatest number, below this one, of a version of the pacticipant that is on the branch, or `None` if there is
/// none.
///
/// # Errors
/// `StoreFault::Memory` if the database is out of memory; `StoreFault::Store` if it refused the query or holds no
/// number there.
pub fn branch_number_below<S: Alter>(
    conn: &mut Connection<S>,
    pacticipant: &str,
    branch: &str,
    below: u32,
) -> Result<Option<u32>, StoreFault>
    ensures { LooksUpInPlace S.Store conn.old conn.new result
        (λ found s. IsNewestBelow s pacticipant.now branch.now below found) }
{
    find_number(
        conn,
        "SELECT v.number FROM versions v JOIN branches b ON b.version_number = v.number WHERE v.pacticipant = ?1 AND b.branch = ?2 AND v.number < ?3 ORDER BY v.number DESC LIMIT 1",
        params![pacticipant, branch, below],
    )
}
