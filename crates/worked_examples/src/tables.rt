//! A broker's tables, asked and changed by a program of its own, in a transaction that it has opened.
ghost use Rattle.std.specs.Prelude.{◌≡◌, ◌↔◌, ◌∷◌, [], IsTrue, None, codes, true, false};
ghost use Rattle.broker_core.specs.declared.command.Version.{Version};
ghost use Rattle.broker_core.specs.Gate.{IsPresent};
ghost use Rattle.broker_tables.specs.Failures.{LooksUp};
ghost use Rattle.broker_tables.specs.Holds.{ChangesAndAnswers};
ghost use Rattle.broker_tables.specs.ChangeRefusals.{FailsByStoreStoring};
ghost use Rattle.contract_tables.specs.Verified.{AllowsNextResult, CanAddResult, RecordsResult, texts_of};
ghost use Rattle.worked_examples.specs.Tables.{IsAlone, IsVerified};

use broker_core::gate::decide;
use contract_tables::add_result;
use deploy_tables::{matrix, needs, standing};
use sqlite::{Alter, Connection};
use std::alloc::Global;
use table_access::StoreFault;

/// Whether no version is in the environment.
pub fn is_vacant<S: Alter>(
    alloc: Global,
    conn: &mut Connection<S>,
    environment: &str,
) -> Result<bool, StoreFault>
    ensures { LooksUp S.Store conn.old conn.new result
        (λ vacant s. IsTrue vacant ↔ ((v : Version) → ¬ (IsPresent s environment.now v))) }
{
    match standing(alloc, conn, environment) {
        Ok(there) => Ok(there.is_empty()),
        Err(fault) => Err(fault),
    }
}

/// Whether the matrix of the version of this number has no row: it has no contract, and no result for one.
pub fn is_alone<S: Alter>(
    alloc: Global,
    conn: &mut Connection<S>,
    number: u32,
) -> Result<bool, StoreFault>
    ensures { LooksUp S.Store conn.old conn.new result (λ alone s. IsAlone s number alone) }
{
    match matrix(alloc, conn, number) {
        Ok(rows) => Ok(rows.is_empty()),
        Err(fault) => Err(fault),
    }
}

/// Whether each need of the version of this number is good in the environment, if that is strict or not: a gate of its
/// own, which permits what the broker's permits.
pub fn is_verified<S: Alter>(
    alloc: Global,
    conn: &mut Connection<S>,
    number: u32,
    environment: &str,
    strict: bool,
) -> Result<bool, StoreFault>
    ensures { LooksUp S.Store conn.old conn.new result
        (λ verified s. IsVerified s number environment.now strict verified) }
{
    let needs = match needs(alloc, conn, number, environment) {
        Ok(needs) => needs,
        Err(fault) => return Err(fault),
    };
    match decide(alloc, &needs, strict) {
        Ok(faults) => Ok(faults.is_empty()),
        Err(_) => Err(StoreFault::Memory),
    }
}

/// Claims that a version of the provider keeps the contract of this content, and answers the number of the result, which
/// is the latest one for both.
pub fn claim_pass<S: Alter>(
    conn: &mut Connection<S>,
    content: u32,
    provider: &str,
    version_number: u32,
) -> Result<u32, StoreFault>
    ensures claimed { ChangesAndAnswers S.Store conn.old conn.new result
        (AllowsNextResult content provider.now version_number None)
        (λ number. RecordsResult number content provider.now version_number true false None) }
    ensures failure { FailsByStoreStoring S.Store conn.old conn.new result (codes "latest" ∷ []) (texts_of provider.now None)
        (CanAddResult content provider.now version_number None) }
{
    add_result(conn, content, provider, version_number, true, false, &None)
}
