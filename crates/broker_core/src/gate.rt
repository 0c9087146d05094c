//! The gate's judgement of needs.
ghost use Rattle.std.specs.Prelude.{◌≡◌, IfOk, IsOk, filter_map};
ghost use Rattle.broker_core.specs.Listing.{Lists};
ghost use Rattle.broker_core.specs.Faults.{fault_cmp, fault_of, AreGood, IsFaultAmong};

use crate::need::{Need, PairFault};
use std::alloc::{AllocError, Global};

/// The faults of the needs, in the order of the needs.
fn faults_of(alloc: Global, needs: &[Need], strict: bool) -> Result<Vec<PairFault>, AllocError>
    ensures faults { IfOk result (λ faults. faults.items ≡ filter_map (fault_of strict) needs.now) }
    ensures good { AreGood strict needs.now → IsOk result }
{
    let mut faults = Vec::new(alloc);
    for need in needs {
        if let Some(fault) = need.fault(strict)? {
            faults.push(fault)?;
        }
    }
    Ok(faults)
}

/// The fault of each need that isn't good, once, in the order of faults. A strict environment takes only checked
/// results.
///
/// The error means out of memory. It doesn't come if every need is good: such needs take no memory.
pub fn decide(alloc: Global, needs: &[Need], strict: bool) -> Result<Vec<PairFault>, AllocError>
    ensures faults { IfOk result (λ faults. Lists fault_cmp (IsFaultAmong strict needs.now) faults.items) }
    ensures good { AreGood strict needs.now → IsOk result }
{
    let mut faults = faults_of(alloc, needs, strict)?;
    faults.sort_unstable();
    faults.dedup();
    Ok(faults)
}
