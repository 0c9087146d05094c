//! The gate.
ghost use Rattle.std.specs.Prelude.{◌≡◌, ◌==◌, ◌||◌, length, not};
ghost use Rattle.broker_tables.specs.Failures.{LooksUp};
ghost use Rattle.environment_commands.specs.Effects.{GateSays};

use crate::places::Admitted;
use broker_core::command::{Marks, Version};
use broker_core::need::PairFault;
use broker_names::name::Name;
use deploy_tables::faults;
use sqlite::{Alter, Connection};
use std::alloc::Global;
use table_access::StoreFault;

/// Whether an environment with these marks permits a version with these faults: none, or they don't count if the
/// environment isn't gated.
fn permits(marks: Marks, faults: &[PairFault]) -> bool
    ensures { result ≡ not marks.gated || length faults.now == 0 }
{
    !marks.gated || faults.is_empty()
}

/// Asks the gate for a version and an environment that are there: whether the version is permitted,
/// and all its faults.
pub(crate) fn gate_verdict<S: Alter>(
    alloc: Global,
    conn: &mut Connection<S>,
    environment: &Name,
    version: &Version,
    place: Admitted,
) -> Result<(bool, Vec<PairFault>), StoreFault>
    ensures { LooksUp S.Store conn.old conn.new result
        (λ judged s. GateSays environment.now version.now place judged.0 judged.1.items s) }
{
    let strict = place.marks.strict;
    let faults = done!(faults(
        alloc,
        conn,
        place.number,
        version,
        environment.as_str(),
        strict
    ));
    Ok((permits(place.marks, &faults), faults))
}
