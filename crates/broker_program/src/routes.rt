//! The table of routes.
ghost use Rattle.std.specs.Prelude.{◌≡◌, IfErr};

use broker_http::RouteTable;
use program_io::fault::RunFault;
use std::alloc::Global;

/// The table of routes, which serves for all streams.
pub(crate) fn route_table(alloc: Global) -> Result<RouteTable, RunFault>
    ensures { IfErr result (λ fault. fault ≡ RunFault.Memory) }
{
    match RouteTable::new(alloc) {
        Ok(routes) => Ok(routes),
        Err(_) => Err(RunFault::Memory),
    }
}
