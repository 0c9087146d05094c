//! A stream that is served over a slice.
ghost use Rattle.std.specs.Prelude.{IfOk};
ghost use Rattle.sqlite.specs.Held.{state};
ghost use Rattle.worked_examples.specs.Streams.{IsAnswered};

use broker_http::{RouteTable, StreamFault, serve_stream};
use broker_service::Broker;
use sqlite::Alter;
use std::alloc::Global;

/// What a broker answers to the requests in these bytes. A fault leaves some of them answered, and their answers are
/// lost. One table of routes serves all calls.
pub fn answers<S: Alter>(
    alloc: Global,
    routes: &RouteTable,
    broker: &mut Broker<S>,
    requests: &[u8],
) -> Result<Vec<u8>, StreamFault>
    ensures { IfOk result (λ out. IsAnswered (state S.Store) broker.old requests.now out.items broker.new) }
{
    let mut reader = requests;
    let mut answers = Vec::new(alloc);
    serve_stream(alloc, routes, broker, &mut reader, &mut answers)?;
    Ok(answers)
}
