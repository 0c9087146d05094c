//! Serving standard input over tables in memory.
ghost use Rattle.std.specs.Prelude.{◌≡◌, None, IfErr, IfOk, OnOk, OnErr};
ghost use Rattle.sqlite.specs.Held.{state};
ghost use Rattle.sqlite.specs.Steps.{over_memory};
ghost use Rattle.broker_names.specs.Name.{IsToken};
ghost use Rattle.broker_http.specs.Serving.{IsInMode, RunsReadable};
ghost use Rattle.broker_program.specs.Reasons.{EndsReplay, IsUnmade};
ghost use Rattle.broker_program.specs.Replays.{FailsToReplay, Replays, new_broker};

use crate::routes::route_table;
use broker_http::serve_stream;
use broker_names::name::Token;
use broker_service::Broker;
use command_facts::laws::readable_stays;
use program_io::fault::RunFault;
use program_io::forms::token_of;
use sqlite::{Connection, MemStore};
use std::alloc::Global;
use std::io::{Read, Write};

/// A new broker over tables in memory.
fn new_broker(alloc: Global, office: &Token) -> Result<Broker<MemStore>, RunFault>
    ensures holds { IfOk result (IsInMode (state over_memory) (new_broker office.now)) }
    ensures unlimited { IfOk result (λ broker. broker.connection.step_limit ≡ None) }
    ensures readable { RunsReadable (new_broker office.now) }
    ensures fails { IfErr result IsUnmade }
{
    readable_stays();
    match Connection::open_in_memory(alloc) {
        Ok(connection) => match Broker::create(alloc, connection, office) {
            Ok(broker) => Ok(broker),
            Err(refused) => Err(RunFault::Open(refused.fault)),
        },
        Err(_) => Err(RunFault::Memory),
    }
}

/// Answers the requests that it reads, over the tables of a new broker whose office has the token.
pub(crate) fn replay<R: Read, W: Write>(
    alloc: Global,
    office_token: &str,
    input: &mut R,
    output: &mut W,
) -> Result<(), RunFault>
    ensures known { OnOk result (IsToken office_token.now) }
    ensures ok { OnOk result (Replays office_token.now
        (R.remaining input.old) (R.remaining input.new)
        (W.contents output.old) (W.contents output.new)) }
    // Nothing was read or written, or some requests were answered.
    ensures fails { OnErr result (FailsToReplay R.remaining W.contents office_token.now input.old input.new
        output.old output.new) }
    ensures cause { IfErr result (EndsReplay office_token.now (R.remaining input.old) (R.remaining input.new)
        (W.contents output.old) (W.contents output.new)) }
{
    let office = token_of(alloc, office_token)?;
    let mut broker = new_broker(alloc, &office)?;
    let routes = route_table(alloc)?;
    let served = serve_stream(alloc, &routes, &mut broker, input, output);
    drop(broker);
    match served {
        Ok(_) => Ok(()),
        Err(fault) => Err(RunFault::Serve(fault)),
    }
}
