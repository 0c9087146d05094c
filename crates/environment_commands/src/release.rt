//! Release of a version.
ghost use Rattle.std.specs.Prelude.{[], ◌∷◌};
ghost use Rattle.sqlite.specs.Held.{state};
ghost use Rattle.table_access.specs.Calls.{ReportsMemory};
ghost use Rattle.broker_core.specs.declared.command.Command.TheVariants.{Release};
ghost use Rattle.broker_tables.specs.ChangeRefusals.{AreShort};
ghost use Rattle.command_facts.specs.Performs.{Carries, CarriesFrom};
ghost use Rattle.environment_commands.specs.Effects.{CarriesOut, Releases};
ghost use Rattle.environment_commands.specs.Places.{HasNumber, HasPlace, IsAdmitted};

use crate::gate::gate_verdict;
use crate::places::{Admitted, read_admitted};
use broker_core::answer::{Answer, Detail, Faults};
use broker_core::command::Version;
use broker_core::policy::Caller;
use broker_names::name::Name;
use command_facts::change::returned;
use deploy_tables::{is_released, record_released};
use sqlite::{Alter, Connection};
use std::alloc::Global;
use table_access::StoreFault;

/// Releases the version of this number, if it isn't released there yet.
fn record_release<S: Alter>(
    conn: &mut Connection<S>,
    environment: &Name,
    version: &Version,
    number: u32,
) -> Result<Answer, StoreFault>
    ensures carries { CarriesFrom S.Store conn.old conn.new result (HasNumber version.now number)
        (HasPlace environment.now version.now number) (¬ AreShort (environment.now ∷ []))
        (Releases environment.now version.now) }
    ensures memory { ReportsMemory (state S.Store conn.old) (state S.Store conn.new) result }
{
    if done!(is_released(conn, environment.as_str(), number)) {
        return Ok(Answer::Already(Detail::Plain));
    }
    returned(record_released(conn, environment.as_str(), number))
}

/// Asks the gate, and releases the version if it is permitted.
fn release_judged<S: Alter>(
    alloc: Global,
    conn: &mut Connection<S>,
    environment: &Name,
    version: &Version,
    place: Admitted,
) -> Result<Answer, StoreFault>
    ensures { CarriesOut S.Store conn.old conn.new result (IsAdmitted environment.now version.now place)
        (Release environment.now version.now) }
{
    let (permitted, faults) = done!(gate_verdict(alloc, conn, environment, version, place));
    if permitted {
        record_release(conn, environment, version, place.number)
    } else {
        Ok(Answer::NotPermitted(Faults::new(faults)))
    }
}

/// Releases a version, or says why not.
pub fn release<S: Alter>(
    alloc: Global,
    conn: &mut Connection<S>,
    caller: &Caller,
    environment: &Name,
    version: &Version,
) -> Result<Answer, StoreFault>
    ensures { Carries S.Store conn.old conn.new result caller.now (Release environment.now version.now) }
{
    match done!(read_admitted(conn, caller, environment, version)) {
        Ok(place) => release_judged(alloc, conn, environment, version, place),
        Err(answer) => Ok(answer),
    }
}
