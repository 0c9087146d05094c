//! Deployment of a version.
ghost use Rattle.sqlite.specs.Held.{state};
ghost use Rattle.table_access.specs.Calls.{ReportsMemory};
ghost use Rattle.broker_core.specs.declared.command.Command.TheVariants.{Deploy};
ghost use Rattle.command_facts.specs.Performs.{Carries, CarriesFrom};
ghost use Rattle.environment_commands.specs.Effects.{CarriesOut, Deploys};
ghost use Rattle.environment_commands.specs.Places.{HasNumber, HasPlace, IsLongPlace, IsAdmitted};

use crate::gate::gate_verdict;
use crate::places::{Admitted, instance_text, read_admitted};
use broker_core::answer::{Answer, Detail, Faults};
use broker_core::command::Version;
use broker_core::policy::Caller;
use broker_names::name::Name;
use command_facts::change::returned;
use deploy_tables::{is_deployed, record_deployed};
use sqlite::{Alter, Connection};
use std::alloc::Global;
use table_access::StoreFault;

/// Deploys the version of this number as this instance, if it isn't deployed there yet.
fn record_deployment<S: Alter>(
    conn: &mut Connection<S>,
    environment: &Name,
    version: &Version,
    instance: &str,
    number: u32,
) -> Result<Answer, StoreFault>
    ensures carries { CarriesFrom S.Store conn.old conn.new result (HasNumber version.now number)
        (HasPlace environment.now version.now number) (IsLongPlace environment.now version.now instance.now)
        (Deploys environment.now version.now instance.now) }
    ensures memory { ReportsMemory (state S.Store conn.old) (state S.Store conn.new) result }
{
    if done!(is_deployed(
        conn,
        environment.as_str(),
        version.pacticipant.as_str(),
        instance,
        number,
    )) {
        return Ok(Answer::Already(Detail::Plain));
    }
    returned(record_deployed(
        conn,
        environment.as_str(),
        version.pacticipant.as_str(),
        instance,
        number,
    ))
}

/// Asks the gate, and deploys the version if it is permitted.
fn deploy_judged<S: Alter>(
    alloc: Global,
    conn: &mut Connection<S>,
    environment: &Name,
    version: &Version,
    instance: &Option<Name>,
    place: Admitted,
) -> Result<Answer, StoreFault>
    ensures { CarriesOut S.Store conn.old conn.new result (IsAdmitted environment.now version.now place)
        (Deploy environment.now version.now instance.now) }
{
    let (permitted, faults) = done!(gate_verdict(alloc, conn, environment, version, place));
    if permitted {
        record_deployment(
            conn,
            environment,
            version,
            instance_text(instance),
            place.number,
        )
    } else {
        Ok(Answer::NotPermitted(Faults::new(faults)))
    }
}

/// Deploys a version, or says why not.
pub fn deploy<S: Alter>(
    alloc: Global,
    conn: &mut Connection<S>,
    caller: &Caller,
    environment: &Name,
    version: &Version,
    instance: &Option<Name>,
) -> Result<Answer, StoreFault>
    ensures { Carries S.Store conn.old conn.new result caller.now
        (Deploy environment.now version.now instance.now) }
{
    match done!(read_admitted(conn, caller, environment, version)) {
        Ok(place) => deploy_judged(alloc, conn, environment, version, instance, place),
        Err(answer) => Ok(answer),
    }
}
