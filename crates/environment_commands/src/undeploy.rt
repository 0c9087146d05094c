//! The end of a deployment.
ghost use Rattle.std.specs.Prelude.{◌≡◌};
ghost use Rattle.broker_core.specs.Change.{undeploy as undeployment};
ghost use Rattle.broker_core.specs.declared.command.Command.TheVariants.{Undeploy};
ghost use Rattle.broker_tables.specs.Failures.{FailsByStoreInPlace};
ghost use Rattle.command_facts.specs.Performs.{CarriesUnrefused, PerformsWhere};
ghost use Rattle.environment_commands.specs.Places.{HasNumber};

use crate::places::{instance_text, read_admitted};
use broker_core::answer::{Answer, Detail, Missing};
use broker_core::command::Version;
use broker_core::policy::Caller;
use broker_names::name::Name;
use deploy_tables::take_out;
use sqlite::{Alter, Connection};
use table_access::StoreFault;

/// Takes the version of this number out of this instance, if it is deployed there.
fn remove_deployment<S: Alter>(
    conn: &mut Connection<S>,
    environment: &Name,
    version: &Version,
    instance: &str,
    number: u32,
) -> Result<Answer, StoreFault>
    ensures answers { PerformsWhere S.Store conn.old conn.new result
        (HasNumber version.now number) (λ s out. out ≡ undeployment s environment.now version.now instance.now) }
    ensures failure { FailsByStoreInPlace S.Store conn.old conn.new result }
{
    if done!(take_out(
        conn,
        environment.as_str(),
        version.pacticipant.as_str(),
        instance,
        number,
    )) {
        Ok(Answer::Done(Detail::Plain))
    } else {
        Ok(Answer::Unknown(Missing::Deployed))
    }
}

/// Takes a version out of an instance, or says why not.
pub fn undeploy<S: Alter>(
    conn: &mut Connection<S>,
    caller: &Caller,
    environment: &Name,
    version: &Version,
    instance: &Option<Name>,
) -> Result<Answer, StoreFault>
    ensures { CarriesUnrefused S.Store conn.old conn.new result caller.now
        (Undeploy environment.now version.now instance.now) }
{
    match done!(read_admitted(conn, caller, environment, version)) {
        Ok(place) => remove_deployment(
            conn,
            environment,
            version,
            instance_text(instance),
            place.number,
        ),
        Err(answer) => Ok(answer),
    }
}
