//! The end of a release.
ghost use Rattle.std.specs.Prelude.{◌≡◌};
ghost use Rattle.broker_core.specs.Change.{end_support as unsupported};
ghost use Rattle.broker_core.specs.declared.command.Command.TheVariants.{EndSupport};
ghost use Rattle.broker_tables.specs.Failures.{FailsByStoreInPlace};
ghost use Rattle.command_facts.specs.Performs.{CarriesUnrefused, PerformsWhere};
ghost use Rattle.environment_commands.specs.Places.{HasNumber};

use crate::places::read_admitted;
use broker_core::answer::{Answer, Detail, Missing};
use broker_core::command::Version;
use broker_core::policy::Caller;
use broker_names::name::Name;
use sqlite::{Alter, Connection};
use table_access::StoreFault;

/// Ends the support of the version of this number, if it is released there.
fn remove_release<S: Alter>(
    conn: &mut Connection<S>,
    environment: &Name,
    version: &Version,
    number: u32,
) -> Result<Answer, StoreFault>
    ensures answers { PerformsWhere S.Store conn.old conn.new result
        (HasNumber version.now number) (λ s out. out ≡ unsupported s environment.now version.now) }
    ensures failure { FailsByStoreInPlace S.Store conn.old conn.new result }
{
    if done!(deploy_tables::end_support(conn, environment.as_str(), number)) {
        Ok(Answer::Done(Detail::Plain))
    } else {
        Ok(Answer::Unknown(Missing::Released))
    }
}

/// Ends the support of a version, or says why not.
pub fn end_support<S: Alter>(
    conn: &mut Connection<S>,
    caller: &Caller,
    environment: &Name,
    version: &Version,
) -> Result<Answer, StoreFault>
    ensures { CarriesUnrefused S.Store conn.old conn.new result caller.now (EndSupport environment.now version.now) }
{
    match done!(read_admitted(conn, caller, environment, version)) {
        Ok(place) => remove_release(conn, environment, version, place.number),
        Err(answer) => Ok(answer),
    }
}
