//! The listing of an environment.
ghost use Rattle.std.specs.Prelude.{◌≡◌, IfOk, IfErr};
ghost use Rattle.broker_core.specs.declared.command.Command.TheVariants.{GetEnvironment};
ghost use Rattle.broker_tables.specs.Failures.{LooksUp};
ghost use Rattle.command_facts.specs.Performs.{CarriesUnrefused};
ghost use Rattle.environment_commands.specs.Effects.{ListsAll, IsEnvironmentShown, shows};

use broker_core::answer::{Answer, DeployedItem, DeployedItems, Missing, Shown, Versions};
use broker_core::command::{Marks, Version};
use broker_core::policy::Caller;
use broker_names::name::Name;
use deploy_tables::{deployed, released};
use registry_tables::marks_of;
use sqlite::{Alter, Connection};
use std::alloc::Global;
use table_access::StoreFault;

/// What is deployed and what is released in an environment.
fn read_lists<S: Alter>(
    alloc: Global,
    conn: &mut Connection<S>,
    environment: &Name,
) -> Result<(Vec<DeployedItem>, Vec<Version>), StoreFault>
    ensures { LooksUp S.Store conn.old conn.new result
        (λ found s. ListsAll environment.now found.0.items found.1.items s) }
{
    let items = done!(deployed(alloc, conn, environment.as_str()));
    let versions = done!(released(alloc, conn, environment.as_str()));
    Ok((items, versions))
}

/// The answer that shows an environment.
fn environment_answer(
    environment: &Name,
    marks: Marks,
    deployed: Vec<DeployedItem>,
    released: Vec<Version>,
) -> Result<Answer, StoreFault>
    ensures ok { IfOk result (λ answer. answer ≡ shows environment.now marks deployed.items released.items) }
    ensures cause { IfErr result (λ fault. fault ≡ StoreFault.Memory) }
{
    match environment.clone() {
        Ok(environment) => Ok(Answer::Shown(Shown::Environment {
            environment,
            marks,
            deployed: DeployedItems::new(deployed),
            released: Versions::new(released),
        })),
        Err(_) => Err(StoreFault::Memory),
    }
}

/// Shows an environment with these marks.
fn list_environment<S: Alter>(
    alloc: Global,
    conn: &mut Connection<S>,
    environment: &Name,
    marks: Marks,
) -> Result<Answer, StoreFault>
    ensures { LooksUp S.Store conn.old conn.new result (IsEnvironmentShown environment.now marks) }
{
    let (deployed, released) = done!(read_lists(alloc, conn, environment));
    Ok(done!(environment_answer(environment, marks, deployed, released)))
}

/// Shows an environment, if it is there.
pub fn get_environment<S: Alter>(
    alloc: Global,
    conn: &mut Connection<S>,
    caller: &Caller,
    environment: &Name,
) -> Result<Answer, StoreFault>
    ensures { CarriesUnrefused S.Store conn.old conn.new result caller.now (GetEnvironment environment.now) }
{
    match done!(marks_of(conn, environment.as_str())) {
        Some(marks) => list_environment(alloc, conn, environment, marks),
        None => Ok(Answer::Unknown(Missing::Environment)),
    }
}
