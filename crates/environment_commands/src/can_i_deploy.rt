//! What the gate would say of a version.
ghost use Rattle.std.specs.Prelude.{◌≡◌, Some, None, false, IfOk, IfErr};
ghost use Rattle.broker_core.specs.declared.command.Command.TheVariants.{CanIDeploy};
ghost use Rattle.broker_core.specs.declared.policy.Rule.TheVariants.{OwnerOrOfficeToAsk};
ghost use Rattle.broker_tables.specs.Failures.{LooksUp};
ghost use Rattle.command_facts.specs.Performs.{CarriesUnrefused};
ghost use Rattle.environment_commands.specs.Effects.{IsGateShown, shows_gate};
ghost use Rattle.environment_commands.specs.Places.{IsVersionRead, GateHasRefusal};

use crate::gate::gate_verdict;
use crate::places::{Admitted, VersionFacts, number_among, read_version};
use broker_core::answer::{Answer, Faults, Missing, Shown};
use broker_core::command::{Marks, Version};
use broker_core::need::PairFault;
use broker_core::policy::{Caller, Rule};
use broker_names::name::Name;
use registry_tables::marks_of;
use sqlite::{Alter, Connection};
use std::alloc::Global;
use table_access::StoreFault;

/// The version and the environment for which the gate may be asked, or the answer that refuses it.
fn admitted_to_ask(version: VersionFacts, marks: Option<Marks>) -> Result<Admitted, Answer>
    ensures refused { IfErr result (λ answer. GateHasRefusal version marks (Some answer)) }
    ensures let_through { IfOk result (λ found. GateHasRefusal version marks None) }
    ensures found { IfOk result (λ found. (version.number ≡ Some found.number) × (marks ≡ Some found.marks)) }
{
    match number_among(version) {
        Ok(number) => match marks {
            Some(marks) => if version.owner.is_allowed {
                Ok(Admitted { number, marks })
            } else {
                Err(Answer::Denied(Rule::OwnerOrOfficeToAsk))
            },
            None => Err(Answer::Unknown(Missing::Environment)),
        },
        Err(missing) => Err(Answer::Unknown(missing)),
    }
}

/// The version's number, whether the caller may ask of it, and the environment's marks.
fn read_gate_facts<S: Alter>(
    conn: &mut Connection<S>,
    caller: &Caller,
    version: &Version,
    environment: &Name,
) -> Result<(VersionFacts, Option<Marks>), StoreFault>
    ensures { LooksUp S.Store conn.old conn.new result
        (λ found s. IsVersionRead s caller.now OwnerOrOfficeToAsk version.now false found.0
        × (s.environments environment.now ≡ found.1)) }
{
    let facts = done!(read_version(conn, caller, Rule::OwnerOrOfficeToAsk, version, false));
    let marks = done!(marks_of(conn, environment.as_str()));
    Ok((facts, marks))
}

/// The answer that shows what the gate says.
fn gate_answer(
    environment: &Name,
    marks: Marks,
    permitted: bool,
    faults: Vec<PairFault>,
) -> Result<Answer, StoreFault>
    ensures ok { IfOk result (λ answer. answer ≡ shows_gate environment.now marks permitted faults.items) }
    ensures cause { IfErr result (λ fault. fault ≡ StoreFault.Memory) }
{
    match environment.clone() {
        Ok(environment) => Ok(Answer::Shown(Shown::Gate {
            environment,
            marks,
            permitted,
            faults: Faults::new(faults),
        })),
        Err(_) => Err(StoreFault::Memory),
    }
}

/// Asks the gate for a version and an environment that are there, and shows what it says.
fn show_gate<S: Alter>(
    alloc: Global,
    conn: &mut Connection<S>,
    version: &Version,
    environment: &Name,
    place: Admitted,
) -> Result<Answer, StoreFault>
    ensures { LooksUp S.Store conn.old conn.new result
        (IsGateShown environment.now version.now place) }
{
    let (permitted, faults) = done!(gate_verdict(alloc, conn, environment, version, place));
    Ok(done!(gate_answer(environment, place.marks, permitted, faults)))
}

/// Shows what the gate says of a version, or says why not.
pub fn can_i_deploy<S: Alter>(
    alloc: Global,
    conn: &mut Connection<S>,
    caller: &Caller,
    version: &Version,
    environment: &Name,
) -> Result<Answer, StoreFault>
    ensures { CarriesUnrefused S.Store conn.old conn.new result caller.now (CanIDeploy version.now environment.now) }
{
    let (facts, marks) = done!(read_gate_facts(conn, caller, version, environment));
    match admitted_to_ask(facts, marks) {
        Ok(place) => show_gate(alloc, conn, version, environment, place),
        Err(answer) => Ok(answer),
    }
}
