//! What the commands on a version ask of the tables first: whether it and its environment are there,
//! and whether the caller may.
ghost use Rattle.std.specs.Prelude.{◌≡◌, Some, IfOk, IfErr};
ghost use Rattle.broker_core.specs.Change.{instance_of};
ghost use Rattle.broker_core.specs.Request.{has_grant};
ghost use Rattle.broker_core.specs.declared.policy.Rule.TheVariants.{OwnerWithGrant};
ghost use Rattle.broker_tables.specs.Failures.{LooksUp};
ghost use Rattle.environment_commands.specs.Places.{IsVersionRead, IsPlaceRead, IsAdmission, MissesFirst, Admits};

use broker_core::answer::{Answer, Missing};
use broker_core::command::{Marks, Version};
use broker_core::policy::{Caller, Rule};
use broker_names::name::Name;
use caller_facts::rules::{OwnerFacts, read_grant, read_owner};
use registry_tables::{marks_of, version_of};
use sqlite::{Alter, Connection};
use table_access::StoreFault;

/// What the tables say of a version: whether its pacticipant is there, whether the rule allows the caller, and its
/// number, if it has one.
#[derive(Clone, Copy)]
pub(crate) struct VersionFacts {
    pub(crate) owner: OwnerFacts,
    pub(crate) number: Option<u32>,
}

/// What they say of a version whose place in an environment would change: the environment's marks
/// too, if it is there.
#[derive(Clone, Copy)]
pub(crate) struct PlaceFacts {
    pub(crate) version: VersionFacts,
    pub(crate) marks: Option<Marks>,
}

/// A version and an environment that are there, if the caller may: the version's number, and the environment's marks.
#[derive(Clone, Copy)]
pub(crate) struct Admitted {
    pub(crate) number: u32,
    pub(crate) marks: Marks,
}

/// The text of an instance; an absent one is the empty text.
pub(crate) fn instance_text(instance: &Option<Name>) -> &str
    ensures { result.now ≡ instance_of instance.now }
{
    match instance {
        Some(instance) => instance.as_str(),
        None => "",
    }
}

/// The number of a version, or what is missing first.
pub(crate) fn number_among(facts: VersionFacts) -> Result<u32, Missing>
    ensures missing { IfErr result (λ missing. MissesFirst facts (λ next. Some missing)) }
    ensures there { IfOk result (λ number. MissesFirst facts (λ next. next)) }
    ensures numbered { IfOk result (λ number. facts.number ≡ Some number) }
{
    if !facts.owner.has_pacticipant {
        return Err(Missing::Pacticipant);
    }
    match facts.number {
        Some(number) => Ok(number),
        None => Err(Missing::Version),
    }
}

/// The version and the environment if the version may be put or taken away, or the answer that refuses it.
fn admitted_to_change(place: PlaceFacts) -> Result<Admitted, Answer>
    ensures { Admits place result }
{
    match place.marks {
        Some(marks) => match number_among(place.version) {
            Ok(number) => if place.version.owner.is_allowed {
                Ok(Admitted { number, marks })
            } else {
                Err(Answer::Denied(Rule::OwnerWithGrant))
            },
            Err(missing) => Err(Answer::Unknown(missing)),
        },
        None => Err(Answer::Unknown(Missing::Environment)),
    }
}

/// The version's number, whether its pacticipant is there, and whether the rule allows the caller.
pub(crate) fn read_version<S: Alter>(
    conn: &mut Connection<S>,
    caller: &Caller,
    rule: Rule,
    version: &Version,
    granted: bool,
) -> Result<VersionFacts, StoreFault>
    ensures { LooksUp S.Store conn.old conn.new result
        (λ found s. IsVersionRead s caller.now rule version.now granted found) }
{
    let owner = done!(read_owner(conn, caller, rule, &version.pacticipant, granted));
    let number = done!(version_of(conn, version.pacticipant.as_str(), version.name.as_str()));
    Ok(VersionFacts { owner, number })
}

/// The version's number, and whether its pacticipant is there and is the caller's, with a grant for
/// the environment.
fn read_granted<S: Alter>(
    conn: &mut Connection<S>,
    caller: &Caller,
    environment: &Name,
    version: &Version,
) -> Result<VersionFacts, StoreFault>
    ensures { LooksUp S.Store conn.old conn.new result
        (λ found s. IsVersionRead s caller.now OwnerWithGrant version.now (has_grant s caller.now (Some environment.now)) found) }
{
    let granted = done!(read_grant(conn, caller, environment));
    read_version(conn, caller, Rule::OwnerWithGrant, version, granted)
}

/// What is asked of a version and an environment before anything changes there.
fn read_place<S: Alter>(
    conn: &mut Connection<S>,
    caller: &Caller,
    environment: &Name,
    version: &Version,
) -> Result<PlaceFacts, StoreFault>
    ensures { LooksUp S.Store conn.old conn.new result
        (λ found s. IsPlaceRead s caller.now environment.now version.now found) }
{
    let version = done!(read_granted(conn, caller, environment, version));
    let marks = done!(marks_of(conn, environment.as_str()));
    Ok(PlaceFacts { version, marks })
}

/// The version and the environment if the caller may change what is there, or the answer that refuses each command that
/// would: what is missing first, or the policy's rule.
pub(crate) fn read_admitted<S: Alter>(
    conn: &mut Connection<S>,
    caller: &Caller,
    environment: &Name,
    version: &Version,
) -> Result<Result<Admitted, Answer>, StoreFault>
    ensures { LooksUp S.Store conn.old conn.new result (IsAdmission caller.now environment.now version.now) }
{
    let place = done!(read_place(conn, caller, environment, version));
    Ok(admitted_to_change(place))
}
