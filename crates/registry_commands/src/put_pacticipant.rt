//! PUT of a pacticipant.

ghost use Rattle.std.specs.Prelude.{IfSome, IfNone};
ghost use Rattle.broker_tables.specs.Failures.{LooksUp};
ghost use Rattle.command_facts.specs.Performs.{Carries};
ghost use Rattle.registry_commands.specs.Facts.{IsPacticipantRead, AnswersPutPacticipant, AddsNewPacticipant};
ghost use Rattle.broker_core.specs.declared.command.Command.TheVariants.{PutPacticipant};

use broker_core::answer::{Answer, Clash, Detail, Missing};
use broker_core::policy::{Caller, Rule};
use broker_names::name::Name;
use command_facts::change::returned;
use registry_tables::{add_pacticipant, has_team, owner_of};
use sqlite::{Alter, Connection};
use table_access::StoreFault;

/// What the tables say of a team and of a pacticipant.
#[derive(Drop)]
struct PacticipantFacts {
    /// Whether the team is there.
    has_team: bool,
    /// The team that owns the pacticipant, if it is there.
    owner: Option<String>,
}

/// Whether the team is there, and the pacticipant's owner.
fn read_pacticipant_facts<S: Alter>(
    conn: &mut Connection<S>,
    pacticipant: &Name,
    team: &Name,
) -> Result<PacticipantFacts, StoreFault>
    ensures { LooksUp S.Store conn.old conn.new result
        (λ found s. IsPacticipantRead s pacticipant.now team.now found) }
{
    let has_team = done!(has_team(conn, team.as_str()));
    let owner = done!(owner_of(conn, pacticipant.as_str()));
    Ok(PacticipantFacts { has_team, owner })
}

/// The answer if nothing changes; none if the pacticipant is added.
fn decide_put_pacticipant(caller: &Caller, facts: &PacticipantFacts, team: &Name) -> Option<Answer>
    ensures unchanged { IfSome result (AnswersPutPacticipant caller.now team.now facts.now) }
    ensures changes { IfNone result (AddsNewPacticipant caller.now team.now facts.now) }
{
    if !facts.has_team {
        return Some(Answer::Unknown(Missing::Team));
    }
    if !caller.is_office() {
        return Some(Answer::Denied(Rule::OfficeOnly));
    }
    match &facts.owner {
        Some(owner) => if owner.as_str() == team.as_str() {
            Some(Answer::Already(Detail::Plain))
        } else {
            Some(Answer::Taken(Clash::Name))
        },
        None => None,
    }
}

/// Adds a pacticipant of this team, for the office; or answers why not, and nothing changes.
///
/// # Errors
/// `StoreFault::Memory` if an allocation failed or the database is out of memory; `StoreFault::Store` if the database
/// refused a statement, or a row breaks the rules of its table.
pub fn put_pacticipant<S: Alter>(
    conn: &mut Connection<S>,
    caller: &Caller,
    pacticipant: &Name,
    team: &Name,
) -> Result<Answer, StoreFault>
    ensures { Carries S.Store conn.old conn.new result caller.now (PutPacticipant pacticipant.now team.now) }
{
    let facts = done!(read_pacticipant_facts(conn, pacticipant, team));
    match decide_put_pacticipant(caller, &facts, team) {
        Some(answer) => Ok(answer),
        None => returned(add_pacticipant(conn, pacticipant.as_str(), team.as_str())),
    }
}
