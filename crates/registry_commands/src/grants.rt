//! PUT and DELETE of a grant.
ghost use Rattle.std.specs.Prelude.{IfSome, IfNone};
ghost use Rattle.sqlite.specs.Held.{state};
ghost use Rattle.table_access.specs.Calls.{ReportsMemory};
ghost use Rattle.broker_core.specs.declared.command.Command.TheVariants.{PutGrant, DeleteGrant};
ghost use Rattle.broker_tables.specs.Failures.{LooksUpInPlace};
ghost use Rattle.command_facts.specs.Performs.{Carries, CarriesUnrefused};
ghost use Rattle.registry_commands.specs.Facts.{IsGrantRead, AnswersPutGrant, AddsNewGrant, AnswersDeleteGrant, TakesGrant};

use broker_core::answer::{Answer, Detail, Missing};
use broker_core::policy::{Caller, Rule};
use broker_names::name::Name;
use command_facts::change::returned;
use registry_tables::{add_grant, gated, granted, has_team, remove_grant};
use sqlite::{Alter, Connection};
use table_access::StoreFault;

/// What the tables say of a team, an environment and the team's grant for it.
#[derive(Clone, Copy)]
struct GrantFacts {
    /// Whether the team is there.
    has_team: bool,
    /// Whether the environment is there.
    has_environment: bool,
    /// Whether the team has a grant for the environment.
    has_grant: bool,
}

/// Whether the team, the environment and the grant are there.
fn read_grant_facts<S: Alter>(
    conn: &mut Connection<S>,
    team: &Name,
    environment: &Name,
) -> Result<GrantFacts, StoreFault>
    ensures { LooksUpInPlace S.Store conn.old conn.new result
        (λ found s. IsGrantRead s team.now environment.now found) }
{
    let has_team = done!(has_team(conn, team.as_str()));
    let gated = done!(gated(conn, environment.as_str()));
    let has_grant = done!(granted(conn, team.as_str(), environment.as_str()));
    Ok(GrantFacts {
        has_team,
        has_environment: gated.is_some(),
        has_grant,
    })
}

/// The answer if no grant is added; none if it is.
fn decide_put_grant(caller: &Caller, facts: GrantFacts) -> Option<Answer>
    ensures unchanged { IfSome result (AnswersPutGrant caller.now facts) }
    ensures changes { IfNone result (AddsNewGrant caller.now facts) }
{
    if !facts.has_team {
        return Some(Answer::Unknown(Missing::Team));
    }
    if !facts.has_environment {
        return Some(Answer::Unknown(Missing::Environment));
    }
    if !caller.is_office() {
        return Some(Answer::Denied(Rule::OfficeOnly));
    }
    if facts.has_grant {
        return Some(Answer::Already(Detail::Plain));
    }
    None
}

/// The answer if no grant is taken; none if it is.
fn decide_delete_grant(caller: &Caller, facts: GrantFacts) -> Option<Answer>
    ensures unchanged { IfSome result (AnswersDeleteGrant caller.now facts) }
    ensures changes { IfNone result (TakesGrant caller.now facts) }
{
    if !facts.has_team {
        return Some(Answer::Unknown(Missing::Team));
    }
    if !facts.has_environment {
        return Some(Answer::Unknown(Missing::Environment));
    }
    if !caller.is_office() {
        return Some(Answer::Denied(Rule::OfficeOnly));
    }
    if !facts.has_grant {
        return Some(Answer::Unknown(Missing::Grant));
    }
    None
}

/// Adds a grant, for the office; or answers why not, and nothing changes.
///
/// # Errors
/// `StoreFault::Memory` if the database is out of memory, which ended the transaction; `StoreFault::Store` if it refused
/// a statement, or a row breaks the rules of its table.
pub fn put_grant<S: Alter>(
    conn: &mut Connection<S>,
    caller: &Caller,
    team: &Name,
    environment: &Name,
) -> Result<Answer, StoreFault>
    ensures carries { Carries S.Store conn.old conn.new result caller.now (PutGrant team.now environment.now) }
    ensures memory { ReportsMemory (state S.Store conn.old) (state S.Store conn.new) result }
{
    let facts = done!(read_grant_facts(conn, team, environment));
    match decide_put_grant(caller, facts) {
        Some(answer) => Ok(answer),
        None => returned(add_grant(conn, team.as_str(), environment.as_str())),
    }
}

/// Takes a grant away, for the office; or answers why not, and nothing changes. In a state that can be read back only a
/// failure of the store keeps it from either.
///
/// # Errors
/// `StoreFault::Memory` if the database is out of memory, which ended the transaction; `StoreFault::Store` if it refused
/// a statement, or a row breaks the rules of its table.
pub fn delete_grant<S: Alter>(
    conn: &mut Connection<S>,
    caller: &Caller,
    team: &Name,
    environment: &Name,
) -> Result<Answer, StoreFault>
    ensures carries { CarriesUnrefused S.Store conn.old conn.new result caller.now (DeleteGrant team.now environment.now) }
    ensures memory { ReportsMemory (state S.Store conn.old) (state S.Store conn.new) result }
{
    let facts = done!(read_grant_facts(conn, team, environment));
    match decide_delete_grant(caller, facts) {
        Some(answer) => Ok(answer),
        None => returned(remove_grant(conn, team.as_str(), environment.as_str())),
    }
}
