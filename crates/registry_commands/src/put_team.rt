//! PUT of a team.

ghost use Rattle.std.specs.Prelude.{◌≡◌, ℕ, List, [], ◌∷◌, Some, IfSome, IfNone};
ghost use Rattle.broker_core.specs.State.{State as BrokerState};
ghost use Rattle.broker_core.specs.Machine.{IsCallerOfDigest};
ghost use Rattle.broker_tables.specs.Failures.{LooksUp};
ghost use Rattle.broker_tables.specs.ChangeRefusals.{AreShort};
ghost use Rattle.command_facts.specs.Performs.{Carries, CarriesTo};
ghost use Rattle.registry_commands.specs.Facts.{IsTeamRead, PutsTeam, AnswersPutTeam, AddsNewTeam};
ghost use Rattle.broker_core.specs.declared.command.Command.TheVariants.{PutTeam};

use broker_core::answer::{Answer, Clash, Detail};
use broker_core::policy::{Caller, Rule};
use broker_names::name::{Name, Token};
use caller_facts::callers::{digest_of, holder_of};
use command_facts::change::returned;
use registry_tables::add_team;
use sqlite::{Alter, Connection};
use std::alloc::Global;
use table_access::StoreFault;

/// What the tables say of a team and of a token's digest.
#[derive(Drop)]
struct TeamFacts {
    /// The digest of the team's token, if the team is there.
    digest: Option<String>,
    /// Who has the new digest.
    holder: Option<Caller>,
}

/// The digest of the team's token, and who has the new one.
fn read_team_facts<S: Alter>(
    alloc: Global,
    conn: &mut Connection<S>,
    team: &Name,
    digest: &str,
) -> Result<TeamFacts, StoreFault>
    ensures { LooksUp S.Store conn.old conn.new result (λ found s. IsTeamRead s team.now digest.now found) }
{
    let old = done!(registry_tables::digest_of(conn, team.as_str()));
    let holder = done!(holder_of(alloc, conn, digest));
    Ok(TeamFacts {
        digest: old,
        holder,
    })
}

/// The answer if nothing changes; none if the team is added.
fn decide_put_team(caller: &Caller, facts: &TeamFacts, digest: &str) -> Option<Answer>
    ensures unchanged { IfSome result (AnswersPutTeam caller.now digest.now facts.now) }
    ensures changes { IfNone result (AddsNewTeam caller.now digest.now facts.now) }
    ensures unused { IfNone result ((s : BrokerState) → IsCallerOfDigest s digest.now facts.now.holder
        → (team : List ℕ) → ¬ (s.teams team ≡ Some digest.now)) }
{
    if !caller.is_office() {
        return Some(Answer::Denied(Rule::OfficeOnly));
    }
    match &facts.digest {
        Some(old) => if old.as_str() == digest {
            Some(Answer::Already(Detail::Plain))
        } else {
            Some(Answer::Taken(Clash::Name))
        },
        None => match &facts.holder {
            Some(_) => Some(Answer::Taken(Clash::Token)),
            None => None,
        },
    }
}

/// Adds a team with this digest, or reports why not.
fn put_digest<S: Alter>(
    alloc: Global,
    conn: &mut Connection<S>,
    caller: &Caller,
    team: &Name,
    digest: &str,
) -> Result<Answer, StoreFault>
    ensures { CarriesTo S.Store conn.old conn.new result (¬ AreShort (team.now ∷ digest.now ∷ []))
        (λ s out. PutsTeam s caller.now team.now digest.now out) }
{
    let facts = done!(read_team_facts(alloc, conn, team, digest));
    match decide_put_team(caller, &facts, digest) {
        Some(answer) => Ok(answer),
        None => returned(add_team(conn, team.as_str(), digest)),
    }
}

/// Adds a team with the digest of its token, for the office; or answers why not, and nothing changes.
///
/// # Errors
/// `StoreFault::Memory` if an allocation failed or the database is out of memory; `StoreFault::Store` if the database
/// refused a statement, or a row breaks the rules of its table.
pub fn put_team<S: Alter>(
    alloc: Global,
    conn: &mut Connection<S>,
    caller: &Caller,
    team: &Name,
    token: &Token,
) -> Result<Answer, StoreFault>
    ensures { Carries S.Store conn.old conn.new result caller.now (PutTeam team.now token.now) }
{
    let digest = done!(digest_of(alloc, token.as_str()));
    put_digest(alloc, conn, caller, team, digest.as_str())
}
