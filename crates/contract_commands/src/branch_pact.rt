//! The contract that a branch shows: that of its newest version with one.
ghost use Rattle.std.specs.Prelude.{◌≡◌, ◌+◌, ◌<◌, IfOk, IfSome, length};
ghost use Rattle.broker_core.specs.declared.command.Command.TheVariants.{GetBranchPact};
ghost use Rattle.broker_core.specs.declared.policy.Rule.TheVariants.{OwnerOrOfficeToRead};
ghost use Rattle.broker_tables.specs.Failures.{LooksUp, LooksUpInPlace};
ghost use Rattle.contract_commands.specs.BranchPact.{IsNextBelow, IsBranchContent, IsContentBelow, ReachesBranch};
ghost use Rattle.contract_commands.specs.Pacts.{missing_of_branch, Admits};
ghost use Rattle.command_facts.specs.Performs.{CarriesUnrefused};

use crate::pacts::show_pact;
use crate::sides::{Sides, read_sides_to_show};
use broker_core::answer::{Answer, Missing};
use broker_core::policy::{Caller, Rule};
use broker_names::name::Name;
use broker_tables::next_number;
use contract_tables::contract_of;
use registry_tables::{branch_number_below, version_count};
use sqlite::{Alter, Connection};
use table_access::StoreFault;

/// A version on a branch.
#[derive(Clone, Copy)]
struct BranchVersion {
    number: u32,
    /// The number of the content of its contract with the provider, if it has one.
    content: Option<u32>,
}

/// The number that the next version gets: those of all others are below.
fn read_bound<S: Alter>(conn: &mut Connection<S>) -> Result<u32, StoreFault>
    ensures { LooksUpInPlace S.Store conn.old conn.new result (λ bound s. bound ≡ length s.versions + 1) }
{
    let count = done!(version_count(conn));
    match next_number(count) {
        Some(bound) => Ok(bound),
        None => Err(StoreFault::Store),
    }
}

/// The newest version on the branch whose number is below this one.
fn next_below<S: Alter>(
    conn: &mut Connection<S>,
    provider: &Name,
    consumer: &Name,
    branch: &Name,
    bound: u32,
) -> Result<Option<BranchVersion>, StoreFault>
    ensures read { LooksUpInPlace S.Store conn.old conn.new result
        (λ found s. IsNextBelow s provider.now consumer.now branch.now bound found) }
    ensures lower { IfOk result (λ found. IfSome found (λ next. next.number < bound)) }
{
    match done!(branch_number_below(conn, consumer.as_str(), branch.as_str(), bound)) {
        Some(number) => if number < bound {
            let content = done!(contract_of(conn, number, provider.as_str()));
            Ok(Some(BranchVersion { number, content }))
        } else {
            Err(StoreFault::Store)
        },
        None => Ok(None),
    }
}

/// The number of the content of the contract that the branch shows, if there is one, if no version from this number on
/// has one.
fn content_below<S: Alter>(
    conn: &mut Connection<S>,
    provider: &Name,
    consumer: &Name,
    branch: &Name,
    mut bound: u32,
) -> Result<Option<u32>, StoreFault>
    ensures { LooksUpInPlace S.Store conn.old conn.new result
        (λ content s. IsContentBelow s provider.now consumer.now branch.now bound content) }
{
    loop {
        match done!(next_below(conn, provider, consumer, branch, bound)) {
            Some(next) => match next.content {
                Some(content) => return Ok(Some(content)),
                None => bound = next.number,
            },
            None => return Ok(None),
        }
    }
}

/// The number of the content of the contract that the branch shows, if there is one.
fn read_branch<S: Alter>(
    conn: &mut Connection<S>,
    provider: &Name,
    consumer: &Name,
    branch: &Name,
) -> Result<Option<u32>, StoreFault>
    ensures { LooksUpInPlace S.Store conn.old conn.new result
        (λ content s. IsBranchContent s provider.now consumer.now branch.now content) }
{
    let bound = done!(read_bound(conn));
    content_below(conn, provider, consumer, branch, bound)
}

/// The content of the contract that the branch shows, or the refusal: which of its two sides and the contract is
/// missing first, or the rule that doesn't let the caller.
fn admit_branch_pact(sides: Sides, content: Option<u32>) -> Result<u32, Answer>
    ensures { Admits OwnerOrOfficeToRead content (missing_of_branch sides content) sides.is_allowed result }
{
    if !sides.has_provider || !sides.has_consumer {
        return Err(Answer::Unknown(Missing::Pacticipant));
    }
    let Some(content) = content else {
        return Err(Answer::Unknown(Missing::Contract));
    };
    if !sides.is_allowed {
        return Err(Answer::Denied(Rule::OwnerOrOfficeToRead));
    }
    Ok(content)
}

/// The content of the contract that the branch shows to the caller, or the refusal.
fn read_branch_to_show<S: Alter>(
    conn: &mut Connection<S>,
    caller: &Caller,
    provider: &Name,
    consumer: &Name,
    branch: &Name,
) -> Result<Result<u32, Answer>, StoreFault>
    ensures { LooksUp S.Store conn.old conn.new result
        (λ place s. ReachesBranch s caller.now provider.now consumer.now branch.now place) }
{
    let sides = done!(read_sides_to_show(conn, caller, provider, consumer));
    let content = done!(read_branch(conn, provider, consumer, branch));
    Ok(admit_branch_pact(sides, content))
}

/// Shows the contract of the newest version on a branch that has one with the provider, or says why not.
pub fn get_branch_pact<S: Alter>(
    conn: &mut Connection<S>,
    caller: &Caller,
    provider: &Name,
    consumer: &Name,
    branch: &Name,
) -> Result<Answer, StoreFault>
    ensures { CarriesUnrefused S.Store conn.old conn.new result caller.now
        (GetBranchPact provider.now consumer.now branch.now) }
{
    let place = done!(read_branch_to_show(conn, caller, provider, consumer, branch));
    show_pact(conn, place)
}
