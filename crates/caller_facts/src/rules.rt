//! The policy's rules, as commands ask for them.
ghost use Rattle.std.specs.Prelude.{◌≡◌, [], option_map, string_bytes, is_some, Some};
ghost use Rattle.std.specs.List.{cons_option};
ghost use Rattle.broker_core.specs.Policy.{allows};
ghost use Rattle.broker_core.specs.Request.{has_grant};
ghost use Rattle.broker_tables.specs.Failures.{LooksUp, LooksUpInPlace};
ghost use Rattle.caller_facts.specs.Owners.{IsOwnerRead};

use broker_core::policy::{Ask, Caller, Rule, allowed};
use broker_names::name::Name;
use registry_tables::{granted, owner_of};
use sqlite::{Alter, Connection};
use table_access::StoreFault;

/// What the tables say of a pacticipant: whether it is there, and whether the policy's rule allows the caller.
#[derive(Clone, Copy)]
pub struct OwnerFacts {
    /// Whether the pacticipant is there.
    pub has_pacticipant: bool,
    /// Whether the rule allows the caller, as the owner or not.
    pub is_allowed: bool,
}

/// Whether the rule allows the caller, for the pacticipant that this team owns, with a grant or without.
fn is_allowed(caller: &Caller, rule: Rule, owner: &Option<String>, granted: bool) -> bool
    ensures { result ≡ allows rule caller.now (cons_option (option_map string_bytes owner.now) []) granted }
{
    let owner = owner.as_deref();
    let ask = Ask {
        rule,
        owners: owner.as_slice(),
        granted,
    };
    allowed(caller, &ask).is_ok()
}

/// Whether the pacticipant is there, and whether the rule allows the caller, with a grant for the environment or
/// without. Nothing is changed.
///
/// # Errors
/// `StoreFault::Memory` if an allocation failed or the database is out of memory; `StoreFault::Store` if the database
/// refused the query.
pub fn read_owner<S: Alter>(
    conn: &mut Connection<S>,
    caller: &Caller,
    rule: Rule,
    pacticipant: &Name,
    granted: bool,
) -> Result<OwnerFacts, StoreFault>
    ensures { LooksUp S.Store conn.old conn.new result
        (λ found s. IsOwnerRead s caller.now rule pacticipant.now granted found) }
{
    let owner = done!(owner_of(conn, pacticipant.as_str()));
    Ok(OwnerFacts {
        has_pacticipant: owner.is_some(),
        is_allowed: is_allowed(caller, rule, &owner, granted),
    })
}

/// Whether the pacticipant is there. Nothing is changed.
///
/// # Errors
/// `StoreFault::Memory` if an allocation failed or the database is out of memory; `StoreFault::Store` if the database
/// refused the query.
pub fn has_pacticipant<S: Alter>(
    conn: &mut Connection<S>,
    pacticipant: &Name,
) -> Result<bool, StoreFault>
    ensures { LooksUp S.Store conn.old conn.new result (λ has s. is_some (s.pacticipants pacticipant.now) ≡ has) }
{
    let owner = done!(owner_of(conn, pacticipant.as_str()));
    Ok(owner.is_some())
}

/// Whether the caller is a team with a grant for the environment. Nothing is changed.
///
/// # Errors
/// `StoreFault::Memory` if the database is out of memory; `StoreFault::Store` if it refused the query.
pub fn read_grant<S: Alter>(
    conn: &mut Connection<S>,
    caller: &Caller,
    environment: &Name,
) -> Result<bool, StoreFault>
    ensures { LooksUpInPlace S.Store conn.old conn.new result
        (λ has s. has ≡ has_grant s caller.now (Some environment.now)) }
{
    match caller {
        Caller::Team(team) => granted(conn, team.as_str(), environment.as_str()),
        Caller::Office => Ok(false),
    }
}
