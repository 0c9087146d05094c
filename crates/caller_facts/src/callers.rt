//! Who calls.

ghost use Rattle.std.specs.Prelude.{◌≡◌, ◌↔◌, IfErr, ℕ, List, Some, None, Ok, false, IsTrue, MatchOption, IfOk, string_bytes};
ghost use Rattle.broker_core.specs.Machine.{IsCallerOfDigest};
ghost use Rattle.broker_names.specs.Name.{IsName};
ghost use Rattle.broker_tables.specs.Failures.{LooksUp};
ghost use Rattle.caller_facts.specs.Callers.{token_of, token_digest, IsSender};

use broker_core::policy::Caller;
use broker_names::name::{Name, NameFault};
use content_store::{Sha256Digester, digest_text};
use registry_tables::{office_digest, team_of_digest};
use sqlite::{Alter, Connection};
use std::alloc::Global;
use table_access::StoreFault;

/// The digest of a token, by which it is known.
pub fn digest_of(alloc: Global, token: &str) -> Result<String, StoreFault>
    ensures ok { IfOk result (λ digest. string_bytes digest ≡ token_digest token.now) }
    ensures cause { IfErr result (λ fault. fault ≡ StoreFault.Memory) }
{
    match digest_text(alloc, &Sha256Digester, token.as_bytes()) {
        Ok(text) => Ok(text),
        Err(_) => Err(StoreFault::Memory),
    }
}

/// Whether two texts are the same.
fn is_same(a: &str, b: &str) -> bool
    ensures same { IsTrue result → a.now ≡ b.now }
    ensures apart { result ≡ false → ¬ (a.now ≡ b.now) }
{
    a == b
}

/// A name that is in a table.
pub fn stored_name(alloc: Global, text: &str) -> Result<Name, StoreFault>
    ensures ok { IfOk result (λ name. name ≡ text.now) }
    ensures cause { IfErr result (λ fault. (fault ≡ StoreFault.Store) ↔ (¬ (IsName text.now))) }
{
    match Name::new(alloc, text) {
        Ok(name) => Ok(name),
        Err(NameFault::BadName) => Err(StoreFault::Store),
        Err(NameFault::Memory) => Err(StoreFault::Memory),
    }
}

/// The team whose token has this digest.
fn team_with<S: Alter>(
    alloc: Global,
    conn: &mut Connection<S>,
    digest: &str,
) -> Result<Option<Name>, StoreFault>
    ensures { LooksUp S.Store conn.old conn.new result
        (λ team s. MatchOption team ((t : List ℕ) → ¬ (s.teams t ≡ Some digest.now))
        (λ name. s.teams name ≡ Some digest.now)) }
{
    match done!(team_of_digest(conn, digest)) {
        Some(team) => Ok(Some(done!(stored_name(alloc, team.as_str())))),
        None => Ok(None),
    }
}

/// Who has a token with this digest.
pub fn holder_of<S: Alter>(
    alloc: Global,
    conn: &mut Connection<S>,
    digest: &str,
) -> Result<Option<Caller>, StoreFault>
    ensures { LooksUp S.Store conn.old conn.new result (λ who s. IsCallerOfDigest s digest.now who) }
{
    let office = done!(office_digest(conn));
    if is_same(office.as_str(), digest) {
        return Ok(Some(Caller::Office));
    }
    match done!(team_with(alloc, conn, digest)) {
        Some(team) => Ok(Some(Caller::Team(team))),
        None => Ok(None),
    }
}

/// The caller of a token; without one there is none, and nothing is asked of the database.
pub fn caller_of<S: Alter>(
    alloc: Global,
    conn: &mut Connection<S>,
    token: Option<&str>,
) -> Result<Option<Caller>, StoreFault>
    ensures answers { LooksUp S.Store conn.old conn.new result
        (λ who s. IsSender s (token_of token.entry) who) }
    ensures none { token_of token.entry ≡ None → (result ≡ Ok None) × (conn.new ≡ conn.old) }
{
    match token {
        Some(token) => {
            let digest = done!(digest_of(alloc, token));
            holder_of(alloc, conn, digest.as_str())
        }
        None => Ok(None),
    }
}
