//! Naming of a version, and putting it on a branch.
ghost use Rattle.std.specs.Prelude.{◌≡◌, ℕ, List, [], ◌∷◌, codes, Some, None, unwrap_or, IfSome, IfNone, length};
ghost use Rattle.broker_core.specs.Change.{with_version, on_branch};
ghost use Rattle.broker_core.specs.declared.command.Command.TheVariants.{PutVersion};
ghost use Rattle.broker_core.specs.declared.command.Version.{Version as VersionModel};
ghost use Rattle.broker_tables.specs.Failures.{LooksUp, LooksUpInPlace};
ghost use Rattle.broker_tables.specs.Holds.{Changes, ChangesTaking, ChangesAndAnswers};
ghost use Rattle.broker_tables.specs.ChangeRefusals.{FailsByStoreStoring, FailsByStoreChange, FailsByStoreTaking};
ghost use Rattle.broker_tables.specs.Numbers.{number_of};
ghost use Rattle.registry_tables.specs.Registry.{AllowsVersion, AddsVersion};
ghost use Rattle.command_facts.specs.Performs.{Carries};
ghost use Rattle.registry_commands.specs.Facts.{texts_of, IsNumberRead, IsRoomRead, IsNamingRead, CanJoin, AnswersPutVersion, NamesOrJoins, IsNamedApart, JoinsBranch, RecordsVersion};

use broker_core::answer::{Answer, Detail, Missing};
use broker_core::command::Version;
use broker_core::limit::room;
use broker_core::policy::{Caller, Rule};
use broker_names::name::Name;
use broker_tables::next_number;
use caller_facts::rules::{OwnerFacts, read_owner};
use command_facts::change::returned;
use registry_tables::{add_branch, insert_version, on_branch, version_count, version_of};
use sqlite::{Alter, Connection};
use table_access::StoreFault;

/// What the tables say of a version and a branch.
#[derive(Clone, Copy)]
struct NumberFacts {
    /// The version's number, if it is named.
    number: Option<u32>,
    /// Whether the named version is on the branch, or no branch is given.
    is_on_branch: bool,
}

/// How many versions there are.
#[derive(Clone, Copy)]
struct RoomFacts {
    /// The number of versions.
    count: u64,
    /// Whether there is room for one more.
    has_room: bool,
}

/// What naming a version asks of the tables.
#[derive(Clone, Copy)]
struct NamingFacts {
    owner: OwnerFacts,
    number: NumberFacts,
    versions: RoomFacts,
}

/// Whether the version with this number is on the branch; without a branch it needs to be on none.
fn read_branch<S: Alter>(
    conn: &mut Connection<S>,
    number: u32,
    branch: &Option<Name>,
) -> Result<bool, StoreFault>
    ensures { LooksUpInPlace S.Store conn.old conn.new result
        (λ on s. (v : VersionModel) → number_of s.versions v ≡ Some number
        → on_branch s v branch.now ≡ on) }
{
    match branch {
        Some(branch) => on_branch(conn, number, branch.as_str()),
        None => Ok(true),
    }
}

/// The version's number, and whether it is on the branch.
fn read_number<S: Alter>(
    conn: &mut Connection<S>,
    version: &Version,
    branch: &Option<Name>,
) -> Result<NumberFacts, StoreFault>
    ensures { LooksUpInPlace S.Store conn.old conn.new result
        (λ found s. IsNumberRead s version.now branch.now found) }
{
    match done!(version_of(conn, version.pacticipant.as_str(), version.name.as_str())) {
        Some(number) => Ok(NumberFacts {
            number: Some(number),
            is_on_branch: done!(read_branch(conn, number, branch)),
        }),
        None => Ok(NumberFacts {
            number: None,
            is_on_branch: false,
        }),
    }
}

/// How many versions there are, and whether there is room for one more.
fn read_room<S: Alter>(conn: &mut Connection<S>) -> Result<RoomFacts, StoreFault>
    ensures { LooksUpInPlace S.Store conn.old conn.new result (λ found s. IsRoomRead s found) }
{
    let count = done!(version_count(conn));
    Ok(RoomFacts {
        count,
        has_room: room(count),
    })
}

/// What naming a version asks of the tables.
fn read_naming_facts<S: Alter>(
    conn: &mut Connection<S>,
    caller: &Caller,
    version: &Version,
    branch: &Option<Name>,
) -> Result<NamingFacts, StoreFault>
    ensures { LooksUp S.Store conn.old conn.new result
        (λ found s. IsNamingRead s caller.now version.now branch.now found) }
{
    let owner = done!(read_owner(
        conn,
        caller,
        Rule::OwnerToPublish,
        &version.pacticipant,
        false
    ));
    let number = done!(read_number(conn, version, branch));
    let versions = done!(read_room(conn));
    Ok(NamingFacts {
        owner,
        number,
        versions,
    })
}

/// The answer if nothing changes; none if the version is named or put on the branch.
fn decide_put_version(facts: NamingFacts) -> Option<Answer>
    ensures unchanged { IfSome result (AnswersPutVersion facts) }
    ensures changes { IfNone result (NamesOrJoins facts) }
{
    if !facts.owner.has_pacticipant {
        return Some(Answer::Unknown(Missing::Pacticipant));
    }
    if !facts.owner.is_allowed {
        return Some(Answer::Denied(Rule::OwnerToPublish));
    }
    if facts.number.number.is_some() {
        if facts.number.is_on_branch {
            return Some(Answer::Already(Detail::Plain));
        }
        return None;
    }
    if !facts.versions.has_room {
        return Some(Answer::Full);
    }
    None
}

/// Adds the version with the number after so many.
fn add_after<S: Alter>(
    conn: &mut Connection<S>,
    version: &Version,
    count: u64,
) -> Result<u32, StoreFault>
    ensures changes { ChangesAndAnswers S.Store conn.old conn.new result
        (λ s. AllowsVersion version.now s × (count ≡ length s.versions)) (AddsVersion version.now) }
    ensures failure { FailsByStoreStoring S.Store conn.old conn.new result [] (texts_of version.now None)
        (λ s. AllowsVersion version.now s × (count ≡ length s.versions)) }
{
    let Some(number) = next_number(count) else {
        return Err(StoreFault::Store);
    };
    done!(insert_version(
        conn,
        number,
        version.pacticipant.as_str(),
        version.name.as_str(),
    ));
    Ok(number)
}

/// The version's number, which it gets if it has none.
fn ensure_version<S: Alter>(
    conn: &mut Connection<S>,
    version: &Version,
    branch: &Option<Name>,
    number: Option<u32>,
    count: u64,
) -> Result<u32, StoreFault>
    ensures changes { ChangesAndAnswers S.Store conn.old conn.new result
        (λ s. CanJoin s version.now branch.now number count)
        (IsNamedApart version.now branch.now) }
    ensures failure { FailsByStoreStoring S.Store conn.old conn.new result [] (texts_of version.now None)
        (λ s. CanJoin s version.now branch.now number count) }
{
    match number {
        Some(number) => Ok(number),
        None => add_after(conn, version, count),
    }
}

/// Puts the version with this number on the branch, if there is one.
fn put_on_branch<S: Alter>(
    conn: &mut Connection<S>,
    number: u32,
    branch: &Option<Name>,
) -> Result<(), StoreFault>
    ensures changes { Changes S.Store conn.old conn.new result (JoinsBranch number branch.now) }
    ensures failure { FailsByStoreChange S.Store conn.old conn.new result (codes "branches" ∷ []) (unwrap_or branch.now [] ∷ [])
        (JoinsBranch number branch.now) }
{
    match branch {
        Some(branch) => add_branch(conn, number, branch.as_str()),
        None => Ok(()),
    }
}

/// Names the version if it isn't named, and puts it on the branch.
fn record_version<S: Alter>(
    conn: &mut Connection<S>,
    version: &Version,
    branch: &Option<Name>,
    old_number: Option<u32>,
    count: u64,
) -> Result<(), StoreFault>
    ensures changes { ChangesTaking S.Store conn.old conn.new 4 result
        (RecordsVersion version.now branch.now old_number count) }
    ensures failure { FailsByStoreTaking S.Store conn.old conn.new 3 result (texts_of version.now branch.now)
        (λ s. CanJoin s version.now branch.now old_number count) }
{
    let number = done!(ensure_version(conn, version, branch, old_number, count));
    put_on_branch(conn, number, branch)
}

/// Names a version, or puts it on a branch, for its pacticipant's team; or answers why not, and nothing changes.
///
/// # Errors
/// `StoreFault::Memory` if an allocation failed or the database is out of memory; `StoreFault::Store` if the database
/// refused a statement, or a row breaks the rules of its table.
pub fn put_version<S: Alter>(
    conn: &mut Connection<S>,
    caller: &Caller,
    version: &Version,
    branch: &Option<Name>,
) -> Result<Answer, StoreFault>
    ensures { Carries S.Store conn.old conn.new result caller.now (PutVersion version.now branch.now) }
{
    let facts = done!(read_naming_facts(conn, caller, version, branch));
    match decide_put_version(facts) {
        Some(answer) => Ok(answer),
        None => returned(record_version(
            conn,
            version,
            branch,
            facts.number.number,
            facts.versions.count,
        )),
    }
}
