//! Environments and their two marks: whether the gate judges what comes in, and whether it trusts only checked results.
ghost use Rattle.std.specs.Prelude.{◌≡◌, ◌==◌, [], ◌∷◌, codes, false, Option, Bool, Some, IfOk, option_map, is_some};
ghost use Rattle.sqlite.specs.Held.{state};
ghost use Rattle.sqlite.specs.State.{HasCleanDisk};
ghost use Rattle.broker_core.specs.declared.command.Marks.{Marks as MarksModel};
ghost use Rattle.broker_tables.specs.Holds.{Changes, ChangesTaking};
ghost use Rattle.broker_tables.specs.Rows.{mark_of};
ghost use Rattle.broker_tables.specs.Failures.{LooksUpInPlace};
ghost use Rattle.registry_tables.specs.Marks.{ReportsMark, FitsMark};
ghost use Rattle.broker_tables.specs.ChangeRefusals.{FailsByStoreStoring, FailsByStoreChange};
ghost use Rattle.registry_tables.specs.Registry.{AddsEnvironment, IsLenient, KeepsStrict, marks, MakesStrict};

use broker_core::command::Marks;
use broker_tables::truth_of;
use sqlite::{Alter, Connection, params};
use table_access::{StoreFault, change, find_number, has_row};

/// Whether the environment is gated, or `None` if there is no such environment. A mark that is neither 0 nor 1 is never
/// taken for one of both, with any CHECKs in the tables.
///
/// # Errors
/// `StoreFault::Memory` if the database is out of memory; `StoreFault::Store` if it failed or holds no truth value
/// there, and only then.
pub fn gated<S: Alter>(
    conn: &mut Connection<S>,
    environment: &str,
) -> Result<Option<bool>, StoreFault>
    ensures answers { LooksUpInPlace S.Store conn.old conn.new result
        (λ found s. found ≡ option_map (λ m. m.gated) (s.environments environment.now)) }
    ensures mark { ReportsMark environment.now (state S.Store conn.old) (state S.Store conn.new) result }
{
    let found = done!(find_number(
        conn,
        "SELECT gated FROM environments WHERE name = ?1",
        params![environment],
    ));
    truth_of(found)
}

/// Whether an environment that is there is strict.
fn is_strict<S: Alter>(conn: &mut Connection<S>, environment: &str) -> Result<bool, StoreFault>
    ensures { LooksUpInPlace S.Store conn.old conn.new result
        (λ strict s. (m : MarksModel) → s.environments environment.now ≡ Some m → strict ≡ m.strict) }
{
    has_row(
        conn,
        "SELECT environment FROM strict_environments WHERE environment = ?1",
        params![environment],
    )
}

/// The marks of the environment, or `None` if there is no such environment. As with `gated`, a mark that is neither 0
/// nor 1 is never taken for one of both.
///
/// # Errors
/// `StoreFault::Memory` if the database is out of memory; `StoreFault::Store` if it refused a query or holds no truth
/// value there, and only then.
pub fn marks_of<S: Alter>(
    conn: &mut Connection<S>,
    environment: &str,
) -> Result<Option<Marks>, StoreFault>
    ensures answers { LooksUpInPlace S.Store conn.old conn.new result
        (λ found s. found ≡ s.environments environment.now) }
    ensures mark { FitsMark environment.now (state S.Store conn.old) (state S.Store conn.new) result
        (λ found gated. gated ≡ option_map (λ m. m.gated) found) }
{
    match done!(gated(conn, environment)) {
        Some(gated) => {
            let strict = done!(is_strict(conn, environment));
            Ok(Some(Marks { gated, strict }))
        },
        None => Ok(None),
    }
}

/// Whether the environment is strict, or `None` if there is no such environment. Of one whose mark `gated` is neither 0
/// nor 1 it isn't said.
///
/// # Errors
/// `StoreFault::Memory` if the database is out of memory; `StoreFault::Store` if it refused a query or holds no truth
/// value as the mark `gated`, and only then.
pub fn strict_of<S: Alter>(
    conn: &mut Connection<S>,
    environment: &str,
) -> Result<Option<bool>, StoreFault>
    ensures answers { LooksUpInPlace S.Store conn.old conn.new result
        (λ found s. found ≡ option_map (λ m. m.strict) (s.environments environment.now)) }
    ensures mark { FitsMark environment.now (state S.Store conn.old) (state S.Store conn.new) result
        (λ found gated. is_some gated ≡ is_some found) }
{
    match done!(marks_of(conn, environment)) {
        Some(marks) => Ok(Some(marks.strict)),
        None => Ok(None),
    }
}

/// The number of a truth value.
fn number_for(truth: bool) -> u32
    ensures { result ≡ mark_of truth }
{
    if truth { 1 } else { 0 }
}

/// Puts in an environment that isn't strict.
#[tactic(auto, unfolding(sqlite_tied::specs::Compute::everything))]
fn put_environment<S: Alter>(
    conn: &mut Connection<S>,
    environment: &str,
    gated: bool,
) -> Result<(), StoreFault>
    ensures changes { ChangesTaking S.Store conn.old conn.new 1 result
        (AddsEnvironment environment.now (marks gated false)) }
    ensures strict { HasCleanDisk (state S.Store conn.new) → IfOk result
        (λ _. KeepsStrict environment.now (state S.Store conn.old).now (state S.Store conn.new).now) }
    ensures failure { FailsByStoreChange S.Store conn.old conn.new result (codes "environments" ∷ []) (environment.now ∷ [])
        (AddsEnvironment environment.now (marks gated false)) }
{
    let mark = number_for(gated);
    change(
        conn,
        "INSERT INTO environments (name, gated) VALUES (?1, ?2)",
        params![environment, mark],
    )
}

/// Makes an environment strict.
#[tactic(auto, unfolding(sqlite_tied::specs::Compute::everything))]
fn put_strict<S: Alter>(conn: &mut Connection<S>, environment: &str) -> Result<(), StoreFault>
    ensures changes { ChangesTaking S.Store conn.old conn.new 1 result (MakesStrict environment.now) }
    ensures failure { FailsByStoreStoring S.Store conn.old conn.new result (codes "strict_environments" ∷ []) (environment.now ∷ [])
        (IsLenient environment.now) }
{
    change(
        conn,
        "INSERT INTO strict_environments (environment) VALUES (?1)",
        params![environment],
    )
}

/// Adds an environment of a new name with its two marks.
///
/// # Errors
/// `StoreFault::Memory` if the database is out of memory; `StoreFault::Store` if it refused a row.
pub fn add_environment<S: Alter>(
    conn: &mut Connection<S>,
    environment: &str,
    gated: bool,
    strict: bool,
) -> Result<(), StoreFault>
    ensures changes { Changes S.Store conn.old conn.new result (AddsEnvironment environment.now (marks gated strict)) }
    ensures failure { FailsByStoreChange S.Store conn.old conn.new result (codes "environments" ∷ codes "strict_environments" ∷ [])
        (environment.now ∷ []) (AddsEnvironment environment.now (marks gated strict)) }
{
    done!(put_environment(conn, environment, gated));
    if strict {
        put_strict(conn, environment)
    } else {
        Ok(())
    }
}
