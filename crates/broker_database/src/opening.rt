//! Making a broker's tables, and opening a database that a broker left.
ghost use Rattle.std.specs.Prelude.{◌≡◌, ◌++◌, ◌∷◌, [], ℕ, List, Err, IsTrue, Some, None, IfOk};
ghost use Rattle.sqlite.specs.State.{HasCleanDisk, Survives};
ghost use Rattle.sqlite.specs.Held.{state};
ghost use Rattle.table_access.specs.Calls.{CallsStore};
ghost use Rattle.table_access.specs.Durability.{HoldsDurably};
ghost use Rattle.table_access.specs.Statements.{MakesIndexes};
ghost use Rattle.broker_core.specs.State.{opening};
ghost use Rattle.broker_tables.specs.Schema.{registry_part, contents, contract_part, all_tables, all_indexes, schema_of};
ghost use Rattle.broker_tables.specs.Holds.{Holds, format};
ghost use Rattle.broker_tables.specs.Making.{IsBlank, HasTables, HasShortKeys, FailsByStoreOver};
ghost use Rattle.broker_tables.specs.ChangeRefusals.{AreShort};
ghost use Rattle.registry_tables.specs.Format.{FailsToFind, FailsOnlyFor};
ghost use Rattle.command_facts.specs.Primitives.{broker_primitives};
ghost use Rattle.broker_database.specs.Ends.{IsAsBefore, IsUnchangedUnless, CommitsAtMostOnce, LeavesNoTransaction};
ghost use Rattle.broker_tables.specs.Room.{HasAllNumbers};
ghost use Rattle.broker_database.specs.Opening as spec;
ghost use Rattle.broker_database.specs.Opening.{FindsToday, MakesRest, MakesOrFails, OnlyIfSilent, OnlyIfRefused, TablesMade, TablesFound, judgement};
ghost use Rattle.broker_database.specs.Transaction.{returned};

use crate::catalog::is_broker_schema;
use crate::ending::{Failure, conclude, undo};
use broker_names::name::Token;
use caller_facts::callers::digest_of;
use registry_tables::{format_of, is_blank, make_strict_environments};
use sqlite::{Alter, Connection};
use std::alloc::Global;
use table_access::{StoreFault, begin};
use thiserror::Error;

/// Why a database isn't made or opened as a broker's.
#[derive(Clone, Copy, Debug, PartialEq, Eq, Error)]
pub enum OpenFault {
    /// A table is there already, the broker's or another.
    #[error("the database has tables")]
    NotEmpty,
    /// There is no table `meta` with its columns, its key and exactly one row; or its format is today's, and the tables
    /// and indexes that are declared aren't exactly a broker's, or a view or a trigger is there; or, of a database that
    /// is to be migrated, a table of format 1 isn't there with its columns and its keys, or compares texts otherwise than by
    /// their bytes.
    #[error("not a broker's database")]
    NotABroker,
    /// The tables are of this other format.
    #[error("a broker's database of format {0}")]
    Format(u32),
    /// An allocation failed, or the database has no memory.
    #[error("out of memory")]
    Memory,
    /// The database refused a commit, or another call for another cause.
    #[error("the database failed")]
    Store,
}

/// Why there is no broker, with the connection handed back.
#[derive(Drop)]
pub struct Refused<S: Alter> {
    pub fault: OpenFault,
    pub connection: Connection<S>,
}

pub(crate) fn open_fault(fault: StoreFault) -> OpenFault
    ensures { result ≡ spec.open_fault fault }
{
    match fault {
        StoreFault::Memory => OpenFault::Memory,
        StoreFault::Store => OpenFault::Store,
    }
}

/// Makes the tables of the registry, of contents and of contracts.
fn make_first<S: Alter>(conn: &mut Connection<S>, digest: &str) -> Result<(), StoreFault>
    ensures makes { CallsStore S.Store conn.old conn.new result
        (λ _ old new. IsBlank old.now
        → HasTables (registry_part ++ contents ∷ contract_part) format digest.now new.now) }
    ensures failure { FailsByStoreOver S.Store conn.old conn.new result
        (λ db. IsBlank db × AreShort (digest.now ∷ [])) }
{
    done!(registry_tables::make_tables(conn, 2, digest));
    done!(content_store::make_tables(conn));
    contract_tables::make_tables(conn)
}

/// Makes the tables of what is deployed and released, of evidence and of strict environments.
fn make_rest<S: Alter>(conn: &mut Connection<S>) -> Result<(), StoreFault>
    ensures makes { CallsStore S.Store conn.old conn.new result
        (λ _ old new. MakesRest old.now new.now) }
    ensures failure { FailsByStoreOver S.Store conn.old conn.new result
        (λ db. (office : List ℕ) × HasTables (registry_part ++ contents ∷ contract_part) format office db) }
{
    done!(deploy_tables::make_tables(conn));
    done!(contract_tables::make_checked_results(conn));
    make_strict_environments(conn)
}

/// Makes the indexes, once all tables are made.
pub(crate) fn make_indexes<S: Alter>(conn: &mut Connection<S>) -> Result<(), StoreFault>
    ensures makes { CallsStore S.Store conn.old conn.new result
        (λ _ old new. old.now.schema ≡ schema_of all_tables
        → MakesIndexes all_indexes old.now new.now) }
    ensures failure { FailsByStoreOver S.Store conn.old conn.new result
        (λ db. (db.schema ≡ schema_of all_tables) × HasShortKeys db) }
{
    done!(content_store::make_index(conn));
    done!(contract_tables::make_indexes(conn));
    registry_tables::make_index(conn)
}

/// Makes all tables, and then the indexes.
fn make_all<S: Alter>(conn: &mut Connection<S>, digest: &str) -> Result<(), StoreFault>
    ensures makes { CallsStore S.Store conn.old conn.new result
        (λ _ old new. IsBlank old.now → Holds new.now (opening digest.now) × HasAllNumbers new.now) }
    ensures failure { FailsByStoreOver S.Store conn.old conn.new result
        (λ db. IsBlank db × AreShort (digest.now ∷ [])) }
{
    done!(make_first(conn, digest));
    done!(make_rest(conn));
    make_indexes(conn)
}

/// Makes all tables in one transaction.
fn make<S: Alter>(conn: &mut Connection<S>, digest: &str) -> Result<(), Failure>
    ensures ends { HasCleanDisk (state S.Store conn.new) → HoldsDurably IsBlank (state S.Store conn.old)
        → MakesOrFails digest.now (state S.Store conn.new) (returned result) }
    ensures unchanged { HasCleanDisk (state S.Store conn.new)
        → IsUnchangedUnless (λ _. Unit {0}) (state S.Store conn.old) (state S.Store conn.new) (returned result) }
    ensures failure { AreShort (digest.now ∷ [])
        → OnlyIfRefused (state S.Store) IsBlank (opening digest.now) conn.old conn.new result }
    ensures over { LeavesNoTransaction (state S.Store conn.old) (state S.Store conn.new) }
    ensures survives { CommitsAtMostOnce (state S.Store conn.old) (state S.Store conn.new) }
{
    match begin(conn) {
        Ok(()) => {},
        Err(fault) => return Err(Failure::Call(fault)),
    }
    let made = make_all(conn, digest);
    let keeps = made.is_ok();
    conclude(conn, made, keeps)
}

/// Makes the tables of a broker whose office has this token, on a database without tables.
///
/// `NotEmpty`: there is a table, an index or a view; nothing is read or changed. `Memory`: the database is as it was.
/// `Store`: the database refused the commit, or another call for another cause than memory; the last commit is the old
/// one, and after a refused commit a crash may leave the new tables.
pub fn create<S: Alter>(
    alloc: Global,
    conn: &mut Connection<S>,
    office: &Token,
) -> Result<(), OpenFault>
    ensures { TablesMade (state S.Store) conn.old conn.new (broker_primitives.digest_of office.now) result }
{
    if !is_blank(conn) {
        return Err(OpenFault::NotEmpty);
    }
    match digest_of(alloc, office.as_str()) {
        Ok(digest) => match make(conn, digest.as_str()) {
            Ok(()) => Ok(()),
            Err(failure) => Err(open_fault(failure.fault())),
        },
        Err(fault) => Err(open_fault(fault)),
    }
}

/// The judgement of a database that is to be of this format, by the format that was found.
pub(crate) fn judge_format(wanted: u32, found: Option<u32>) -> Result<(), OpenFault>
    ensures { result ≡ judgement wanted found }
{
    match found {
        None => Err(OpenFault::NotABroker),
        Some(number) => if number == wanted {
            Ok(())
        } else {
            Err(OpenFault::Format(number))
        },
    }
}

/// The format that the database is of, but `None` if it is today's and what is declared isn't exactly what a broker
/// declares; nothing is changed.
fn format_to_open<S: Alter>(conn: &mut Connection<S>) -> Result<Option<u32>, StoreFault>
    ensures finds { CallsStore S.Store conn.old conn.new result
        (λ found old new. FindsToday old.now found × (new.now ≡ old.now)) }
    ensures cause { FailsOnlyFor (state S.Store conn.old) (state S.Store conn.new) result FailsToFind }
{
    match done!(format_of(conn)) {
        Some(2) => Ok(if is_broker_schema(conn.schema()) {
            Some(2)
        } else {
            None
        }),
        found => Ok(found),
    }
}

/// The format that the database is of, if a broker's tables are there and nothing else; nothing is changed.
fn find_format<S: Alter>(conn: &mut Connection<S>) -> Result<Option<u32>, StoreFault>
    ensures found { HasCleanDisk (state S.Store conn.new)
        → IfOk result (λ found. IsTrue (state S.Store conn.old).is_open × FindsToday (state S.Store conn.old).now found) }
    ensures same { HasCleanDisk (state S.Store conn.new) → IsAsBefore (state S.Store conn.old) (state S.Store conn.new) }
    ensures failure { OnlyIfSilent (state S.Store conn.old) (state S.Store conn.new) (result ≡ Err StoreFault.Store) }
    ensures over { LeavesNoTransaction (state S.Store conn.old) (state S.Store conn.new) }
    ensures survives { Survives (state S.Store conn.old) (state S.Store conn.new) (λ _. ⊥) }
{
    done!(begin(conn));
    let found = format_to_open(conn);
    undo(conn, found)
}

/// Looks for a broker's tables of today's format, and changes nothing. A broker makes `meta` before each other table.
///
/// `NotABroker`: there is no table `meta` with its columns, its key and exactly one row; or its format is today's, and
/// what is declared isn't exactly what a broker declares: each table with its columns, CHECKs, keys and REFERENCES, and
/// each index, as SQLite reads the statements that make them, and no view, trigger or other object. `Format`: the format
/// in that row is this other one. `Memory` and `Store` as of [`create`]; `Store` also if the format isn't a number from 0 to
/// 2^32 - 1.
pub fn open<S: Alter>(conn: &mut Connection<S>) -> Result<(), OpenFault>
    ensures { TablesFound (state S.Store) conn.old conn.new result }
{
    match find_format(conn) {
        Ok(found) => judge_format(2, found),
        Err(fault) => Err(open_fault(fault)),
    }
}
