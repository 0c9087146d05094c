//! Making today's database of one that a broker of format 1 left.
ghost use Rattle.std.specs.Prelude.{◌≡◌, ◌≢◌, ◌↔◌, [], length, Some, None, IsTrue, IsOkAnd, IfOk, IfErr};
ghost use Rattle.sqlite.specs.Held.{state};
ghost use Rattle.table_access.specs.Calls.{CallsStore};
ghost use Rattle.broker_core.specs.State.{State as BrokerState};
ghost use Rattle.broker_tables.specs.Making.{FailsByStoreOver};
ghost use Rattle.broker_tables.specs.Format1.{format_1, format_1_tables};
ghost use Rattle.broker_tables.specs.Schema.{broker_schema, schema_of};
ghost use Rattle.registry_tables.specs.Format.{BecomesFormat2, FailsToFind, FailsOnlyFor};
ghost use Rattle.broker_database.specs.Calls.{Migrated};
ghost use Rattle.broker_database.specs.Migration.{Migrates, MigratesOrNot, FindsFormat1Alone, CanBeMigrated, CanBeStoredAgain};
ghost use Rattle.broker_database.specs.Migration.{FailsToUpgrade, StoresFormat1};
ghost use Rattle.broker_database.specs.Opening.{OnlyIfRefused};
ghost use Rattle.broker_database.specs.Transaction.{returned};

use crate::catalog::{is_broker_schema, is_format_1_schema};
use crate::ending::{Failure, conclude};
use crate::opening::{OpenFault, judge_format, make_indexes, open_fault};
use crate::renewal::renew;
use registry_tables::format_to_migrate;
use sqlite::{Alter, Connection};
use sqlite_schema::schema::Schema;
use table_access::{StoreFault, begin};

/// Makes the tables that format 1 has not, and sets the format.
fn add_tables<S: Alter>(conn: &mut Connection<S>) -> Result<(), StoreFault>
    ensures adds { CallsStore S.Store conn.old conn.new result
        (λ _ old new. BecomesFormat2 [] old.now new.now) }
    ensures failure { FailsByStoreOver S.Store conn.old conn.new result CanBeMigrated }
{
    done!(contract_tables::to_format_2(conn));
    registry_tables::to_format_2(conn)
}

/// Makes the tables and the indexes that format 1 has not, and sets the format.
fn add_all<S: Alter>(conn: &mut Connection<S>) -> Result<(), StoreFault>
    ensures upgrades { CallsStore S.Store conn.old conn.new result
        (λ _ old new. Migrates old.now new.now) }
    ensures failure { FailsByStoreOver S.Store conn.old conn.new result CanBeMigrated }
{
    done!(add_tables(conn));
    make_indexes(conn)
}

/// Whether as many tables and indexes are declared as by a broker of format 1, and no view.
fn has_no_more(schema: &Schema) -> bool
    ensures { IsTrue result ↔ (length schema.now.tables ≡ 13) × (length schema.now.indexes ≡ 12)
        × (schema.now.views ≡ []) }
{
    schema.tables.len() == 13 && schema.indexes.len() == 12 && schema.views.as_slice().is_empty()
}

/// The format, but `None` if it is 1 and a table of it isn't there with its columns and keys, or anything else is.
fn format_to_upgrade<S: Alter>(conn: &mut Connection<S>) -> Result<Option<u32>, StoreFault>
    ensures finds { CallsStore S.Store conn.old conn.new result
        (λ found old new. FindsFormat1Alone old.now found × (new.now ≡ old.now)) }
    ensures cause { FailsOnlyFor (state S.Store conn.old) (state S.Store conn.new) result FailsToFind }
{
    match done!(format_to_migrate(conn)) {
        Some(1) => Ok(if has_no_more(conn.schema()) {
            Some(1)
        } else {
            None
        }),
        found => Ok(found),
    }
}

/// Makes the tables of format 1 again, if they aren't declared as a broker of that format declared them.
fn make_exact<S: Alter>(conn: &mut Connection<S>) -> Result<(), StoreFault>
    ensures makes { CallsStore S.Store conn.old conn.new result
        (λ _ old new. old.now.schema ≡ schema_of format_1_tables → new.now ≡ old.now) }
    ensures failure { FailsByStoreOver S.Store conn.old conn.new result CanBeMigrated }
{
    if is_format_1_schema(conn.schema()) {
        return Ok(());
    }
    renew(conn)
}

/// Whether what was made is declared as a new broker declares it.
fn confirm<S: Alter>(conn: &Connection<S>) -> Result<(), StoreFault>
    ensures ok { IfOk result (λ _. (state S.Store conn.now).now.schema ≡ broker_schema) }
    ensures err { IfErr result (λ fault. (fault ≡ StoreFault.Store)
        × ((state S.Store conn.now).now.schema ≢ broker_schema)) }
{
    if is_broker_schema(conn.schema()) {
        Ok(())
    } else {
        Err(StoreFault::Store)
    }
}

/// Makes a database of format 1 one of today's, which declares exactly what a new broker does.
fn make_today<S: Alter>(conn: &mut Connection<S>) -> Result<(), StoreFault>
    ensures upgrades { CallsStore S.Store conn.old conn.new result
        (λ _ old new. Migrates old.now new.now × (new.now.schema ≡ broker_schema)) }
    ensures failure { FailsByStoreOver S.Store conn.old conn.new result CanBeMigrated }
{
    done!(make_exact(conn));
    done!(add_all(conn));
    confirm(conn)
}

/// Looks for the format, and if it is 1 and only its tables are there, makes the database one of today's. The answer is
/// the format that was found.
fn upgrade<S: Alter>(conn: &mut Connection<S>) -> Result<Option<u32>, StoreFault>
    ensures upgrades { CallsStore S.Store conn.old conn.new result
        (λ found old new. FindsFormat1Alone old.now found × (found ≡ Some format_1
        → Migrates old.now new.now × (new.now.schema ≡ broker_schema))) }
    ensures cause { FailsOnlyFor (state S.Store conn.old) (state S.Store conn.new) result FailsToUpgrade }
    ensures failure { FailsByStoreOver S.Store conn.old conn.new result CanBeMigrated }
{
    match done!(format_to_upgrade(conn)) {
        Some(1) => {
            done!(make_today(conn));
            Ok(Some(1))
        },
        found => Ok(found),
    }
}

/// Whether the format that was found is 1, so that there is something to commit.
fn is_format_1(found: &Result<Option<u32>, StoreFault>) -> bool
    ensures { IsTrue result ↔ IsOkAnd found.now (λ format. format ≡ Some format_1) }
{
    matches!(found, Ok(Some(1)))
}

/// Upgrades a database in one transaction, which is committed if its format was 1, and else rolled back. The answer is
/// the format that was found.
fn run<S: Alter>(conn: &mut Connection<S>) -> Result<Option<u32>, Failure>
    ensures migrates { MigratesOrNot (state S.Store) conn.old conn.new (returned result) }
    ensures refused { (s : BrokerState) → CanBeStoredAgain s →
        OnlyIfRefused (state S.Store) (λ db. StoresFormat1 db s) s conn.old conn.new result }
{
    match begin(conn) {
        Ok(()) => {},
        Err(fault) => return Err(Failure::Call(fault)),
    }
    let found = upgrade(conn);
    let keeps = is_format_1(&found);
    conclude(conn, found, keeps)
}

/// Makes today's database of one that a broker of format 1 left, in one transaction. Each row stays; every result is
/// a claim of its sender, and no environment is strict. What each version is permitted in each environment, and what
/// can-i-deploy answers, stays as it was.
///
/// # Errors
/// `NotABroker`: there is no table `meta` with its columns, its key and exactly one row; or its format is 1, and a
/// table of that format isn't there, or has other columns or other keys, or a column that compares texts otherwise than
/// by their bytes (`COLLATE NOCASE`, `RTRIM`): a name would find another's row there; or anything else is there: another
/// table, an index but those of keys, a view, a trigger. `Format`: the format in that row
/// is this other one; today's is refused too. After both, and after `Memory`, the database is as it was.
/// `Store`: the database refused the commit, or another call for another cause than memory, or the format isn't a number
/// from 0 to 2^32 - 1; the last commit is the old one, and after a refused commit a crash may leave today's database,
/// whole. On a connection as it is opened, and a database that a broker of format 1 left, that is only if the store
/// failed, or if memory ran out for the commit: no table and no index is refused. On a database that isn't of format 1
/// nothing is committed, for any failure.
pub fn migrate<S: Alter>(conn: &mut Connection<S>) -> Result<(), OpenFault>
    ensures { Migrated (state S.Store) conn.old conn.new result }
{
    match run(conn) {
        Ok(found) => judge_format(1, found),
        Err(failure) => Err(open_fault(failure.fault())),
    }
}
