//! Making tables and indexes by their texts.
ghost use Rattle.std.specs.Prelude.{map};
ghost use Rattle.std.specs.List.{AllByRecursion};
ghost use Rattle.sqlite_resolve.specs.Compile.{first};
ghost use Rattle.table_access.specs.Calls.{CallsStore};
ghost use Rattle.table_access.specs.Writes.{IsWriteText};
ghost use Rattle.broker_tables.specs.Making.{MakesTexts, CanMake, FailsByStoreOver};

use sqlite::{Alter, Connection};
use table_access::{StoreFault, change};

/// Runs texts of [`crate::create`] that follow on one another there, once those before them are made. The tables that
/// are there keep their rows.
///
/// # Errors
/// `StoreFault::Memory` if the database is out of memory; `StoreFault::Store` if it refused a text. It refuses none
/// unless the store fails, if the tables, or the indexes, come next and each entry of an index can be stored.
pub fn make_each<S: Alter>(conn: &mut Connection<S>, texts: &[&str]) -> Result<(), StoreFault>
    requires { AllByRecursion (λ text. IsWriteText (first text.now)) texts.now }
    ensures makes { CallsStore S.Store conn.old conn.new result
        (λ _ old new. MakesTexts (map (λ text. text.now) texts.now) old.now new.now) }
    ensures failure { FailsByStoreOver S.Store conn.old conn.new result (CanMake (map (λ text. text.now) texts.now)) }
{
    for text in texts {
        match change(conn, text, &[]) {
            Ok(()) => {}
            Err(fault) => return Err(fault),
        }
    }
    Ok(())
}
