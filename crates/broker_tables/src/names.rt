//! Texts and names in a row of an answer.
ghost use Rattle.std.specs.Prelude.{◌≡◌, ◌↔◌, IfOk, IfErr, IsTrue, string_bytes};
ghost use Rattle.sqlite.specs.Order.{column};
ghost use Rattle.sqlite.specs.declared.types.Value.TheVariants.{Text as SqlText};
ghost use Rattle.table_access.specs.Reading.{IsTextAt};
ghost use Rattle.broker_tables.specs.Names.{IsNameAt};

use broker_names::name::{Name, NameFault};
use sqlite::Row;
use std::alloc::Global;
use table_access::{StoreFault, text_at};

/// The text in a column of an answer, counted from 0.
///
/// # Errors
/// `StoreFault::Store` if and only if the row has no such column, or it holds no text; `StoreFault::Memory` if there is
/// no memory for the text.
pub fn text_in(alloc: Global, row: &Row, at: usize) -> Result<String, StoreFault>
    ensures ok { IfOk result (λ text. column row.now at ≡ SqlText (string_bytes text)) }
    ensures cause { IfErr result (λ f. (f ≡ StoreFault.Store) ↔ (¬ IsTextAt at row.now)) }
{
    match text_at(row, at) {
        Some(text) => match String::from_str(alloc, text) {
            Ok(text) => Ok(text),
            Err(_) => Err(StoreFault::Memory),
        },
        None => Err(StoreFault::Store),
    }
}

/// Whether a column of an answer, counted from 0, holds a name. No memory is taken.
pub fn has_name(row: &Row, at: usize) -> bool
    ensures { IsTrue result ↔ IsNameAt at row.now }
{
    match text_at(row, at) {
        Some(text) => Name::is_valid(text),
        None => false,
    }
}

/// The name in a column of an answer, counted from 0.
///
/// # Errors
/// `StoreFault::Store` if and only if the row has no such column, or it holds no name; `StoreFault::Memory` if there is
/// no memory for the name.
pub fn name_in(alloc: Global, row: &Row, at: usize) -> Result<Name, StoreFault>
    ensures ok { IfOk result (λ name. (column row.now at ≡ SqlText name) × IsNameAt at row.now) }
    ensures cause { IfErr result (λ f. (f ≡ StoreFault.Store) ↔ (¬ IsNameAt at row.now)) }
{
    match text_at(row, at) {
        Some(text) => match Name::new(alloc, text) {
            Ok(name) => Ok(name),
            Err(NameFault::Memory) => Err(StoreFault::Memory),
            Err(NameFault::BadName) => Err(StoreFault::Store),
        },
        None => Err(StoreFault::Store),
    }
}
