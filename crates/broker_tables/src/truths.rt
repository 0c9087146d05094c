//! Truth values, which the tables keep as 0 and 1.
ghost use Rattle.std.specs.Prelude.{◌≡◌, ◌==◌, ◌<◌, IfOk, IfErr, IsSomeAnd, option_map};
ghost use Rattle.broker_tables.specs.Rows.{truth, IsTruthAt, mark_of};

use sqlite::Row;
use table_access::{StoreFault, number_at};

/// The truth value of a number: 0 is false, and 1 true. `StoreFault::Store` for each other number, and for no other cause.
pub fn truth_of(found: Option<u32>) -> Result<Option<bool>, StoreFault>
    ensures ok { IfOk result (λ truth. truth ≡ option_map (λ n. n == 1) found) }
    ensures exact { IfOk result (λ truth. option_map mark_of truth ≡ found) }
    ensures cause { IfErr result
        (λ fault. (fault ≡ StoreFault.Store) × IsSomeAnd found (λ n. 1 < n)) }
{
    match found {
        None => Ok(None),
        Some(0) => Ok(Some(false)),
        Some(1) => Ok(Some(true)),
        Some(_) => Err(StoreFault::Store),
    }
}

/// The truth value in a column. `StoreFault::Store` exactly if there is no such column, or neither 0 nor 1 in it.
pub fn truth_at(row: &Row, at: usize) -> Result<bool, StoreFault>
    ensures ok { IfOk result (λ found. truth at row.now ≡ found) }
    ensures reads { IfOk result (λ _. IsTruthAt at row.now) }
    ensures cause { IfErr result (λ fault. (fault ≡ StoreFault.Store) × (¬ IsTruthAt at row.now)) }
{
    match number_at(row, at) {
        Ok(0) => Ok(false),
        Ok(1) => Ok(true),
        Ok(_) => Err(StoreFault::Store),
        Err(fault) => Err(fault),
    }
}
