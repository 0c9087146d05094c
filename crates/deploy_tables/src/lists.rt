//! Lists that are put together.
ghost use Rattle.std.specs.Prelude.{◌≡◌, ◌++◌, IfOk, IfErr, Contains};
ghost use Rattle.std.specs.Ordering.{nat_cmp};
ghost use Rattle.broker_core.specs.Listing.{Lists};

use table_access::StoreFault;

/// Puts more items at the end. An `Err` is out of memory.
pub(crate) fn add<T: Drop>(found: &mut Vec<T>, more: Vec<T>) -> Result<(), StoreFault>
    ensures added { IfOk result (λ _. found.new.items ≡ found.old.items ++ more.items) }
    ensures cause { IfErr result (λ f. f ≡ StoreFault.Memory) }
{
    let mut more = more;
    match found.append(&mut more) {
        Ok(()) => Ok(()),
        Err(_) => Err(StoreFault::Memory),
    }
}

/// These numbers, each once, rising.
pub(crate) fn each_number_once(numbers: Vec<u32>) -> Vec<u32>
    ensures { Lists nat_cmp (Contains numbers.items) result.items }
{
    let mut numbers = numbers;
    numbers.sort_unstable();
    numbers.dedup();
    numbers
}
