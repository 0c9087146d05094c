//! The numbers of rows that are numbered from 1.
ghost use Rattle.std.specs.Prelude.{◌≡◌, ◌+◌, ◌≤◌, IfSome, IfNone};

/// The number after so many, if there is one: rows are numbered below 2^32.
pub fn next_number(count: u64) -> Option<u32>
    ensures some { IfSome result (λ n. n ≡ count + 1) }
    ensures none { IfNone result (4294967295 ≤ count) }
{
    if count < 4_294_967_295 {
        Some(count as u32 + 1)
    } else {
        None
    }
}
