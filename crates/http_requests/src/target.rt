//! The path and the query of a target.
ghost use Rattle.std.specs.Prelude.{◌≡◌};
ghost use Rattle.http_requests.specs.Requests.{path_of, query_of};

/// A target's part before its first question mark, and the part after it.
pub(crate) fn split_target(target: &[u8]) -> (&[u8], &[u8])
    ensures path { result.0.now ≡ path_of target.now }
    ensures query { result.1.now ≡ query_of target.now }
{
    match target.iter().position(|byte| *byte == b'?') {
        Some(end) => (&target[..end], &target[end + 1..]),
        None => (target, &[]),
    }
}
