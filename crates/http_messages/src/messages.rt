//! The head at the front of a stream.
ghost use Rattle.std.specs.Prelude.{◌≡◌, ℕ, ◌<◌, ◌≤◌, length, take, IfSome, IfNone};
ghost use Rattle.http_messages.specs.Limits.{head_limit};
ghost use Rattle.http_messages.specs.Messages.{IsHeadOf, HasNoHead};

use crate::lines::head_len;

/// How many bytes a head may have (this project's own limit).
pub const HEAD_LIMIT: usize = 16_384;

/// The length of the head, if it is there.
pub(crate) fn whole_head(bytes: &[u8]) -> Option<usize>
    ensures within { IfSome result (λ n. n ≤ length bytes.now) }
    ensures found { IfSome result (λ n. IsHeadOf bytes.now (take n bytes.now)) }
    ensures small { IfSome result (λ n. n ≤ head_limit) }
    ensures short { IfNone result (length bytes.now < head_limit) }
    ensures none { IfNone result (HasNoHead bytes.now) }
{
    let limited = &bytes[..HEAD_LIMIT.min(bytes.len())];
    match head_len(limited) {
        Some(head) => Some(head),
        None if bytes.len() < HEAD_LIMIT => None,
        None => Some(HEAD_LIMIT),
    }
}
