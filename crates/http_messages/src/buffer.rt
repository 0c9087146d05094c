//! The bytes of a stream that were read and aren't taken yet.
ghost use Rattle.std.specs.Prelude.{◌≡◌, ◌+◌, ◌<◌, ◌≤◌, ◌==◌, ◌++◌, [], length, drop, vec_len, IfOk, OnOk, OnErr};
ghost use Rattle.http_messages.specs.Limits.{head_limit};

use crate::messages::HEAD_LIMIT;
use std::alloc::{AllocError, Global};
use std::marker::Model;

/// The bytes of a stream that were read and aren't taken yet. A contract sees them as a list, its `items`.
///
/// What is taken stays in front of them until more is read, so that a message moves nothing if it came with others.
/// There is room for a head from the first on, so that to read one takes no more memory.
#[derive(Drop)]
pub struct Buffer {
    bytes: Vec<u8>,
    /// How many of the bytes are taken.
    taken: usize,
}

impl Model for Buffer {
    ghost use Rattle.std.specs.Prelude.{◌≤◌, drop, vec_capacity, vec_len};
    ghost use Rattle.http_messages.specs.Buffer.{Unread};
    ghost use Rattle.http_messages.specs.Limits.{head_limit};

    ghost Value = { Unread };

    ghost view = { λ b. record { items = drop b.taken b.bytes.items } };

    ghost invariant = { λ b. (b.taken ≤ vec_len b.bytes) × (head_limit ≤ vec_capacity b.bytes) };
}

impl Buffer {
    /// A buffer without bytes. An `Err` means out of memory.
    pub fn new(alloc: Global) -> Result<Buffer, AllocError>
        ensures { IfOk result (λ buffer. buffer.items ≡ []) }
    {
        let bytes = Vec::with_capacity(alloc, HEAD_LIMIT)?;
        Ok(Buffer { bytes, taken: 0 })
    }

    /// The bytes that aren't taken.
    pub fn as_slice(&self) -> &[u8]
        ensures { result.now ≡ self.now.items }
    {
        &self.bytes[self.taken..]
    }

    /// How many they are.
    pub(crate) fn len(&self) -> usize
        ensures { result ≡ length self.now.items }
    {
        self.bytes.len() - self.taken
    }

    /// Whether there are none.
    pub fn is_empty(&self) -> bool
        ensures { result ≡ (length self.now.items == 0) }
    {
        self.bytes.len() == self.taken
    }

    /// Puts bytes after them. An `Err` means out of memory, which comes only if they are more than a head's limit then.
    pub(crate) fn extend(&mut self, bytes: &[u8]) -> Result<(), AllocError>
        ensures ok { OnOk result (self.new.items ≡ self.old.items ++ bytes.now) }
        ensures err { OnErr result (self.new.items ≡ self.old.items) }
        ensures full { OnErr result (head_limit < length self.old.items + length bytes.now) }
    {
        self.bytes.drain(..self.taken);
        self.taken = 0;
        self.bytes.extend_from_slice(bytes)
    }
}

/// Takes the first bytes away, of which there are as many. It moves none of the others.
pub fn drop_front(buffer: &mut Buffer, count: usize)
    requires { count ≤ length buffer.old.items }
    ensures { buffer.new.items ≡ drop count buffer.old.items }
{
    buffer.taken += count;
}
