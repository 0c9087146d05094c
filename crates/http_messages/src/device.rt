//! One read of a device.
ghost use Rattle.std.specs.Prelude.{◌≡◌, ⊤, Ok, IsErr, IfErr, MatchResult};
ghost use Rattle.std.specs.Io.{ReadsAtMost};
ghost use Rattle.std.specs.Io.KnownBytes.{ReadConsumes};

use std::io::{self, Read};

/// The reader failed: its `read` gave an error. Only `read_once` makes one, so that who hands one on has read.
#[derive(Clone, Copy, Debug, PartialEq, Eq)]
pub struct ReaderFailed(());

/// How many bytes a read gave, or that it failed.
fn given(read: io::Result<usize>) -> Result<usize, ReaderFailed>
    ensures { MatchResult read (λ count. result ≡ Ok count) (λ _. IsErr result) }
{
    match read {
        Ok(count) => Ok(count),
        Err(_) => Err(ReaderFailed(())),
    }
}

/// A reader that may fail. Each reader is one.
pub trait FallibleRead: Read {
    /// A read of it has given an error. Of a reader at hand nothing is known.
    ghost HasFailed: { Self → Type 0 } = { λ _. ⊤ };

    /// Reads once.
    fn read_once(&mut self, buf: &mut [u8]) -> Result<usize, ReaderFailed>
        ensures bound { ReadsAtMost result buf.new }
        ensures bytes { ReadConsumes (Self.remaining self.old) (Self.remaining self.new) result buf.new }
        ensures failed { IfErr result (λ _. HasFailed self.new) };
}

impl<R: Read> FallibleRead for R {
    fn read_once(&mut self, buf: &mut [u8]) -> Result<usize, ReaderFailed> {
        given(self.read(buf))
    }
}
