//! One write to a device.
ghost use Rattle.std.specs.Prelude.{◌≡◌, ◌<◌, ◌≤◌, ⊤, length, take, IfOk, IfErr, IsOkAnd, OnErr};
ghost use Rattle.std.specs.Io.KnownBytes.{Appends, Keeps};

use std::io::{self, Write};
use thiserror::Error;

/// The writer failed, or took none of the bytes that were left. A beginning of them is out, but not the whole. Only
/// `write_once` makes one, so that who hands one on has tried to write.
#[derive(Clone, Copy, Debug, PartialEq, Eq, Error)]
#[error("the writer failed")]
pub struct WriteFault(());

/// How many bytes a write took, or that it failed or took none.
fn taken(written: io::Result<usize>) -> Result<usize, WriteFault>
    ensures ok { IfOk result (λ count. (0 < count) × IsOkAnd written (λ n. n ≡ count)) }
    ensures err { IfErr result (λ _. IfOk written (λ n. n ≡ 0)) }
{
    match written {
        Ok(0) | Err(_) => Err(WriteFault(())),
        Ok(count) => Ok(count),
    }
}

/// A writer that may fail. Each writer is one.
pub trait FallibleWrite: Write {
    /// A write to it has failed, or it took none of the bytes. Of a writer at hand nothing is known.
    ghost HasFailed: { Self → Type 0 } = { λ _. ⊤ };

    /// Writes once, of at least one byte, and gives how many are out.
    fn write_once(&mut self, bytes: &[u8]) -> Result<usize, WriteFault>
        requires { 0 < length bytes.now }
        ensures count { IfOk result (λ n. (0 < n) × (n ≤ length bytes.now)) }
        ensures ok { IfOk result (λ n. Appends (Self.contents self.old) (Self.contents self.new) (take n bytes.now)) }
        ensures err { OnErr result (Keeps (Self.contents self.old) (Self.contents self.new)) }
        ensures failed { IfErr result (λ _. HasFailed self.new) };
}

impl<W: Write> FallibleWrite for W {
    fn write_once(&mut self, bytes: &[u8]) -> Result<usize, WriteFault> {
        taken(self.write(bytes))
    }
}
