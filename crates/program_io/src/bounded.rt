//! Reading a file that may be too long.
ghost use Rattle.std.specs.Prelude.{◌≡◌, ◌+◌, ◌<◌, ◌≤◌, [], false, length, IfErr, IfOk, OnOk};
ghost use Rattle.std.specs.Io.KnownBytes.{IsAtEnd};
ghost use Rattle.http_messages.specs.Reading.{Gains};
ghost use Rattle.program_io.specs.Reported.{IsFromOutside, IsReadFault};
ghost use Rattle.program_io.specs.Written.{IsFrontOf, IsReadUpTo};

use crate::fault::RunFault;
use std::alloc::Global;
use std::io::{ErrorKind, Read};

/// How many bytes of a file are read at most: as many as it may have, and one more, by which it is seen to be too long.
pub const MOST_READ: usize = 1_048_577;

/// How many bytes one read gives at most.
const PIECE: usize = 16_384;

/// What a read of a file that failed so is reported as: `Memory` only if that was the error.
pub(crate) fn fault_of_read(kind: ErrorKind) -> RunFault
    ensures { IsReadFault kind result }
{
    match kind {
        ErrorKind::OutOfMemory => RunFault::Memory,
        _ => RunFault::File,
    }
}

/// Reads once, at most so many bytes, and says whether more may follow. A read that a signal cuts short gives none.
fn read_piece<R: Read>(input: &mut R, bytes: &mut Vec<u8>, most: usize) -> Result<bool, RunFault>
    requires { 0 < most }
    ensures gains { OnOk result (Gains (R.remaining input.old) (R.remaining input.new) bytes.old.items bytes.new.items) }
    ensures most { length bytes.new.items ≤ length bytes.old.items + most }
    ensures end { IfOk result (λ follows. follows ≡ false → IsAtEnd (R.remaining input.new)) }
    ensures cause { IfErr result IsFromOutside }
{
    let mut piece = [0u8; PIECE];
    let most = most.min(PIECE);
    match input.read(&mut piece[..most]) {
        Ok(0) => Ok(false),
        Ok(count) => match bytes.extend_from_slice(&piece[..count]) {
            Ok(()) => Ok(true),
            Err(_) => Err(RunFault::Memory),
        },
        Err(error) if error.kind() == ErrorKind::Interrupted => Ok(true),
        Err(error) => Err(fault_of_read(error.kind())),
    }
}

/// Reads to the end, or until there are `MOST_READ` bytes.
fn read_bounded<R: Read>(alloc: Global, input: &mut R) -> Result<Vec<u8>, RunFault>
    ensures ok { IfOk result (λ bytes. IsReadUpTo (R.remaining input.old) (R.remaining input.new) bytes.items) }
    ensures most { IfOk result (λ bytes. length bytes.items ≤ MOST_READ) }
    ensures cause { IfErr result IsFromOutside }
{
    let mut bytes = Vec::new(alloc);
    for _ in 0..u64::MAX {
        let most = MOST_READ.saturating_sub(bytes.len());
        if most == 0 || !read_piece(input, &mut bytes, most)? {
            return Ok(bytes);
        }
    }
    Err(RunFault::File)
}

/// All that the reader gives, or if it is more than a file may have, `MOST_READ` bytes of it.
pub(crate) fn read_most<R: Read>(alloc: Global, input: &mut R) -> Result<Vec<u8>, RunFault>
    ensures ok { IfOk result (λ bytes. IsReadUpTo (R.remaining input.old) (R.remaining input.new) bytes.items) }
    ensures front { IfOk result (λ bytes. IsFrontOf (R.remaining input.old) bytes.items) }
    ensures most { IfOk result (λ bytes. length bytes.items ≤ MOST_READ) }
    ensures cause { IfErr result IsFromOutside }
{
    read_bounded(alloc, input)
}
