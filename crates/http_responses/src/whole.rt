//! Writing whole texts to a device.
ghost use Rattle.std.specs.Prelude.{◌≡◌, ℕ, ◌<◌, ◌≤◌, length, take, IfErr, OnOk, OnErr};
ghost use Rattle.std.specs.Io.KnownBytes.{Appends};

use crate::writing::{FallibleWrite, WriteFault};

/// Writes all of the bytes, or fails before the last is out.
pub fn write_whole<W: FallibleWrite>(writer: &mut W, bytes: &[u8]) -> Result<(), WriteFault>
    ensures ok { OnOk result (Appends (W.contents writer.old) (W.contents writer.new) bytes.now) }
    ensures err { OnErr result ((n : ℕ) × (n < length bytes.now)
        × Appends (W.contents writer.old) (W.contents writer.new) (take n bytes.now)) }
    ensures failed { IfErr result (λ _. W.HasFailed writer.new) }
{
    let mut done = 0;
    while done < bytes.len() {
        match writer.write_once(&bytes[done..]) {
            Ok(count) => done += count,
            Err(fault) => return Err(fault),
        }
    }
    Ok(())
}
