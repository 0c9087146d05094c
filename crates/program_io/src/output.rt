//! Lines that a command writes.
ghost use Rattle.std.specs.Prelude.{◌++◌, IfErr, OnErr, OnOk};
ghost use Rattle.std.specs.Io.KnownBytes.{Appends};
ghost use Rattle.program_io.specs.Reported.{IsFromOutside};
ghost use Rattle.program_io.specs.Written.{IsBegun, IsLineOut, newline};

use crate::fault::RunFault;
use http_responses::{WriteFault, write_whole};
use std::io::Write;

/// Writes the text and a newline. If the writer fails, the rest of them is lost.
#[tactic(auto, using(crate::proofs::ResultLemmas::line_out))]
pub fn put_line<W: Write>(writer: &mut W, text: &str) -> Result<(), WriteFault>
    ensures { IsLineOut text.now result (W.contents writer.old) (W.contents writer.new) }
{
    write_whole(writer, text.as_bytes())?;
    write_whole(writer, b"\n")
}

/// Writes the text and a newline to a command's output. `File`: the writer failed.
pub fn write_line<W: Write>(output: &mut W, text: &str) -> Result<(), RunFault>
    ensures ok { OnOk result (Appends (W.contents output.old) (W.contents output.new) (text.now ++ newline)) }
    ensures err { OnErr result (IsBegun (text.now ++ newline) (W.contents output.old) (W.contents output.new)) }
    ensures cause { IfErr result IsFromOutside }
{
    match put_line(output, text) {
        Ok(()) => Ok(()),
        Err(_) => Err(RunFault::File),
    }
}
