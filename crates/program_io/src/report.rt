//! What standard error shows of a command that failed.
ghost use Rattle.pact_file.specs.Words.{parts_text};
ghost use Rattle.program_io.specs.Reported.{IsReported};
ghost use Rattle.program_io.specs.Written.{IsLineOut};

use crate::fault::RunFault;
use crate::output::put_line;
use crate::parts::fault_parts;
use http_responses::{WriteFault, write_whole};
use itoa::Buffer;
use pact_file::TextParts;
use std::io::Write;

/// Writes a text and a newline, part by part.
#[tactic(auto, using(crate::proofs::ResultLemmas::line_after))]
fn put_parts<W: Write>(writer: &mut W, parts: TextParts<'_>) -> Result<(), WriteFault>
    ensures { IsLineOut (parts_text parts.entry) result (W.contents writer.old) (W.contents writer.new) }
{
    match parts {
        TextParts::Plain(text) => put_line(writer, text),
        TextParts::Numbered(front, number, following, end) => {
            write_whole(writer, front.as_bytes())?;
            write_whole(writer, Buffer::new().format(number).as_bytes())?;
            write_whole(writer, following.as_bytes())?;
            put_line(writer, end)
        }
    }
}

/// Reports the fault as one line, which takes no memory. If the writer fails, the rest of the line is lost.
#[tactic(auto, using(crate::proofs::ResultLemmas::line_after))]
pub fn report<E: Write>(fault: &RunFault, errors: &mut E) -> Result<(), WriteFault>
    ensures { IsReported fault.now result (E.contents errors.old) (E.contents errors.new) }
{
    let (word, parts) = fault_parts(fault);
    write_whole(errors, word.as_bytes())?;
    put_parts(errors, parts)
}
