//! The normal text of a pact file.
ghost use Rattle.std.specs.Prelude.{◌≡◌, ◌⊎◌, Ok, IfErr, IfOk, OnErr, OnOk, string_bytes};
ghost use Rattle.pact_file.specs.Normal.{Normal};
ghost use Rattle.program_io.specs.Reported.{FailsToNormalise, IsFromOutside, IsPactFault};
ghost use Rattle.program_io.specs.Written.{BeginsNormalText, IsNormalText, Normalises, NormalisesUntil};
ghost use Rattle.program_io.specs.Written.{ReportsNormalText};

use crate::bounded::read_most;
use crate::fault::RunFault;
use crate::output::write_line;
use pact_file::{Pact, read_pact};
use std::alloc::Global;
use std::io::{Read, Write};

/// The pact of a pact file.
pub(crate) fn pact_of(alloc: Global, file: &[u8]) -> Result<Pact, RunFault>
    ensures ok { IfOk result (λ pact. Normal file.now (Ok pact)) }
    ensures err { IfErr result (IsPactFault file.now) }
{
    match read_pact(alloc, file) {
        Ok(pact) => Ok(pact),
        Err(fault) => Err(RunFault::Pact(fault)),
    }
}

/// The normal text of a pact file.
fn normal_text_of(alloc: Global, file: &[u8]) -> Result<String, RunFault>
    ensures ok { IfOk result (λ text. IsNormalText file.now (string_bytes text)) }
    ensures err { IfErr result (λ f. IsFromOutside f ⊎ IsPactFault file.now f) }
{
    let pact = pact_of(alloc, file)?;
    match pact.normal_text() {
        Ok(text) => Ok(text),
        Err(_) => Err(RunFault::Memory),
    }
}

/// Writes the normal text of a pact file, and a newline.
fn write_normal_text<W: Write>(alloc: Global, file: &[u8], output: &mut W) -> Result<(), RunFault>
    ensures ok { OnOk result (ReportsNormalText file.now (W.contents output.old) (W.contents output.new)) }
    // Nothing was written, or a beginning of the normal text.
    ensures err { OnErr result ((output.new ≡ output.old)
        ⊎ BeginsNormalText file.now (W.contents output.old) (W.contents output.new)) }
    ensures cause { IfErr result (λ f. IsFromOutside f ⊎ IsPactFault file.now f) }
{
    let text = normal_text_of(alloc, file)?;
    write_line(output, text.as_str())
}

/// Writes the normal text of the pact file that the reader gives, and a newline. Of one that is too long, no more is read
/// than shows it.
pub fn normalise<R: Read, W: Write>(
    alloc: Global,
    input: &mut R,
    output: &mut W,
) -> Result<(), RunFault>
    ensures ok { OnOk result (Normalises (R.remaining input.old) (R.remaining input.new)
        (W.contents output.old) (W.contents output.new)) }
    // Nothing was written, or a beginning of the normal text.
    ensures err { OnErr result ((output.new ≡ output.old)
        ⊎ NormalisesUntil (R.remaining input.old) (R.remaining input.new)
        (W.contents output.old) (W.contents output.new)) }
    ensures cause { IfErr result (FailsToNormalise (R.remaining input.old) (R.remaining input.new)) }
{
    let file = read_most(alloc, input)?;
    write_normal_text(alloc, file.as_slice(), output)
}
