//! A pact that is read and normalised.
ghost use Rattle.std.specs.Prelude.{Ok, string_bytes, IfOk};
ghost use Rattle.pact_rules.specs.Reading.{GivesOne};
ghost use Rattle.pact_file.specs.declared.fault.PactFault.TheVariants.{Memory};
ghost use Rattle.worked_examples.specs.Pacts.{NormalText};

use pact_file::laws::normal_again;
use pact_file::{PactFault, read_pact};
use std::alloc::Global;

/// The normal text of a pact file, by which files can be compared: two that differ only in metadata, blanks or order
/// have the same, and what is written so is written in the same way again (`stable`).
pub fn normal_text(alloc: Global, file: &[u8]) -> Result<String, PactFault>
    ensures text { GivesOne Memory (λ s. string_bytes s) result (NormalText file.now) }
    ensures stable { IfOk result (λ s. NormalText (string_bytes s) (Ok (string_bytes s))) }
{
    normal_again();
    let pact = read_pact(alloc, file)?;
    let text = pact.normal_text()?;
    Ok(text)
}
