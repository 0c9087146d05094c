//! The text of each fault, in parts, so that no memory is needed to write it.
ghost use Rattle.std.specs.Prelude.{◌≡◌, ◌++◌};
ghost use Rattle.pact_file.specs.Words.{parts_text};
ghost use Rattle.program_io.specs.Faults.{fault_text, opening_text, serving_text as spec_serving_text};

use crate::fault::RunFault;
use broker_database::OpenFault;
use broker_http::StreamFault;
use pact_file::{PactFault, TextParts};
use reply_check::RepliesFault;

/// A fault of opening.
fn opening_parts(fault: OpenFault) -> TextParts<'static>
    ensures { parts_text result ≡ opening_text fault }
{
    match fault {
        OpenFault::NotEmpty => TextParts::Plain("open 1"),
        OpenFault::NotABroker => TextParts::Plain("open 2"),
        OpenFault::Format(format) => TextParts::Numbered("open 3.", format as usize, "", ""),
        OpenFault::Memory => TextParts::Plain("open 4"),
        OpenFault::Store => TextParts::Plain("open 5"),
    }
}

/// The text of a fault of serving.
fn serving_text(fault: StreamFault) -> &'static str
    ensures { result.now ≡ spec_serving_text fault }
{
    match fault {
        StreamFault::Read(_) | StreamFault::Turn(_) | StreamFault::Count => "serve 1",
        StreamFault::Write(_) => "serve 2",
        StreamFault::Memory => "serve 3",
    }
}

/// The text of a fault: a word, if a number follows it, and the rest.
pub(crate) fn fault_parts<'a>(fault: &'a RunFault) -> (&'static str, TextParts<'a>)
    ensures { result.0.now ++ parts_text result.1 ≡ fault_text fault.now }
{
    let text = match fault {
        RunFault::Pact(PactFault::Memory) | RunFault::Replies(RepliesFault::Memory) => "memory",
        RunFault::Pact(fault) => return ("pact ", fault.parts()),
        RunFault::Replies(fault) => return ("replies ", fault.parts()),
        RunFault::Open(fault) => return ("", opening_parts(*fault)),
        RunFault::Token => "token",
        RunFault::Name => "name",
        RunFault::File => "file",
        RunFault::Listen => "listen",
        RunFault::Serve(fault) => serving_text(*fault),
        RunFault::Check(fault) => fault.text(),
        RunFault::Answer(answer) => answer.body(),
        RunFault::Memory => "memory",
    };
    ("", TextParts::Plain(text))
}
