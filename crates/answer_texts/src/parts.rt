//! What is under the keys of an answer's body.
ghost use Rattle.answer_texts.specs.Parts.{part_data};

use crate::writing::{ToJson, write_items};
use broker_core::answer::{DeployedItem, MatrixRow};
use broker_core::command::Version;
use broker_core::need::PairFault;
use json::Writer;
use std::alloc::AllocError;

/// What is under a key.
#[derive(Clone, Copy, Drop)]
pub(crate) enum Part<'a> {
    Text(&'a str),
    Number(u64),
    Truth(bool),
    Places(&'a [u64]),
    Faults(&'a [PairFault]),
    Deployed(&'a [DeployedItem]),
    Released(&'a [Version]),
    Rows(&'a [MatrixRow]),
}

impl ToJson for Part<'_> {
    ghost as_json = { part_data };

    fn write(&self, out: &mut Writer) -> Result<(), AllocError> {
        match self {
            Part::Text(text) => out.string(text),
            Part::Number(number) => out.u64(*number),
            Part::Truth(truth) => out.boolean(*truth),
            Part::Places(places) => write_items(out, places),
            Part::Faults(faults) => write_items(out, faults),
            Part::Deployed(deployed) => write_items(out, deployed),
            Part::Released(released) => write_items(out, released),
            Part::Rows(rows) => write_items(out, rows),
        }
    }
}
