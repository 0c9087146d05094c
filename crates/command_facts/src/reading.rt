//! Reading of a pact file and of recorded replies, as commands carry them.
ghost use Rattle.std.specs.Prelude.{◌≡◌, Some, Ok, Err, IfOk, IfErr};
ghost use Rattle.broker_core.specs.Machine.Reading.{IsPact, IsRefused};
ghost use Rattle.broker_core.specs.declared.command.FormFault.{FormFault as FormFaultModel};
ghost use Rattle.reply_check.specs.Replies.{RepliesRead};
ghost use Rattle.command_facts.specs.Readings.{reading_of, replies_fault, Reads, ReadsReplies};
ghost use Rattle.command_facts.specs.declared.reading.FileReadFault.TheVariants.{Form};

use broker_core::command::FormFault;
use broker_names::name::Text;
use pact_file::{Pact, PactFault, read_pact};
use reply_check::{Replies, RepliesFault, read_replies};
use std::alloc::{AllocError, Global};
use thiserror::Error;

/// What the broker takes from a pact file.
#[derive(Debug, Drop)]
pub struct ReadPact {
    /// The consumer's name.
    pub consumer: Text,
    /// The provider's name.
    pub provider: Text,
    /// The normal text.
    pub text: Text,
}

/// Why a pact file or replies weren't read.
#[derive(Debug, Drop, Error)]
pub enum FileReadFault {
    /// The first fault of the file or of the replies, with its number and its place.
    #[error("{0}")]
    Form(FormFault),
    /// No memory was left.
    #[error("out of memory")]
    Memory,
}

/// A copy of a text.
fn copy_of(alloc: Global, text: &str) -> Result<Text, AllocError>
    ensures { IfOk result (λ copy. copy ≡ text.now) }
{
    Ok(Text::new(String::from_str(alloc, text)?))
}

/// The names and the text of a normal pact.
fn parts_of(alloc: Global, pact: &Pact) -> Result<ReadPact, AllocError>
    ensures { IfOk result (λ p. IsPact p.consumer p.provider p.text ≡ reading_of (Ok pact.now)) }
{
    Ok(ReadPact {
        consumer: copy_of(alloc, pact.consumer())?,
        provider: copy_of(alloc, pact.provider())?,
        text: Text::new(pact.normal_text()?),
    })
}

/// The fault of a pact file as a fault of form.
fn pact_fault(alloc: Global, fault: PactFault) -> FileReadFault
    ensures { (f : FormFaultModel) → result ≡ Form f → (¬ (fault ≡ PactFault.Memory))
        × (IsRefused f ≡ reading_of (Err fault)) }
{
    match fault {
        PactFault::Memory => FileReadFault::Memory,
        fault => match fault.number(alloc) {
            Ok(number) => FileReadFault::Form(FormFault::Pact(Text::new(number))),
            Err(_) => FileReadFault::Memory,
        },
    }
}

/// Reads a pact file (Pact Specification, version 3) to its two names and its normal text. The bytes are any.
///
/// # Errors
/// `Form` gives the first fault of the file, by its number and, if it helps, its place; a pattern under `regex` in
/// matching rules may be refused too. Memory may run out in its place, and for the text of the fault.
pub fn read_pact_file(alloc: Global, file: &[u8]) -> Result<ReadPact, FileReadFault>
    ensures pact { IfOk result (λ p. Reads file.now (IsPact p.consumer p.provider p.text)) }
    ensures fault { IfErr result (λ e. (f : FormFaultModel) → e ≡ Form f → Reads file.now (IsRefused f)) }
{
    match read_pact(alloc, file) {
        Ok(pact) => match parts_of(alloc, &pact) {
            Ok(parts) => Ok(parts),
            Err(_) => Err(FileReadFault::Memory),
        },
        Err(fault) => Err(pact_fault(alloc, fault)),
    }
}

/// The fault of replies as a fault of form.
fn replies_fault_of(alloc: Global, fault: RepliesFault) -> FileReadFault
    ensures { (f : FormFaultModel) → result ≡ Form f → (¬ (fault ≡ RepliesFault.Memory))
        × (Some f ≡ replies_fault (Err fault)) }
{
    match fault {
        RepliesFault::Memory => FileReadFault::Memory,
        fault => match fault.number(alloc) {
            Ok(number) => FileReadFault::Form(FormFault::Replies(Text::new(number))),
            Err(_) => FileReadFault::Memory,
        },
    }
}

/// Reads recorded replies, the whole body of a command. The bytes are any.
///
/// # Errors
/// `Form` gives the first fault of the replies, by its number and, if it helps, its place. Memory may run out in its
/// place, and for the text of the fault.
pub fn read_replies_body(alloc: Global, body: &[u8]) -> Result<Replies, FileReadFault>
    ensures replies { IfOk result (λ replies. RepliesRead body.now (Ok replies)) }
    ensures fault { IfErr result (λ e. (f : FormFaultModel) → e ≡ Form f → ReadsReplies body.now (Some f)) }
{
    match read_replies(alloc, body) {
        Ok(replies) => Ok(replies),
        Err(fault) => Err(replies_fault_of(alloc, fault)),
    }
}
