//! Comparison of recorded replies with a stored pact.
ghost use Rattle.std.specs.Prelude.{◌≡◌, ℕ, List, false, Ok, Err, IfOk, IfErr, IsTrue};
ghost use Rattle.pact_file.specs.Normal.{Normal};
ghost use Rattle.reply_check.specs.Recorded.{Reply};
ghost use Rattle.command_facts.specs.Readings.{ReportsRefusal, Matches};

use broker_core::answer::Places;
use pact_file::{Pact, PactFault, read_pact};
use pact_rules::RuleFault;
use reply_check::{CheckFault, Replies, check};
use std::alloc::{AllocError, Global};

/// What the comparison of a stored pact with recorded replies says.
#[derive(Debug, Drop)]
pub enum Comparison {
    /// The places of the interactions that fail, from 0 and ascending, in the order of the normal pact.
    Failing(Places),
    /// A reply belongs to no interaction of the pact.
    UnknownReply,
    /// A pattern was refused, as the pact was read again or as a reply was compared with it.
    Pattern,
    /// The text is no pact.
    NoPact,
}

/// The places of a verdict.
fn places_of(alloc: Global, failing: &[usize]) -> Result<Places, AllocError>
    ensures { IfOk result (λ places. places ≡ failing.now) }
{
    let mut places = Vec::new(alloc);
    for place in failing {
        places.push(*place as u64)?;
    }
    Ok(Places::new(places))
}

/// What a check of replies against a pact says of the text that was read as this pact.
fn compare_pact(alloc: Global, pact: &Pact, replies: &Replies) -> Result<Comparison, AllocError>
    ensures { IfOk result (λ returned. (text : List ℕ) → Normal text (Ok pact.now) → Matches text replies.now returned) }
{
    match check(alloc, pact, replies) {
        Ok(verdict) => Ok(Comparison::Failing(places_of(alloc, verdict.failing())?)),
        Err(CheckFault::UnknownInteraction(_)) => Ok(Comparison::UnknownReply),
        Err(CheckFault::Pattern) => Ok(Comparison::Pattern),
        Err(CheckFault::Memory) => Err(AllocError),
    }
}

/// Whether the fault says that a pattern was refused.
fn is_refusal(fault: &PactFault) -> bool
    ensures refusal { IsTrue result → ReportsRefusal fault.now }
    ensures other { result ≡ false → ¬ (ReportsRefusal fault.now) }
{
    matches!(fault, PactFault::Rules(_, RuleFault::Pattern))
}

/// What is reported of a text that wasn't read.
#[tactic(auto, using(crate::proofs::PatternRefusals::no_pact))]
fn unread(fault: &PactFault) -> Result<Comparison, AllocError>
    ensures other { IfOk result (λ _. ¬ (fault.now ≡ PactFault.Memory)) }
    ensures memory { IfErr result (λ _. fault.now ≡ PactFault.Memory) }
    ensures returned { IfOk result (λ returned. (text : List ℕ) (replies : List Reply) → Normal text (Err fault.now)
        → Matches text replies returned) }
{
    if matches!(fault, PactFault::Memory) {
        return Err(AllocError);
    }
    if is_refusal(fault) {
        return Ok(Comparison::Pattern);
    }
    Ok(Comparison::NoPact)
}

/// Compares recorded replies with the pact of a normal text: which interactions fail, or why that can't be said. An
/// unknown reply is looked for before the replies are compared. An error means out of memory. (This project's own
/// choice.)
pub fn compare(alloc: Global, text: &str, replies: &Replies) -> Result<Comparison, AllocError>
    ensures { IfOk result (λ returned. Matches text.now replies.now returned) }
{
    match read_pact(alloc, text.as_bytes()) {
        Ok(pact) => compare_pact(alloc, &pact, replies),
        Err(fault) => unread(&fault),
    }
}
