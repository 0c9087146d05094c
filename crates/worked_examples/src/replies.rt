//! Recorded replies that are checked against a pact.
ghost use Rattle.std.specs.Prelude.{IfOk, IfErr};
ghost use Rattle.worked_examples.specs.Replies.{AreFailingOf, IsWhy};

use pact_file::{PactFault, read_pact};
use reply_check::{CheckFault, RepliesFault, check, read_replies};
use std::alloc::Global;

/// Why replies aren't judged.
#[derive(Debug, Drop)]
pub enum Unjudged {
    /// The pact's file has this fault.
    BadPact(PactFault),
    /// The replies' file has this fault.
    BadReplies(RepliesFault),
    /// The replies can't be checked against the pact.
    Unchecked(CheckFault),
}

/// The interactions of a pact file that fail by a file of recorded replies: their places in the normal pact, from 0 and
/// ascending. There are none exactly if the provider has kept the contract.
pub fn failing(alloc: Global, pact: &[u8], replies: &[u8]) -> Result<Vec<usize>, Unjudged>
    ensures verdict { IfOk result (λ v. AreFailingOf pact.now replies.now v.items) }
    ensures why { IfErr result (λ fault. IsWhy pact.now replies.now fault) }
{
    let pact = read_pact(alloc, pact).map_err(Unjudged::BadPact)?;
    let replies = read_replies(alloc, replies).map_err(Unjudged::BadReplies)?;
    let verdict = check(alloc, &pact, &replies).map_err(Unjudged::Unchecked)?;
    Ok(verdict.into_failing())
}
