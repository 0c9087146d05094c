//! Whether a recorded reply meets an interaction.

ghost use Rattle.std.specs.Prelude.{◌≡◌, ◌↔◌, IfOk, IfErr, IsTrue};
ghost use Rattle.pact_rules.specs.declared.matching.MatchFault.TheVariants.{Pattern};
ghost use Rattle.reply_check.specs.Meeting.{Meets, HasPattern};

use crate::body::body_meets;
use crate::header::headers_meet;
use crate::reply::Reply;
use pact_file::Interaction;
use pact_rules::{MatchFault, Searches};
use std::alloc::Global;

/// Whether a reply meets an interaction: the status is equal, each expected header was sent with a value that fits,
/// and the body meets the expected one. Memory may run out, and `Pattern` comes only if the interaction has a pattern.
pub fn meets(
    alloc: Global,
    searches: &mut Searches<'_>,
    interaction: &Interaction,
    reply: &Reply,
) -> Result<bool, MatchFault>
    ensures value { IfOk result (λ b. IsTrue b ↔ Meets interaction.now reply.now) }
    ensures pattern { IfErr result (λ e. e ≡ Pattern → HasPattern interaction.now) }
{
    if interaction.status() != reply.status() {
        return Ok(false);
    }
    let rules = interaction.rules();
    if !headers_meet(
        alloc,
        searches,
        rules,
        interaction.headers(),
        reply.headers(),
    )? {
        return Ok(false);
    }
    body_meets(alloc, searches, rules, interaction.body(), reply.body())
}
