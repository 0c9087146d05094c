//! Which interactions of a pact fail by recorded replies.

ghost use Rattle.std.specs.Prelude.{◌≡◌, ◌↔◌, ℕ, [], Err, IfOk, IfErr, IsTrue, MatchOption};
ghost use Rattle.pact_rules.specs.Lists.{OneOf};
ghost use Rattle.pact_rules.specs.declared.matching.MatchFault.TheVariants.{Pattern};
ghost use Rattle.reply_check.specs.declared.fault.CheckFault.TheVariants as fault;
ghost use Rattle.reply_check.specs.Meeting.{Meets, HasPattern};
ghost use Rattle.reply_check.specs.Verdicts.{BelongsTo, IsKnown, AreKnown, IsFirstUnknown, Passes, AreFailing};
ghost use Rattle.reply_check.specs.Verdicts.{UsesPattern};

use crate::fault::CheckFault;
use crate::meet::meets;
use crate::reply::{Replies, Reply};
use pact_file::{Interaction, Pact};
use pact_rules::{BuiltPatterns, MatchFault, Searches};
use std::alloc::Global;
use std::marker::Model;

/// Which interactions of a pact fail: their indices from 0, ascending, in the order of the normal pact.
#[derive(Debug, Drop)]
pub struct Verdict {
    /// Their indices.
    pub failing: Vec<usize>,
}

impl Model for Verdict {
    ghost use Rattle.std.specs.Prelude.{ℕ, List};

    ghost Value = { List ℕ };

    ghost view = { λ a. a.failing.items };
}

impl Verdict {
    /// The indices of the interactions that fail.
    pub fn failing(&self) -> &[usize]
        ensures { result.now ≡ self.now }
    {
        self.failing.as_slice()
    }

    /// The same as a vector. Takes no memory.
    pub fn into_failing(self) -> Vec<usize>
        ensures { result.items ≡ self }
    {
        let Verdict { failing } = self;
        failing
    }

    /// Whether no interaction fails.
    pub fn passes(&self) -> bool
        ensures { IsTrue result ↔ (self.now ≡ []) }
    {
        self.failing.is_empty()
    }
}

/// Checks recorded replies against a pact. An interaction fails if it has no reply or its reply doesn't meet it: the
/// status is equal, each expected header was sent with a value that fits, and the body meets the expected one.
/// `UnknownInteraction` is looked at first, before any memory is taken; `Pattern` comes only if an interaction that has
/// a reply has a pattern that is refused, and memory may run out in its place and in that of a verdict. (This project's
/// own choice.)
#[tactic(auto, using(crate::proofs::VerdictLemmas::only_first, crate::proofs::VerdictLemmas::none_first))]
pub fn check(alloc: Global, pact: &Pact, replies: &Replies) -> Result<Verdict, CheckFault>
    ensures verdict { IfOk result (λ v. AreKnown pact.now.interactions replies.now
        × AreFailing pact.now.interactions replies.now v) }
    ensures unknown { IfErr result (λ e. (i : ℕ) → e ≡ fault.UnknownInteraction i
        → IsFirstUnknown pact.now.interactions replies.now i) }
    ensures first { (i : ℕ) → IsFirstUnknown pact.now.interactions replies.now i
        → result ≡ Err (fault.UnknownInteraction i) }
    ensures pattern { IfErr result (λ e. e ≡ fault.Pattern
        → AreKnown pact.now.interactions replies.now
        × UsesPattern pact.now.interactions replies.now) }
{
    let interactions = pact.interactions();
    let replies = replies.as_slice();
    if let Some(index) = first_unknown(interactions, replies) {
        return Err(CheckFault::UnknownInteraction(index));
    }
    let patterns = patterns_of(alloc, interactions, replies)?;
    let mut searches = Searches::new(alloc, &patterns);
    Ok(Verdict {
        failing: failing_indices(alloc, &mut searches, interactions, replies)?,
    })
}

fn belongs(interaction: &Interaction, reply: &Reply) -> bool
    ensures { IsTrue result ↔ BelongsTo interaction.now reply.now }
{
    reply.is_for(interaction.description(), interaction.states_text())
}

fn is_known(interactions: &[Interaction], reply: &Reply) -> bool
    ensures { IsTrue result ↔ IsKnown interactions.now reply.now }
{
    for interaction in interactions {
        if belongs(interaction, reply) {
            return true;
        }
    }
    false
}

/// The index of the first reply that belongs to no interaction.
fn first_unknown(interactions: &[Interaction], replies: &[Reply]) -> Option<usize>
    ensures { MatchOption result (AreKnown interactions.now replies.now)
        (λ i. IsFirstUnknown interactions.now replies.now i) }
{
    for (index, reply) in replies.iter().enumerate() {
        if !is_known(interactions, reply) {
            return Some(index);
        }
    }
    None
}

/// The patterns of the interactions that have a reply, each built once.
fn patterns_of(
    alloc: Global,
    interactions: &[Interaction],
    replies: &[Reply],
) -> Result<BuiltPatterns, MatchFault>
    ensures { IfErr result (λ e. e ≡ Pattern → UsesPattern interactions.now replies.now) }
{
    let mut patterns = BuiltPatterns::new(alloc);
    for interaction in interactions {
        build_patterns(alloc, &mut patterns, interaction, replies)?;
    }
    Ok(patterns)
}

/// Builds the patterns of an interaction, if it has a reply.
fn build_patterns(
    alloc: Global,
    patterns: &mut BuiltPatterns,
    interaction: &Interaction,
    replies: &[Reply],
) -> Result<(), MatchFault>
    ensures { IfErr result (λ e. e ≡ Pattern
        → OneOf (λ r. BelongsTo interaction.now r) replies.now × HasPattern interaction.now) }
{
    if !has_reply(interaction, replies) {
        return Ok(());
    }
    interaction.rules().build_patterns(alloc, patterns)
}

fn has_reply(interaction: &Interaction, replies: &[Reply]) -> bool
    ensures { IsTrue result → OneOf (λ r. BelongsTo interaction.now r) replies.now }
{
    for reply in replies {
        if belongs(interaction, reply) {
            return true;
        }
    }
    false
}

/// Whether a reply belongs to an interaction and meets it.
fn answers(
    alloc: Global,
    searches: &mut Searches<'_>,
    interaction: &Interaction,
    reply: &Reply,
) -> Result<bool, MatchFault>
    ensures value { IfOk result (λ b. IsTrue b
        ↔ (BelongsTo interaction.now reply.now × Meets interaction.now reply.now)) }
    ensures pattern { IfErr result (λ e. e ≡ Pattern
        → BelongsTo interaction.now reply.now × HasPattern interaction.now) }
{
    if !belongs(interaction, reply) {
        return Ok(false);
    }
    meets(alloc, searches, interaction, reply)
}

fn passes(
    alloc: Global,
    searches: &mut Searches<'_>,
    interaction: &Interaction,
    replies: &[Reply],
) -> Result<bool, MatchFault>
    ensures value { IfOk result (λ b. IsTrue b ↔ Passes replies.now interaction.now) }
    ensures pattern { IfErr result (λ e. e ≡ Pattern
        → OneOf (λ r. BelongsTo interaction.now r) replies.now × HasPattern interaction.now) }
{
    for reply in replies {
        if answers(alloc, searches, interaction, reply)? {
            return Ok(true);
        }
    }
    Ok(false)
}

fn failing_indices(
    alloc: Global,
    searches: &mut Searches<'_>,
    interactions: &[Interaction],
    replies: &[Reply],
) -> Result<Vec<usize>, MatchFault>
    ensures indices { IfOk result (λ v. AreFailing interactions.now replies.now v.items) }
    ensures pattern { IfErr result (λ e. e ≡ Pattern → UsesPattern interactions.now replies.now) }
{
    let mut failing = Vec::new(alloc);
    for (index, interaction) in interactions.iter().enumerate() {
        if !passes(alloc, searches, interaction, replies)? {
            failing.push(index)?;
        }
    }
    Ok(failing)
}
