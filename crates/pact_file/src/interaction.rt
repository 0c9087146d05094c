//! An interaction, in the order of its tests.

ghost use Rattle.std.specs.Prelude.{◌≡◌, Some, option_map, option_and_then, codes, string_bytes, IfOk};
ghost use Rattle.serde_json.specs.Find.{get};
ghost use Rattle.serde_json.specs.View.{view};
ghost use Rattle.serde_json.specs.Written.{compact_text};
ghost use Rattle.pact_file.specs.declared.fault.PactFault.TheVariants.{Memory};
ghost use Rattle.pact_file.specs.Interactions.{at, parts_at};
ghost use Rattle.pact_file.specs.Normal.{InteractionRead};
ghost use Rattle.pact_rules.specs.Outcome.{Gives};
ghost use Rattle.pact_file.specs.Pact.{states_data, interaction_data};
ghost use Rattle.pact_file.specs.Parts.{status_in as status_found, body_in};
ghost use Rattle.pact_rules.specs.Reading.{GivesOne};
ghost use Rattle.pact_file.specs.Rules.{RulesRead, IsRulesOf};
ghost use Rattle.pact_file.specs.Sound.{IsSound};
ghost use Rattle.pact_file.specs.PartsView.{parts_view, as_pact_fault};

use crate::fault::{PactFault, Part, Place};
use crate::headers::read_headers;
use crate::pact::Interaction;
use crate::parts::{
    object_member, optional_member, read_states, status_of, take_member, text_member,
};
use crate::state::State;
use crate::texts::{parts_text, states_text};
use pact_rules::{Patterns, RuleFault, RuleTable};
use serde_json::Value;
use std::alloc::{AllocError, Global};

/// What is read of an interaction before its headers and its rules.
#[derive(Drop)]
struct Parts<'a> {
    description: String,
    states: Vec<State>,
    request: &'a Value,
    response: &'a Value,
    status: u16,
}

/// The fault of a part of the interaction at this index.
fn fault_at(index: usize, part: Part) -> PactFault
    ensures { result ≡ at index part }
{
    PactFault::Shape(Place::Interaction(index, part))
}

#[tactic(auto, unfolding(crate::specs::Interactions::parts_at))]
fn read_parts<'a>(alloc: Global, index: usize, value: &'a Value) -> Result<Parts<'a>, PactFault>
    ensures parts { Gives Memory parts_view result (parts_at index (view value.now)) }
    ensures status { IfOk result (λ p. status_found (view p.response.now) ≡ Some p.status) }
{
    if !value.is_object() {
        return Err(fault_at(index, Part::Whole));
    }
    let Some(description) = text_member(value, "description") else {
        return Err(fault_at(index, Part::Description));
    };
    let Some(states) = read_states(alloc, value)? else {
        return Err(fault_at(index, Part::States));
    };
    let Some(request) = object_member(value, "request") else {
        return Err(fault_at(index, Part::Request));
    };
    let Some(response) = object_member(value, "response") else {
        return Err(fault_at(index, Part::Response));
    };
    let Some(status) = status_of(response) else {
        return Err(fault_at(index, Part::Status));
    };
    Ok(Parts {
        description: String::from_str(alloc, description)?,
        states,
        request,
        response,
        status,
    })
}

/// The body of the response of an interaction, moved out of it: the value under `body`, which may be null, or None if
/// the response has no such member.
fn take_body(interaction: Value) -> Option<Value>
    ensures { option_map view result
        ≡ option_and_then body_in (get (codes "response") (view interaction)) }
{
    take_member(take_member(interaction, "response")?, "body")
}

/// A fault of rules; `Memory` is that of the whole call.
fn rule_fault(index: usize, fault: RuleFault) -> PactFault
    ensures { result ≡ as_pact_fault index fault }
{
    match fault {
        RuleFault::Memory => PactFault::Memory,
        fault => PactFault::Rules(index, fault),
    }
}

fn read_rules(
    alloc: Global,
    patterns: &mut Patterns,
    index: usize,
    response: &Value,
) -> Result<RuleTable, PactFault>
    ensures read { GivesOne Memory (λ t. t) result (RulesRead index (view response.now)) }
    ensures table { IfOk result (λ t. IsRulesOf (view response.now) t) }
{
    match optional_member(response, "matchingRules") {
        None => Ok(RuleTable::none(alloc)),
        Some(rules) => match RuleTable::read_with(alloc, patterns, rules) {
            Ok(table) => Ok(table),
            Err(fault) => Err(rule_fault(index, fault)),
        },
    }
}

/// The texts that are kept of an interaction.
#[derive(Drop)]
struct Texts {
    states: String,
    whole: String,
}

fn texts_of(alloc: Global, parts: &Parts<'_>) -> Result<Texts, AllocError>
    requires { IsSound 98 (interaction_data (parts_view parts.now)) }
    ensures states { IfOk result (λ t. string_bytes t.states
        ≡ compact_text (states_data parts.now.states.items)) }
    ensures whole { IfOk result (λ t. string_bytes t.whole
        ≡ compact_text (interaction_data (parts_view parts.now))) }
{
    let states = states_text(alloc, parts.states.as_slice())?;
    let whole = parts_text(
        alloc,
        parts.description.as_str(),
        states.as_str(),
        parts.request,
        parts.response,
    )?;
    Ok(Texts { states, whole })
}

/// The interaction at this index, or its first fault.
pub(crate) fn read_interaction(
    alloc: Global,
    patterns: &mut Patterns,
    index: usize,
    value: Value,
) -> Result<Interaction, PactFault>
    requires { IsSound 98 (view value) }
    ensures { GivesOne Memory (λ x. x) result (InteractionRead index (view value)) }
{
    let parts = read_parts(alloc, index, &value)?;
    match read_headers(alloc, parts.response)? {
        None => Err(fault_at(index, Part::Headers)),
        Some(headers) => {
            let rules = read_rules(alloc, patterns, index, parts.response)?;
            let texts = texts_of(alloc, &parts)?;
            let Parts {
                description,
                states,
                request: _,
                response: _,
                status,
            } = parts;
            let body = take_body(value);
            Ok(Interaction {
                description,
                states,
                status,
                headers,
                body,
                rules,
                states_text: texts.states,
                text: texts.whole,
            })
        }
    }
}
