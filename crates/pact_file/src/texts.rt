//! Normal forms as JSON values, and their compact texts.

ghost use Rattle.std.specs.Prelude.{◌≡◌, ◌+◌, ◌<◌, ◌≤◌, ◌++◌, length, nat_le, false, string_bytes};
ghost use Rattle.std.specs.Prelude.{IfOk, OnOk, MatchOption};
ghost use Rattle.json.specs.Print.{quoted};
ghost use Rattle.serde_json.specs.View.{view};
ghost use Rattle.serde_json.specs.Written.{has_float, compact_text};
ghost use Rattle.pact_file.specs.File.{most_bytes};
ghost use Rattle.pact_file.specs.Pact.{state_data, states_data, pact_with, normal_text};
ghost use Rattle.pact_file.specs.Texts.{text_of_parts, interactions_text, item_length, pact_length};

use crate::pact::{Interaction, Pact};
use crate::state::State;
use serde_json::Value;
use std::alloc::{AllocError, Global};

/// Adds a text after those that are there, with the separator before it if it isn't the first.
pub(crate) fn push_separated(
    text: &mut String,
    index: usize,
    separator: &str,
    part: &str,
) -> Result<(), AllocError>
    ensures first { OnOk result (index ≡ 0
        → string_bytes text.new ≡ string_bytes text.old ++ part.now) }
    ensures later { OnOk result (0 < index
        → string_bytes text.new ≡ string_bytes text.old ++ (separator.now ++ part.now)) }
{
    if index > 0 {
        text.push_str(separator)?;
    }
    text.push_str(part)
}

/// A text as JSON writes it.
fn quoted_text(alloc: Global, text: &str) -> Result<String, AllocError>
    ensures { IfOk result (λ s. string_bytes s ≡ quoted text.now) }
{
    let value = Value::String(String::from_str(alloc, text)?);
    value.to_string(alloc)
}

/// Adds a text as JSON writes it.
fn push_quoted(text: &mut String, part: &str) -> Result<(), AllocError>
    ensures { OnOk result (string_bytes text.new ≡ string_bytes text.old ++ quoted part.now) }
{
    let quoted = quoted_text(*text.allocator(), part)?;
    text.push_str(quoted.as_str())
}

/// Adds a state's compact text.
fn push_state(text: &mut String, state: &State) -> Result<(), AllocError>
    requires { has_float (state_data state.now) ≡ false }
    ensures { OnOk result (string_bytes text.new
        ≡ string_bytes text.old ++ compact_text (state_data state.now)) }
{
    text.push_str("{\"name\":")?;
    push_quoted(text, state.name.as_str())?;
    match &state.params {
        None => text.push_str("}"),
        Some(params) => {
            let params = params.to_string(*text.allocator())?;
            text.push_str(",\"params\":")?;
            text.push_str(params.as_str())?;
            text.push_str("}")
        }
    }
}

/// As many bytes have the texts of most lists of states at most; that of a longer one grows.
const STATES_ROOM: usize = 64;

/// The compact JSON text of provider states, each with its name and, if they are given, its params. Two lists of states
/// that were read are equal if their texts are. An error means out of memory.
pub fn states_text(alloc: Global, states: &[State]) -> Result<String, AllocError>
    requires { has_float (states_data states.now) ≡ false }
    ensures { IfOk result (λ s. string_bytes s ≡ compact_text (states_data states.now)) }
{
    let mut text = String::with_capacity(alloc, STATES_ROOM)?;
    text.push_str("[")?;
    for (index, state) in states.iter().enumerate() {
        if index > 0 {
            text.push_str(",")?;
        }
        push_state(&mut text, state)?;
    }
    text.push_str("]")?;
    Ok(text)
}

/// How many bytes an interaction's text has besides its parts, if nothing in its description is escaped; else it grows.
const PARTS_ROOM: usize = 64;

/// The compact text of an interaction's normal form, made of the text of its states.
pub(crate) fn parts_text(
    alloc: Global,
    description: &str,
    states_text: &str,
    request: &Value,
    response: &Value,
) -> Result<String, AllocError>
    requires request { has_float (view request.now) ≡ false }
    requires response { has_float (view response.now) ≡ false }
    ensures { IfOk result (λ s. string_bytes s
        ≡ text_of_parts description.now states_text.now (view request.now) (view response.now)) }
{
    let request = request.to_string(alloc)?;
    let response = response.to_string(alloc)?;
    let room = PARTS_ROOM
        .saturating_add(description.len())
        .saturating_add(states_text.len())
        .saturating_add(request.len())
        .saturating_add(response.len());
    let mut text = String::with_capacity(alloc, room)?;
    text.push_str("{\"description\":")?;
    push_quoted(&mut text, description)?;
    text.push_str(",\"providerStates\":")?;
    text.push_str(states_text)?;
    text.push_str(",\"request\":")?;
    text.push_str(request.as_str())?;
    text.push_str(",\"response\":")?;
    text.push_str(response.as_str())?;
    text.push_str("}")?;
    Ok(text)
}

/// Adds the interactions' texts, with a comma between each two, and the bracket that ends the list.
fn push_interactions(text: &mut String, interactions: &[Interaction]) -> Result<(), AllocError>
    ensures { OnOk result (string_bytes text.new
        ≡ string_bytes text.old ++ interactions_text interactions.now) }
{
    for (index, interaction) in interactions.iter().enumerate() {
        push_separated(text, index, ",", interaction.text())?;
    }
    text.push_str("]")
}

/// The normal text of a pact, made of the texts of its interactions.
pub(crate) fn text_of_pact(pact: &Pact) -> Result<String, AllocError>
    ensures { IfOk result (λ s. string_bytes s ≡ normal_text pact.now) }
{
    let mut text = String::with_capacity(*pact.consumer.allocator(), room_for_pact(pact))?;
    text.push_str("{\"consumer\":{\"name\":")?;
    push_quoted(&mut text, pact.consumer.as_str())?;
    text.push_str("},\"interactions\":[")?;
    push_interactions(&mut text, pact.interactions.as_slice())?;
    text.push_str(",\"provider\":{\"name\":")?;
    push_quoted(&mut text, pact.provider.as_str())?;
    text.push_str("}}")?;
    Ok(text)
}

/// What is left of so much room after an item's text, and after the comma before it if it isn't the first; None if it
/// doesn't fit.
fn room_after(room: usize, index: usize, item: &str) -> Option<usize>
    ensures { MatchOption result (room < item_length index item.now)
        (λ left. left + item_length index item.now ≡ room) }
{
    let room = room.checked_sub(item.len())?;
    if index == 0 {
        return Some(room);
    }
    room.checked_sub(1)
}

/// The same after all interactions, with a place of its own for the bracket that ends them.
fn room_after_all(room: usize, interactions: &[Interaction]) -> Option<usize>
    ensures { MatchOption result (room + 1 < length (interactions_text interactions.now))
        (λ rest. rest + length (interactions_text interactions.now) ≡ room + 1) }
{
    let mut rest = room;
    for (index, interaction) in interactions.iter().enumerate() {
        match room_after(rest, index, interaction.text()) {
            Some(less) => rest = less,
            None => return None,
        }
    }
    Some(rest)
}

/// How much room a normal text has for its two names in quotes and its interactions, without the last bracket.
const ROOM: usize = 1_048_515;

/// What is left of it, if all fit.
fn room_left(consumer: &str, provider: &str, interactions: &[Interaction]) -> Option<usize>
    ensures { MatchOption result
        (most_bytes < pact_length consumer.now provider.now interactions.now)
        (λ _. pact_length consumer.now provider.now interactions.now ≤ most_bytes) }
{
    let room = room_after(ROOM, 0, consumer)?;
    let room = room_after(room, 0, provider)?;
    room_after_all(room, interactions)
}

/// How many bytes a normal text has besides its two names without quotes and its interactions, with the last bracket.
const BESIDE: usize = 65;

/// As many bytes as the normal text of a pact has, if nothing in its names is escaped; else it grows.
fn room_for_pact(pact: &Pact) -> usize {
    let left = room_left(
        pact.consumer.as_str(),
        pact.provider.as_str(),
        pact.interactions.as_slice(),
    );
    ROOM.saturating_sub(left.unwrap_or(0))
        .saturating_add(BESIDE)
}

/// Whether the normal text of a pact of these parts has at most 1,048,576 bytes; it isn't written for it.
#[tactic(auto, using(crate::proofs::NormalTexts::has_room, crate::proofs::NormalTexts::lacks_room))]
pub(crate) fn is_short(
    alloc: Global,
    consumer: &str,
    provider: &str,
    interactions: &[Interaction],
) -> Result<bool, AllocError>
    ensures { IfOk result (λ b. b ≡ nat_le
        (length (normal_text (pact_with consumer.now provider.now interactions.now))) most_bytes) }
{
    let consumer = quoted_text(alloc, consumer)?;
    let provider = quoted_text(alloc, provider)?;
    match room_left(consumer.as_str(), provider.as_str(), interactions) {
        Some(_) => Ok(true),
        None => Ok(false),
    }
}
