//! Reading a pact file.

ghost use Rattle.std.specs.Prelude.{◌≡◌, ◌<◌, ◌≤◌, Err, length, map, nat_le, string_bytes};
ghost use Rattle.serde_json.specs.Events.{items_len};
ghost use Rattle.serde_json.specs.View.{view, items_view};
ghost use Rattle.pact_file.specs.declared.fault.PactFault.{PactFault as PactFaultModel};
ghost use Rattle.pact_file.specs.declared.fault.PactFault.TheVariants.{Memory, TooLong};
ghost use Rattle.pact_file.specs.File.{most_bytes, most_interactions, as_file_fault, file_of, is_3};
ghost use Rattle.pact_file.specs.File.{version_under, is_version_3};
ghost use Rattle.pact_file.specs.File.{holds_nothing, has_no_messages, side_of};
ghost use Rattle.pact_file.specs.File.{sides_of, items_of, seen_of};
ghost use Rattle.pact_file.specs.Normal.{InteractionRead, InteractionsRead, Normal, PactRead};
ghost use Rattle.pact_file.specs.Normal.{if_short as pact_if_short};
ghost use Rattle.pact_file.specs.Objects.{IsSomeText};
ghost use Rattle.pact_file.specs.Pact.{pact_with};
ghost use Rattle.pact_rules.specs.Outcome.{Gives, GivesAlways};
ghost use Rattle.pact_rules.specs.Reading.{EachRead, GivesOne};
ghost use Rattle.pact_file.specs.Sound.{IsSound, AreSound};

use crate::fault::{PactFault, Place};
use crate::interaction::read_interaction;
use crate::object::{FileFault, read_object};
use crate::order::in_key_order;
use crate::pact::{Interaction, Pact};
use crate::parts::{list_member, object_member, take_list, text_member};
use crate::texts::is_short;
use broker_names::name::Name;
use pact_rules::Patterns;
use serde_json::Value;
use std::alloc::Global;

const MOST_BYTES: usize = 1_048_576;

const MOST_INTERACTIONS: usize = 512;

/// A fault of a file as that of a pact file.
fn file_fault(fault: FileFault) -> PactFault
    ensures { result ≡ as_file_fault fault }
{
    match fault {
        FileFault::NotJson => PactFault::NotJson,
        FileFault::Tree(fault) => PactFault::Tree(fault),
        FileFault::NotObject => PactFault::Shape(Place::File),
        FileFault::Memory => PactFault::Memory,
    }
}

#[tactic(auto, unfolding(crate::specs::File::file_of), using(crate::proofs::Objects::fault_as, crate::proofs::Objects::memory_as))]
fn read_file(alloc: Global, bytes: &[u8]) -> Result<Value, PactFault>
    requires { length bytes.now ≤ most_bytes }
    ensures value { Gives Memory view result (file_of bytes.now) }
    ensures memory { result ≡ Err Memory → IsSomeText bytes.now }
{
    match read_object(alloc, bytes) {
        Ok(file) => Ok(file),
        Err(fault) => Err(file_fault(fault)),
    }
}

/// Whether a version has 3 before its first point, if it is a text or a number.
fn is_three(version: &Value) -> Option<bool>
    ensures { result ≡ is_3 (view version.now) }
{
    match version {
        Value::String(text) => {
            let text = text.as_bytes();
            Some(text == b"3".as_slice() || text.starts_with(b"3."))
        }
        Value::Number(number) => Some(number.as_u64() == Some(3)),
        _ => None,
    }
}

fn version_of(file: &Value, key: &str) -> Option<bool>
    ensures { result ≡ version_under key.now (view file.now) }
{
    let version = file.get("metadata")?.get(key)?.get("version")?;
    is_three(version)
}

#[tactic(auto, unfolding(crate::specs::File::is_version_3))]
fn has_version_3(file: &Value) -> bool
    ensures { result ≡ is_version_3 (view file.now) }
{
    version_of(file, "pactSpecification")
        .or(version_of(file, "pact-specification"))
        .unwrap_or(true)
}

fn is_nothing(messages: &Value) -> bool
    ensures { result ≡ holds_nothing (view messages.now) }
{
    match messages {
        Value::Null => true,
        Value::Array(list) => list.len() == 0,
        _ => false,
    }
}

#[tactic(auto, unfolding(crate::specs::File::has_no_messages))]
fn lacks_messages(file: &Value) -> bool
    ensures { result ≡ has_no_messages (view file.now) }
{
    match file.get("messages") {
        None => true,
        Some(messages) => is_nothing(messages),
    }
}

#[tactic(auto, unfolding(crate::specs::File::side_of))]
fn read_side<'a>(
    file: &'a Value,
    key: &str,
    side: Place,
    its_name: Place,
) -> Result<&'a str, PactFault>
    ensures { GivesAlways (λ s. s.now) result (side_of key.now side its_name (view file.now)) }
{
    let found = object_member(file, key).ok_or(PactFault::Shape(side))?;
    let name = text_member(found, "name").ok_or(PactFault::Shape(its_name))?;
    if !Name::is_valid(name) {
        return Err(PactFault::Shape(its_name));
    }
    Ok(name)
}

#[tactic(auto, unfolding(crate::specs::File::sides_of))]
fn read_sides(file: &Value) -> Result<(&str, &str), PactFault>
    ensures { GivesAlways (λ x. (x.0.now, x.1.now)) result (sides_of (view file.now)) }
{
    if !has_version_3(file) {
        return Err(PactFault::Version);
    }
    if !lacks_messages(file) {
        return Err(PactFault::Messages);
    }
    let consumer = read_side(file, "consumer", Place::Consumer, Place::ConsumerName)?;
    let provider = read_side(file, "provider", Place::Provider, Place::ProviderName)?;
    if consumer == provider {
        return Err(PactFault::SelfContract);
    }
    Ok((consumer, provider))
}

fn read_list(alloc: Global, items: Vec<Value>) -> Result<Vec<Interaction>, PactFault>
    requires { AreSound 98 (items_view items.items) }
    ensures { GivesOne Memory (λ v. v.items) result
        (EachRead InteractionRead 0 (map view items.items)) }
{
    let mut patterns = Patterns::new(alloc);
    let mut found = Vec::with_capacity(alloc, items.len())?;
    for item in items {
        let index = found.len();
        found.push(read_interaction(alloc, &mut patterns, index, item)?)?;
    }
    Ok(found)
}

fn is_few(items: &Vec<Value>) -> bool
    ensures { result ≡ nat_le (items_len (items_view items.now.items)) most_interactions }
{
    items.len() <= MOST_INTERACTIONS
}

/// The values that are written as interactions.
#[tactic(auto, using(crate::proofs::Lists::listed_view), unfolding(crate::specs::File::items_of))]
fn items_in(file: &Value) -> Result<&Vec<Value>, PactFault>
    ensures { GivesAlways (λ v. map view v.now.items) result (items_of (view file.now)) }
{
    let items = list_member(file, "interactions").ok_or(PactFault::Shape(Place::Interactions))?;
    if !is_few(items) {
        return Err(PactFault::TooMany);
    }
    Ok(items)
}

/// The same, moved out of the file.
#[tactic(auto, using(crate::proofs::Lists::listed_view), unfolding(crate::specs::File::items_of))]
fn take_items(file: Value) -> Result<Vec<Value>, PactFault>
    ensures { GivesAlways (λ v. map view v.items) result (items_of (view file)) }
{
    let items = take_list(file, "interactions").ok_or(PactFault::Shape(Place::Interactions))?;
    if !is_few(&items) {
        return Err(PactFault::TooMany);
    }
    Ok(items)
}

fn read_interactions(alloc: Global, file: Value) -> Result<Vec<Interaction>, PactFault>
    requires { IsSound 100 (view file) }
    ensures { GivesOne Memory (λ v. v.items) result (InteractionsRead (view file)) }
{
    let items = take_items(file)?;
    let found = read_list(alloc, items)?;
    in_key_order(alloc, found)
}

/// Reads a pact file (Pact Specification, version 3) to its normal pact: metadata and all other keys are dropped, equal
/// interactions are kept once, and they are in the order of their descriptions, then of the compact texts of their
/// states. The bytes are any. Each fault is the first one in the order of `PactFault`'s documentation, with two
/// exceptions: at a text under `regex` in matching rules the pattern may be refused; and memory may run out instead,
/// but only if the bytes aren't too many, are UTF-8 and aren't empty.
pub fn read_pact(alloc: Global, bytes: &[u8]) -> Result<Pact, PactFault>
    ensures reading { GivesOne Memory (λ p. p) result (Normal bytes.now) }
    ensures long { most_bytes < length bytes.now → result ≡ Err TooLong }
    ensures memory { result ≡ Err Memory → IsSomeText bytes.now }
{
    if bytes.len() > MOST_BYTES {
        return Err(PactFault::TooLong);
    }
    let file = read_file(alloc, bytes)?;
    pact_of(alloc, file)
}

/// The normal pact of a file that was read as JSON. What is wrong before its interactions is found before memory is
/// taken.
fn pact_of(alloc: Global, file: Value) -> Result<Pact, PactFault>
    requires { IsSound 100 (view file) }
    ensures reading { GivesOne Memory (λ p. p) result (PactRead (view file)) }
    ensures seen { (e : PactFaultModel) → seen_of (view file) ≡ Err e → result ≡ Err e }
{
    let (consumer, provider) = read_sides(&file)?;
    items_in(&file)?;
    let consumer_name = String::from_str(alloc, consumer)?;
    let provider_name = String::from_str(alloc, provider)?;
    let interactions = read_interactions(alloc, file)?;
    short_pact(alloc, consumer_name, provider_name, interactions)
}

/// The pact of these parts, if its normal text isn't too long.
fn short_pact(
    alloc: Global,
    consumer: String,
    provider: String,
    interactions: Vec<Interaction>,
) -> Result<Pact, PactFault>
    ensures { Gives Memory (λ p. p) result
        (pact_if_short (pact_with (string_bytes consumer) (string_bytes provider) interactions.items)) }
{
    let has_room = is_short(
        alloc,
        consumer.as_str(),
        provider.as_str(),
        interactions.as_slice(),
    )?;
    if !has_room {
        return Err(PactFault::TooLong);
    }
    Ok(Pact {
        consumer,
        provider,
        interactions,
    })
}
