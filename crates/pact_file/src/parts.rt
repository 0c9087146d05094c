//! The parts of an interaction.

ghost use Rattle.std.specs.Prelude.{◌≡◌, ◌∷◌, [], codes, map, option_map, IfOk};
ghost use Rattle.serde_json.specs.Find.{get, get_member, as_str};
ghost use Rattle.serde_json.specs.View.{view, items_view, members_view};
ghost use Rattle.pact_file.specs.Parts.{optional_at, text_at, object_at, list_at, state_in, all_of, one_state};
ghost use Rattle.pact_file.specs.Parts.{states_from, states_in, status_at, status_in};

use crate::state::State;
use serde_json::{Map, Value};
use std::alloc::{AllocError, Global};

/// An optional member: null counts as absent.
pub(crate) fn optional_member<'a>(value: &'a Value, key: &str) -> Option<&'a Value>
    ensures { option_map (λ v. view v.now) result ≡ optional_at key.now (view value.now) }
{
    value.get(key).filter(|found| !found.is_null())
}

/// A member that is a text.
pub fn text_member<'a>(value: &'a Value, key: &str) -> Option<&'a str>
    ensures { option_map (λ s. s.now) result ≡ text_at key.now (view value.now) }
{
    value.get(key)?.as_str()
}

/// A member that is an object.
pub(crate) fn object_member<'a>(value: &'a Value, key: &str) -> Option<&'a Value>
    ensures { option_map (λ v. view v.now) result ≡ object_at key.now (view value.now) }
{
    value.get(key).filter(|found| found.is_object())
}

/// A member that is a list.
pub(crate) fn list_member<'a>(value: &'a Value, key: &str) -> Option<&'a Vec<Value>>
    ensures { option_map (λ v. items_view v.now.items) result ≡ list_at key.now (view value.now) }
{
    value.get(key)?.as_array()
}

/// A member of a value, moved out of it.
pub(crate) fn take_member(value: Value, key: &str) -> Option<Value>
    ensures { option_map view result ≡ get key.now (view value) }
{
    match value {
        Value::Object(members) => take_entry(members, key),
        _ => None,
    }
}

fn take_entry(members: Map<String, Value>, key: &str) -> Option<Value>
    ensures { option_map view result ≡ get_member key.now (members_view members.entries) }
{
    let mut members = members;
    members.remove(key)
}

/// A member that is an object, moved out of a value.
pub fn take_object(value: Value, key: &str) -> Option<Value>
    ensures { option_map view result ≡ object_at key.now (view value) }
{
    take_member(value, key).filter(|found| found.is_object())
}

/// A member that is a list, moved out of a value.
pub fn take_list(value: Value, key: &str) -> Option<Vec<Value>>
    ensures { option_map (λ v. items_view v.items) result ≡ list_at key.now (view value) }
{
    match take_member(value, key) {
        Some(Value::Array(items)) => Some(items),
        _ => None,
    }
}

fn read_state(alloc: Global, value: &Value) -> Result<Option<State>, AllocError>
    ensures { IfOk result (λ o. o ≡ state_in (view value.now)) }
{
    let Some(name) = text_member(value, "name") else {
        return Ok(None);
    };
    let name = String::from_str(alloc, name)?;
    match optional_member(value, "params") {
        Some(params) => Ok(Some(State {
            params: Some(params.clone()?),
            name,
        })),
        None => Ok(Some(State { name, params: None })),
    }
}

fn read_state_list(alloc: Global, items: &[Value]) -> Result<Option<Vec<State>>, AllocError>
    ensures { IfOk result (λ o.
        option_map (λ v. v.items) o ≡ all_of state_in (map view items.now)) }
{
    let mut states = Vec::new(alloc);
    for item in items {
        match read_state(alloc, item)? {
            Some(state) => states.push(state)?,
            None => return Ok(None),
        }
    }
    Ok(Some(states))
}

/// The one state of the older spelling.
fn read_one_state(alloc: Global, older: Option<&Value>) -> Result<Option<Vec<State>>, AllocError>
    ensures { IfOk result (λ o. option_map (λ v. v.items) o
        ≡ one_state (option_map (λ v. view v.now) older.entry)) }
{
    let mut states = Vec::new(alloc);
    if let Some(older) = older {
        let Some(name) = older.as_str() else {
            return Ok(None);
        };
        states.push(State {
            name: String::from_str(alloc, name)?,
            params: None,
        })?;
    }
    Ok(Some(states))
}

/// The provider states of an interaction or a reply: the list under `providerStates`, each an object with a text `name`
/// and optional `params`; if it is absent, a text under `providerState` is one state of that name, and none is no
/// states. All else is None. An error means out of memory. (Pact Specification, versions 2 and 3.)
#[tactic(auto, using(crate::proofs::Lists::listed_view), unfolding(crate::specs::Parts::states_in))]
pub fn read_states(alloc: Global, value: &Value) -> Result<Option<Vec<State>>, AllocError>
    ensures { IfOk result (λ o. option_map (λ v. v.items) o ≡ states_in (view value.now)) }
{
    let Some(list) = optional_member(value, "providerStates") else {
        return read_one_state(alloc, optional_member(value, "providerState"));
    };
    match list.as_array() {
        Some(items) => read_state_list(alloc, items),
        None => Ok(None),
    }
}

/// A status: a whole number from 100 to 999.
pub fn read_status(value: &Value) -> Option<u16>
    ensures { result ≡ status_at (view value.now) }
{
    let number = value.as_u64()?;
    if 100 <= number && number <= 999 {
        Some(number as u16)
    } else {
        None
    }
}

/// The status of a response, 200 if it is absent.
#[tactic(auto, unfolding(crate::specs::Parts::status_in))]
pub(crate) fn status_of(response: &Value) -> Option<u16>
    ensures { result ≡ status_in (view response.now) }
{
    match optional_member(response, "status") {
        Some(status) => read_status(status),
        None => Some(200),
    }
}
