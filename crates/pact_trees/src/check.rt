//! JSON values without fractions.

ghost use Rattle.std.specs.Prelude.{◌≡◌, nat_le, is_some, IfSome};
ghost use Rattle.serde_json.specs.Data.{depth, items_depth, members_depth};
ghost use Rattle.serde_json.specs.Written.{has_float, items_have_float, members_have_float};
ghost use Rattle.serde_json.specs.View.{view, items_view, members_view};
ghost use Rattle.pact_trees.specs.Checked.{checked_tree};

use serde_json::{Map, Value};
use thiserror::Error;

/// Why a JSON value is no tree.
#[derive(Clone, Copy, Debug, PartialEq, Eq, Error)]
pub enum NoTree {
    /// A number has a fraction or an exponent, or is out of range.
    #[error("a number that isn't whole")]
    NotWhole,
    /// Lists and objects nest more than 100 deep.
    #[error("lists and objects nest too deep")]
    TooDeep,
}

/// How deep lists and objects may nest.
const MAX_DEPTH: usize = 100;

/// Whether a value is a tree, that is, nests at most 100 deep and has only whole numbers, or the first fault. `TooDeep`
/// is looked at first, for the whole value, and then `NotWhole`; a scalar has depth 0, a list or object one more than
/// its deepest member, 1 if empty. Takes no memory.
pub fn check_tree(value: &Value) -> Result<(), NoTree>
    ensures { result ≡ checked_tree (view value.now) }
{
    match fraction_within(value, MAX_DEPTH) {
        None => Err(NoTree::TooDeep),
        Some(true) => Err(NoTree::NotWhole),
        Some(false) => Ok(()),
    }
}

/// Whether a number in the value isn't whole, or None if the value nests deeper than the limit. Both are found on one
/// way through it.
#[cycle(walk)]
fn fraction_within(value: &Value, limit: usize) -> Option<bool>
    ensures depth { is_some result ≡ nat_le (depth (view value.now)) limit }
    ensures fraction { IfSome result (λ found. found ≡ has_float (view value.now)) }
{
    match value {
        Value::Null | Value::Bool(_) | Value::String(_) => Some(false),
        Value::Number(number) => Some(number.as_i128().is_none()),
        Value::Array(items) => items_fraction(items, limit.checked_sub(1)?),
        Value::Object(members) => members_fraction(members, limit.checked_sub(1)?),
    }
}

#[cycle(walk)]
fn items_fraction(items: &Vec<Value>, limit: usize) -> Option<bool>
    ensures depth { is_some result ≡ nat_le (items_depth (items_view items.now.items)) limit }
    ensures fraction { IfSome result (λ found. found ≡ items_have_float (items_view items.now.items)) }
{
    let mut found = false;
    for item in items {
        found = fraction_within(item, limit)? || found;
    }
    Some(found)
}

#[cycle(walk)]
fn members_fraction(members: &Map<String, Value>, limit: usize) -> Option<bool>
    ensures depth { is_some result ≡ nat_le (members_depth (members_view members.now.entries)) limit }
    ensures fraction { IfSome result (λ found. found ≡ members_have_float (members_view members.now.entries)) }
{
    let mut found = false;
    for (_, member) in members.iter() {
        found = fraction_within(member, limit)? || found;
    }
    Some(found)
}
