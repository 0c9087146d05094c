//! Whether a matcher holds of an expected and an actual value.

ghost use Rattle.std.specs.Prelude.{◌≡◌, IfOk, IfErr, ◌≢◌, is_some, option_map, option_and_then, string_bytes};
ghost use Rattle.serde_json.specs.View.{view, items_view, members_view};
ghost use Rattle.pact_rules.specs.RuleViews.{matcher_view, entry_view};
ghost use Rattle.pact_rules.specs.Matching.{holds as holds_of, entry_holds, same_kind, same_whole};
ghost use Rattle.pact_rules.specs.Matching.{are_alike as are_alike_of, have_one_key_set as have_one_key_set_of};
ghost use Rattle.serde_json.specs.Find.{as_number, as_integer};
ghost use Rattle.pact_rules.specs.Matching.{text_form as text_form_of, within, at_least, at_most, contains};
ghost use Rattle.pact_rules.specs.Matching.{has_keys_of as has_keys, equal_here};
ghost use Rattle.pact_rules.specs.Rules.{IsRegex};
ghost use Rattle.pact_rules.specs.RegexRefusals.{CanFail};
ghost use Rattle.pact_rules.specs.declared.matching.MatchFault.TheVariants.{Memory, Pattern};

use crate::table::Matcher;
use pact_patterns::Searches;
use serde_json::{Map, Value};
use std::alloc::{AllocError, AllocFailed, Global};
use thiserror::Error;

/// Why it isn't known whether a matcher holds.
#[derive(Clone, Copy, Debug, PartialEq, Eq, Error)]
pub enum MatchFault {
    /// No memory was left.
    #[error("out of memory")]
    Memory,
    /// The crate `regex` refuses the pattern now, for another cause than memory.
    #[error("the pattern is refused")]
    Pattern,
}

impl From<AllocError> for MatchFault {
    ghost from_gives = { λ _ fault. fault ≡ Memory };

    fn from(_: AllocError) -> MatchFault {
        MatchFault::Memory
    }
}

impl<T: Drop> From<AllocFailed<T>> for MatchFault {
    ghost from_gives = { λ _ fault. fault ≡ Memory };

    fn from(_: AllocFailed<T>) -> MatchFault {
        MatchFault::Memory
    }
}

impl From<regex::Error> for MatchFault {
    ghost use Rattle.pact_rules.specs.RegexRefusals.{as_match_fault};

    ghost from_gives = { λ error fault. fault ≡ as_match_fault error };

    fn from(error: regex::Error) -> MatchFault {
        match error {
            regex::Error::OutOfMemory => MatchFault::Memory,
            regex::Error::Syntax(_) | regex::Error::CompiledTooBig | regex::Error::Internal =>
                MatchFault::Pattern,
        }
    }
}

/// What `holds` says of trees, of the values that `serde_json` read. The searches are kept from one value to the next,
/// so that a pattern that was built isn't built again.
pub(crate) fn holds_with(
    alloc: Global,
    searches: &mut Searches<'_>,
    matcher: &Matcher,
    expected: &Value,
    actual: &Value,
    own_place: bool,
) -> Result<bool, MatchFault>
    ensures value { IfOk result (λ b. b ≡ holds_of (matcher_view matcher.now)
        (view expected.now) (view actual.now) own_place) }
    ensures pattern { IfErr result (λ e. e ≡ Pattern → IsRegex (matcher_view matcher.now)) }
    ensures fails { IfErr result (CanFail (matcher_view matcher.now)) }
{
    match matcher {
        Matcher::Equality => Ok(are_equal(expected, actual)),
        Matcher::SameType { min, max } => Ok(
            are_of_one_kind(expected, actual)
                && (!own_place || is_within(*min, *max, expected, actual)),
        ),
        Matcher::Regex(source) => match text_form(alloc, actual)? {
            Some(text) => Ok(searches.finds(alloc, source, &text)?),
            None => Ok(false),
        },
        Matcher::Include(part) => match text_form(alloc, actual)? {
            Some(text) => Ok(text.contains(part.as_str())),
            None => Ok(false),
        },
        Matcher::Integer => Ok(is_whole(actual)),
        Matcher::IsNull => Ok(matches!(actual, Value::Null)),
    }
}

/// The text of a scalar that has one.
pub(crate) fn text_form(alloc: Global, value: &Value) -> Result<Option<String>, AllocError>
    ensures { IfOk result (λ o.
        option_map (λ s. string_bytes s) o ≡ text_form_of (view value.now)) }
{
    match value {
        Value::String(text) => Ok(Some(text.clone()?)),
        Value::Number(number) => match number.as_i128() {
            Some(number) => Ok(Some(number.to_string(alloc)?)),
            None => Ok(None),
        },
        Value::Bool(true) => Ok(Some(String::from_str(alloc, "true")?)),
        Value::Bool(false) => Ok(Some(String::from_str(alloc, "false")?)),
        Value::Null | Value::Array(_) | Value::Object(_) => Ok(None),
    }
}

pub(crate) fn is_whole(value: &Value) -> bool
    ensures { result ≡ is_some (option_and_then as_integer (as_number (view value.now))) }
{
    match value {
        Value::Number(number) => number.as_i128().is_some(),
        _ => false,
    }
}

pub(crate) fn are_of_one_kind(a: &Value, b: &Value) -> bool
    ensures { result ≡ same_kind (view a.now) (view b.now) }
{
    match (a, b) {
        (Value::Null, Value::Null)
        | (Value::Bool(_), Value::Bool(_))
        | (Value::Number(_), Value::Number(_))
        | (Value::String(_), Value::String(_))
        | (Value::Array(_), Value::Array(_))
        | (Value::Object(_), Value::Object(_)) => true,
        _ => false,
    }
}

/// Whether two values are of one kind, with equal scalars and lists of one length. Takes no memory.
pub fn are_alike(a: &Value, b: &Value) -> bool
    ensures { result ≡ are_alike_of (view a.now) (view b.now) }
{
    match (a, b) {
        (Value::Null, Value::Null) => true,
        (Value::Bool(a), Value::Bool(b)) => a == b,
        (Value::Number(a), Value::Number(b)) => is_same_whole(a.as_i128(), b.as_i128()),
        (Value::String(a), Value::String(b)) => a.as_str() == b.as_str(),
        (Value::Array(a), Value::Array(b)) => a.len() == b.len(),
        (Value::Object(_), Value::Object(_)) => true,
        _ => false,
    }
}

fn is_same_whole(a: Option<i128>, b: Option<i128>) -> bool
    ensures { result ≡ same_whole a b }
{
    match (a, b) {
        (Some(a), Some(b)) => a == b,
        _ => false,
    }
}

/// Whether an `Equality` matcher holds of two values.
pub(crate) fn are_equal(a: &Value, b: &Value) -> bool
    ensures { result ≡ equal_here (view a.now) (view b.now) }
{
    are_alike(a, b) && have_one_key_set(a, b)
}

fn have_one_key_set(a: &Value, b: &Value) -> bool
    ensures { result ≡ have_one_key_set_of (view a.now) (view b.now) }
{
    match (a, b) {
        (Value::Object(a), Value::Object(b)) => has_keys_of(a, b) && has_keys_of(b, a),
        _ => true,
    }
}

pub(crate) fn is_within(
    min: Option<u64>,
    max: Option<u64>,
    expected: &Value,
    actual: &Value,
) -> bool
    ensures { result ≡ within min max (view expected.now) (view actual.now) }
{
    match (expected, actual) {
        (Value::Array(_), Value::Array(items)) => {
            let count = items.len() as u64;
            is_at_least(count, min) && is_at_most(count, max)
        }
        _ => true,
    }
}

pub(crate) fn is_at_least(count: u64, min: Option<u64>) -> bool
    ensures { result ≡ at_least min count }
{
    match min {
        Some(min) => min <= count,
        None => true,
    }
}

pub(crate) fn is_at_most(count: u64, max: Option<u64>) -> bool
    ensures { result ≡ at_most max count }
{
    match max {
        Some(max) => count <= max,
        None => true,
    }
}

/// Whether each key of the first is in the second. Takes no memory.
pub fn has_keys_of(a: &Map<String, Value>, b: &Map<String, Value>) -> bool
    ensures { result ≡ has_keys (members_view a.now.entries) (members_view b.now.entries) }
{
    for (key, _) in a.iter() {
        if !b.contains_key(key.as_str()) {
            return false;
        }
    }
    true
}
