//! Whether a matcher holds of an expected and an actual tree.

ghost use Rattle.std.specs.Prelude.{◌≡◌, IfOk, IfErr, option_map, string_bytes};
ghost use Rattle.pact_trees.specs.Trees.{data_of, members_data};
ghost use Rattle.pact_rules.specs.RuleViews.{matcher_view};
ghost use Rattle.pact_rules.specs.Matching.{holds as holds_of, same_kind, within, equal_here, pattern_of, is_found};
ghost use Rattle.pact_rules.specs.Matching.{text_form as text_form_of, has_keys_of as has_keys};
ghost use Rattle.pact_rules.specs.Rules.{IsRegex};
ghost use Rattle.pact_rules.specs.RegexRefusals.{CanFail, HasCause, as_match_fault};
ghost use Rattle.pact_rules.specs.declared.matching.MatchFault.TheVariants.{Pattern};

use crate::matching::{MatchFault, is_at_least, is_at_most};
use crate::table::Matcher;
use pact_patterns::{BuiltPatterns, Searches};
use pact_trees::Tree;
use std::alloc::{AllocError, Global};
use std::collections::BTreeMap;

/// Whether a matcher holds of the expected and the actual value; at its own place, if the path of its entry has as many
/// tokens as the location has steps, the bounds of `SameType` count. Only a `Regex` or an `Include` matcher takes
/// memory, which may run out, and only a `Regex` matcher answers `Pattern`, if `regex` refuses the pattern.
pub fn holds(
    alloc: Global,
    matcher: &Matcher,
    expected: &Tree,
    actual: &Tree,
    own_place: bool,
) -> Result<bool, MatchFault>
    ensures value { IfOk result (λ b. b ≡ holds_of (matcher_view matcher.now)
        (data_of expected.now) (data_of actual.now) own_place) }
    ensures pattern { IfErr result (λ e. e ≡ Pattern → IsRegex (matcher_view matcher.now)) }
    ensures fails { IfErr result (CanFail (matcher_view matcher.now)) }
{
    match matcher {
        Matcher::Equality => Ok(are_equal_trees(expected, actual)),
        Matcher::SameType { min, max } => Ok(
            are_trees_of_one_kind(expected, actual)
                && (!own_place || is_tree_within(*min, *max, expected, actual)),
        ),
        Matcher::Regex(source) => match tree_text(alloc, actual)? {
            Some(text) => finds(alloc, source, &text),
            None => Ok(false),
        },
        Matcher::Include(part) => match tree_text(alloc, actual)? {
            Some(text) => Ok(text.contains(part.as_str())),
            None => Ok(false),
        },
        Matcher::Integer => Ok(matches!(actual, Tree::Whole(_))),
        Matcher::IsNull => Ok(matches!(actual, Tree::Null)),
    }
}

/// Whether the pattern of a text matches somewhere in another.
fn finds(alloc: Global, source: &str, text: &str) -> Result<bool, MatchFault>
    ensures found { IfOk result (λ b. b ≡ is_found (pattern_of source.now) text.now) }
    ensures fails { IfErr result (HasCause as_match_fault source.now) }
{
    let patterns = BuiltPatterns::new(alloc);
    let mut searches = Searches::new(alloc, &patterns);
    Ok(searches.finds(alloc, source, text)?)
}

/// The text of a scalar that has one.
fn tree_text(alloc: Global, tree: &Tree) -> Result<Option<String>, AllocError>
    ensures { IfOk result (λ o. option_map (λ s. string_bytes s) o ≡ text_form_of (data_of tree.now)) }
{
    match tree {
        Tree::Text(text) => Ok(Some(text.clone()?)),
        Tree::Whole(number) => Ok(Some(number.to_string(alloc)?)),
        Tree::Truth(true) => Ok(Some(String::from_str(alloc, "true")?)),
        Tree::Truth(false) => Ok(Some(String::from_str(alloc, "false")?)),
        Tree::Null | Tree::List(_) | Tree::Object(_) => Ok(None),
    }
}

fn are_trees_of_one_kind(a: &Tree, b: &Tree) -> bool
    ensures { result ≡ same_kind (data_of a.now) (data_of b.now) }
{
    match (a, b) {
        (Tree::Null, Tree::Null)
        | (Tree::Truth(_), Tree::Truth(_))
        | (Tree::Whole(_), Tree::Whole(_))
        | (Tree::Text(_), Tree::Text(_))
        | (Tree::List(_), Tree::List(_))
        | (Tree::Object(_), Tree::Object(_)) => true,
        _ => false,
    }
}

/// Whether an `Equality` matcher holds of two trees: one kind, with equal scalars, lists of one length, or objects of one
/// key set.
fn are_equal_trees(a: &Tree, b: &Tree) -> bool
    ensures { result ≡ equal_here (data_of a.now) (data_of b.now) }
{
    match (a, b) {
        (Tree::Null, Tree::Null) => true,
        (Tree::Truth(a), Tree::Truth(b)) => a == b,
        (Tree::Whole(a), Tree::Whole(b)) => a == b,
        (Tree::Text(a), Tree::Text(b)) => a.as_str() == b.as_str(),
        (Tree::List(a), Tree::List(b)) => a.len() == b.len(),
        (Tree::Object(a), Tree::Object(b)) => has_tree_keys_of(a, b) && has_tree_keys_of(b, a),
        _ => false,
    }
}

/// Whether each key of the first is in the second.
fn has_tree_keys_of(a: &BTreeMap<String, Tree>, b: &BTreeMap<String, Tree>) -> bool
    ensures { result ≡ has_keys (members_data a.now.entries) (members_data b.now.entries) }
{
    for (key, _) in a.iter() {
        if !b.contains_key(key.as_str()) {
            return false;
        }
    }
    true
}

fn is_tree_within(min: Option<u64>, max: Option<u64>, expected: &Tree, actual: &Tree) -> bool
    ensures { result ≡ within min max (data_of expected.now) (data_of actual.now) }
{
    match (expected, actual) {
        (Tree::List(_), Tree::List(items)) => {
            let count = items.len() as u64;
            is_at_least(count, min) && is_at_most(count, max)
        }
        _ => true,
    }
}
