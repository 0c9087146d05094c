//! Whether a value fits an expected one, in one walk down both.

ghost use Rattle.std.specs.Prelude.{◌≡◌, ◌++◌, ◌∷◌, ◌↔◌, true, [], MatchOption, IfOk, IfErr, OnOk, IsTrue, option_map};
ghost use Rattle.serde_json.specs.Data.{no_items, no_members};
ghost use Rattle.pact_paths.specs.Paths.{Location};
ghost use Rattle.pact_paths.specs.Locations.{step_view};
ghost use Rattle.pact_rules.specs.Rules.{entry_has_regex, has_regex};
ghost use Rattle.pact_rules.specs.RuleViews.{entry_view};
ghost use Rattle.serde_json.specs.View.{view, items_view, members_view};
ghost use Rattle.pact_rules.specs.Walks.{HasReached, WasStarted};
ghost use Rattle.pact_rules.specs.Matching.{entry_holds as entry_holds_of};
ghost use Rattle.pact_rules.specs.declared.matching.MatchFault.TheVariants.{Pattern};
ghost use Rattle.reply_check.specs.Fitting.{Fits};
ghost use Rattle.reply_check.specs.Computed.{fits as fits_of, items_fit as items_fit_of};
ghost use Rattle.reply_check.specs.Computed.{members_fit as members_fit_of, meets_here as meets_here_of, example};
ghost use Rattle.reply_check.specs.Computed.{expected_items, expected_members};
ghost use Rattle.reply_check.specs.Deferred.{AreOf, Defers};

use crate::deferred::Deferred;
use pact_rules::{Alive, Entry, MatchFault, RuleTable, Searches, Step, are_alike, has_keys_of};
use serde_json::{Map, Value};
use std::alloc::Global;

/// Whether the actual value fits the expected one at the root, with the table's rules for bodies. Memory may run out,
/// and `Pattern` comes only if the table has a Regex matcher whose pattern is refused.
pub fn fits(
    alloc: Global,
    searches: &mut Searches<'_>,
    rules: &RuleTable,
    expected: &Value,
    actual: &Value,
) -> Result<bool, MatchFault>
    ensures value { IfOk result (λ b. IsTrue b
        ↔ Fits rules.now [] (view expected.now) (view actual.now)) }
    ensures pattern { IfErr result (λ e. e ≡ Pattern → has_regex rules.now ≡ true) }
{
    let alive = rules.start(alloc)?;
    let mut deferred = Deferred::nothing(alloc);
    if !fits_here(
        alloc,
        searches,
        rules,
        &mut deferred,
        &alive,
        actual,
        expected,
    )? {
        return Ok(false);
    }
    deferred.holds(alloc, searches, rules)
}

/// Whether the actual value fits the expected one at the steps that the walk has taken, but for what is
/// deferred. The actual value, which the walk goes down, comes first in the calls that call one another.
#[cycle(fitting)]
fn fits_here<'r>(
    alloc: Global,
    searches: &mut Searches<'_>,
    rules: &'r RuleTable,
    deferred: &mut Deferred<'r>,
    alive: &Alive,
    actual: &Value,
    expected: &Value,
) -> Result<bool, MatchFault>
    requires started { WasStarted rules.now alive.now }
    requires of { AreOf rules.now deferred.old }
    ensures of { OnOk result (AreOf rules.now deferred.new) }
    ensures value { IfOk result (λ b. (at : Location) → HasReached rules.now alive.now at
        → Defers deferred.old deferred.new b (fits_of rules.now at (view expected.now) (view actual.now))) }
    ensures pattern { IfErr result (λ e. e ≡ Pattern → has_regex rules.now ≡ true) }
{
    if !meets_here(alloc, searches, rules, deferred, alive, expected, actual)? {
        return Ok(false);
    }
    match actual {
        Value::Array(items) => match as_list(expected) {
            Some(examples) => items_fit(alloc, searches, rules, deferred, alive, items, examples),
            None => Ok(true),
        },
        Value::Object(members) => match as_object(expected) {
            Some(examples) => {
                if !has_keys_of(examples, members) {
                    return Ok(false);
                }
                members_fit(alloc, searches, rules, deferred, alive, members, examples)
            }
            None => Ok(true),
        },
        Value::Null | Value::Bool(_) | Value::Number(_) | Value::String(_) => Ok(true),
    }
}

/// The same, one more step down.
#[cycle(fitting)]
fn fits_below<'r>(
    alloc: Global,
    searches: &mut Searches<'_>,
    rules: &'r RuleTable,
    deferred: &mut Deferred<'r>,
    alive: &Alive,
    step: &Step,
    actual: &Value,
    expected: &Value,
) -> Result<bool, MatchFault>
    requires started { WasStarted rules.now alive.now }
    requires of { AreOf rules.now deferred.old }
    ensures of { OnOk result (AreOf rules.now deferred.new) }
    ensures value { IfOk result (λ b. (at : Location) → HasReached rules.now alive.now at
        → Defers deferred.old deferred.new b (fits_of rules.now (at ++ step_view step.now ∷ [])
        (view expected.now) (view actual.now))) }
    ensures pattern { IfErr result (λ e. e ≡ Pattern → has_regex rules.now ≡ true) }
{
    let below = alive.step(alloc, rules, step)?;
    fits_here(alloc, searches, rules, deferred, &below, actual, expected)
}

fn as_list(value: &Value) -> Option<&Vec<Value>>
    ensures { MatchOption result (expected_items (view value.now) ≡ no_items)
        (λ v. expected_items (view value.now) ≡ items_view v.now.items) }
{
    match value {
        Value::Array(items) => Some(items),
        Value::Null | Value::Bool(_) | Value::Number(_) | Value::String(_) | Value::Object(_) =>
            None,
    }
}

fn as_object(value: &Value) -> Option<&Map<String, Value>>
    ensures { MatchOption result (expected_members (view value.now) ≡ no_members)
        (λ m. expected_members (view value.now) ≡ members_view m.now.entries) }
{
    match value {
        Value::Object(members) => Some(members),
        Value::Null | Value::Bool(_) | Value::Number(_) | Value::String(_) | Value::Array(_) =>
            None,
    }
}

/// Whether each item fits the expected one of its index, or else the first expected one.
#[cycle(fitting)]
fn items_fit<'r>(
    alloc: Global,
    searches: &mut Searches<'_>,
    rules: &'r RuleTable,
    deferred: &mut Deferred<'r>,
    alive: &Alive,
    actual: &Vec<Value>,
    expected: &Vec<Value>,
) -> Result<bool, MatchFault>
    requires started { WasStarted rules.now alive.now }
    requires of { AreOf rules.now deferred.old }
    ensures of { OnOk result (AreOf rules.now deferred.new) }
    ensures value { IfOk result (λ b. (at : Location) → HasReached rules.now alive.now at
        → Defers deferred.old deferred.new b (items_fit_of rules.now at
        (items_view expected.now.items) 0 (items_view actual.now.items))) }
    ensures pattern { IfErr result (λ e. e ≡ Pattern → has_regex rules.now ≡ true) }
{
    for (index, item) in actual.iter().enumerate() {
        if let Some(example) = example_at(expected, index) {
            let step = Step::Index(index as u64);
            if !fits_below(
                alloc, searches, rules, deferred, alive, &step, item, example,
            )? {
                return Ok(false);
            }
        }
    }
    Ok(true)
}

/// Whether each member that is expected fits.
#[cycle(fitting)]
fn members_fit<'r>(
    alloc: Global,
    searches: &mut Searches<'_>,
    rules: &'r RuleTable,
    deferred: &mut Deferred<'r>,
    alive: &Alive,
    actual: &Map<String, Value>,
    expected: &Map<String, Value>,
) -> Result<bool, MatchFault>
    requires started { WasStarted rules.now alive.now }
    requires of { AreOf rules.now deferred.old }
    ensures of { OnOk result (AreOf rules.now deferred.new) }
    ensures value { IfOk result (λ b. (at : Location) → HasReached rules.now alive.now at
        → Defers deferred.old deferred.new b (members_fit_of rules.now at
        (members_view expected.now.entries) (members_view actual.now.entries))) }
    ensures pattern { IfErr result (λ e. e ≡ Pattern → has_regex rules.now ≡ true) }
{
    for (key, member) in actual.iter() {
        if let Some(example) = expected.get(key.as_str()) {
            let step = Step::Key(key.clone()?);
            if !fits_below(
                alloc, searches, rules, deferred, alive, &step, member, example,
            )? {
                return Ok(false);
            }
        }
    }
    Ok(true)
}

/// The expected item at an index, or the first if the example is shorter.
fn example_at(expected: &Vec<Value>, index: usize) -> Option<&Value>
    ensures { option_map (λ v. view v.now) result ≡ example (items_view expected.now.items) index }
{
    expected.get(index).or(expected.first())
}

/// Whether the two meet here, but for what is deferred: the chosen entry holds, or they are alike if none is.
/// Patterns are deferred if what is learned of each of them may be forgotten before it is asked again.
fn meets_here<'r>(
    alloc: Global,
    searches: &mut Searches<'_>,
    rules: &'r RuleTable,
    deferred: &mut Deferred<'r>,
    alive: &Alive,
    expected: &Value,
    actual: &Value,
) -> Result<bool, MatchFault>
    requires started { WasStarted rules.now alive.now }
    requires of { AreOf rules.now deferred.old }
    ensures of { OnOk result (AreOf rules.now deferred.new) }
    ensures value { IfOk result (λ b. (at : Location) → HasReached rules.now alive.now at
        → Defers deferred.old deferred.new b (meets_here_of rules.now at (view expected.now) (view actual.now))) }
    ensures pattern { IfErr result (λ e. e ≡ Pattern → has_regex rules.now ≡ true) }
{
    match alive.chosen(rules) {
        Some(index) => {
            let own_place = alive.own_place(rules);
            if searches.may_forget() && rules.entry(index).has_patterns() {
                deferred.holds_or_defers(alloc, searches, rules, index, expected, actual, own_place)
            } else {
                entry_holds(
                    alloc,
                    searches,
                    rules.entry(index),
                    expected,
                    actual,
                    own_place,
                )
            }
        }
        None => Ok(are_alike(expected, actual)),
    }
}

/// Whether the matchers hold together, or one of them does.
pub(crate) fn entry_holds(
    alloc: Global,
    searches: &mut Searches<'_>,
    entry: &Entry,
    expected: &Value,
    actual: &Value,
    own_place: bool,
) -> Result<bool, MatchFault>
    ensures value { IfOk result (λ b. b ≡ entry_holds_of (entry_view entry.now)
        (view expected.now) (view actual.now) own_place) }
    ensures pattern { IfErr result (λ e. e ≡ Pattern → entry_has_regex (entry_view entry.now) ≡ true) }
{
    entry.holds_with(alloc, searches, expected, actual, own_place)
}
