//! Whether an entry holds of an expected and an actual value.

ghost use Rattle.std.specs.Prelude.{◌≡◌, ◌||◌, not, ℕ, true, false, Bool, Option, string_bytes, IfOk, IfErr, IsTrue};
ghost use Rattle.std.specs.List.{list_any};
ghost use Rattle.serde_json.specs.Data.{Data};
ghost use Rattle.serde_json.specs.View.{view};
ghost use Rattle.pact_rules.specs.Gathered.{joined, judged, plain_hold, text_hold, texts_hold, gathered_hold};
ghost use Rattle.pact_rules.specs.Gathered.{has_pattern, AreApart};
ghost use Rattle.pact_rules.specs.Gathered.{bounds_hold as bounds_hold_of};
ghost use Rattle.pact_rules.specs.Matching.{holds, entry_holds, within, contains, pattern_of, is_found};
ghost use Rattle.pact_rules.specs.Rules.{entry_has_regex};
ghost use Rattle.pact_rules.specs.RuleViews.{entry_view};
ghost use Rattle.pact_rules.specs.declared.matching.MatchFault.TheVariants.{Pattern};

use crate::entry::Entry;
use crate::gathered::{Bounds, Gathered};
use crate::matching::{
    MatchFault, are_equal, are_of_one_kind, holds_with, is_whole, is_within, text_form,
};
use crate::parts::has_one;
use crate::rule_reader::is_null;
use pact_patterns::Searches;
use serde_json::Value;
use std::alloc::Global;

impl Entry {
    /// Whether the matchers hold together, or one of them does. Memory may run out, and `Pattern` comes only if the
    /// entry has a Regex matcher whose pattern is refused.
    pub fn holds_with(
        &self,
        alloc: Global,
        searches: &mut Searches<'_>,
        expected: &Value,
        actual: &Value,
        own_place: bool,
    ) -> Result<bool, MatchFault>
        ensures value { IfOk result (λ b. b ≡ entry_holds (entry_view self.now)
            (view expected.now) (view actual.now) own_place) }
        ensures pattern { IfErr result (λ e. e ≡ Pattern → entry_has_regex (entry_view self.now) ≡ true) }
    {
        match &self.many {
            Some(many) => Ok(
                many.gathered.hold(
                    alloc,
                    searches,
                    self.any,
                    many.are_apart,
                    expected,
                    actual,
                    own_place,
                )?,
            ),
            None => self.each_holds(alloc, searches, expected, actual, own_place),
        }
    }

    /// The same by each matcher, one after another.
    pub(crate) fn each_holds(
        &self,
        alloc: Global,
        searches: &mut Searches<'_>,
        expected: &Value,
        actual: &Value,
        own_place: bool,
    ) -> Result<bool, MatchFault>
        ensures value { IfOk result (λ b. b ≡ entry_holds (entry_view self.now)
            (view expected.now) (view actual.now) own_place) }
        ensures pattern { IfErr result (λ e. e ≡ Pattern → entry_has_regex (entry_view self.now) ≡ true) }
    {
        for matcher in &self.matchers {
            if holds_with(alloc, searches, matcher, expected, actual, own_place)? == self.any {
                return Ok(self.any);
            }
        }
        Ok(!self.any)
    }
}

impl Gathered {
    /// Whether what is asked holds: with `any` one thing of it, or else all.
    fn hold(
        &self,
        alloc: Global,
        searches: &mut Searches<'_>,
        any: bool,
        are_apart: bool,
        expected: &Value,
        actual: &Value,
        own_place: bool,
    ) -> Result<bool, MatchFault>
        requires { IsTrue are_apart → AreApart self.now.parts.items }
        ensures value { IfOk result (λ b. b ≡ gathered_hold any self.now (view expected.now)
            (view actual.now) own_place) }
        ensures pattern { IfErr result (λ e. e ≡ Pattern → has_pattern self.now ≡ true) }
    {
        if self.plain_hold(any, expected, actual, own_place) == any {
            return Ok(any);
        }
        self.texts_hold(alloc, searches, any, are_apart, actual)
    }

    /// What is asked without a text.
    pub(crate) fn plain_hold(
        &self,
        any: bool,
        expected: &Value,
        actual: &Value,
        own_place: bool,
    ) -> bool
        ensures { result ≡ plain_hold any self.now (view expected.now) (view actual.now) own_place }
    {
        let equality = if self.equality {
            are_equal(expected, actual)
        } else {
            !any
        };
        let integer = if self.integer { is_whole(actual) } else { !any };
        let null = if self.null { is_null(actual) } else { !any };
        let bounds = bounds_hold(&self.bounds, any, expected, actual, own_place);
        join(any, equality, join(any, integer, join(any, null, bounds)))
    }

    /// What is asked of a text.
    fn texts_hold(
        &self,
        alloc: Global,
        searches: &mut Searches<'_>,
        any: bool,
        are_apart: bool,
        actual: &Value,
    ) -> Result<bool, MatchFault>
        requires { IsTrue are_apart → AreApart self.now.parts.items }
        ensures value { IfOk result (λ b. (x : Data) (own : Bool)
            → b ≡ texts_hold any self.now x (view actual.now) own) }
        ensures pattern { IfErr result (λ e. e ≡ Pattern → has_pattern self.now ≡ true) }
    {
        match text_form(alloc, actual)? {
            Some(text) => self.text_holds(alloc, searches, any, are_apart, &text),
            None => Ok(join(
                any,
                nothing_holds(&self.parts, any),
                nothing_holds(&self.patterns, any),
            )),
        }
    }

    /// What is asked of a text, of this one.
    fn text_holds(
        &self,
        alloc: Global,
        searches: &mut Searches<'_>,
        any: bool,
        are_apart: bool,
        text: &str,
    ) -> Result<bool, MatchFault>
        requires { IsTrue are_apart → AreApart self.now.parts.items }
        ensures value { IfOk result (λ b. b ≡ text_hold any self.now text.now) }
        ensures pattern { IfErr result (λ e. e ≡ Pattern → has_pattern self.now ≡ true) }
    {
        if parts_hold(&self.parts, any, are_apart, text) == any {
            return Ok(any);
        }
        patterns_hold(alloc, searches, &self.patterns, any, text)
    }
}

/// Both answers together: with `any` either is enough, or else both are wanted.
pub(crate) fn join(any: bool, a: bool, b: bool) -> bool
    ensures { result ≡ joined any a b }
{
    if any { a || b } else { a && b }
}

/// What these say if none of them holds.
pub(crate) fn nothing_holds(texts: &Vec<String>, any: bool) -> bool
    ensures { result ≡ judged any (λ s. false) texts.now.items }
{
    match texts.first() {
        Some(_) => false,
        None => !any,
    }
}

fn bounds_hold(
    bounds: &Vec<Bounds>,
    any: bool,
    expected: &Value,
    actual: &Value,
    own_place: bool,
) -> bool
    ensures { result ≡ judged any (bounds_hold_of (view expected.now) (view actual.now) own_place) bounds.now.items }
{
    if asks_bounds(expected, actual, own_place) {
        each_bounds_hold(bounds, any, expected, actual, own_place)
    } else {
        kinds_hold(bounds, any, are_of_one_kind(expected, actual))
    }
}

/// Whether bounds count here: at the own place of the entry, between two lists.
fn asks_bounds(expected: &Value, actual: &Value, own_place: bool) -> bool
    ensures { (min max : Option ℕ) → result ≡ false
        → (not own_place || within min max (view expected.now) (view actual.now)) ≡ true }
{
    match (expected, actual) {
        (Value::Array(_), Value::Array(_)) => own_place,
        _ => false,
    }
}

/// The same, where each says whether the kinds are one.
fn kinds_hold(bounds: &Vec<Bounds>, any: bool, is_one_kind: bool) -> bool
    ensures { result ≡ judged any (λ b. is_one_kind) bounds.now.items }
{
    match bounds.first() {
        Some(_) => is_one_kind,
        None => !any,
    }
}

fn each_bounds_hold(
    bounds: &Vec<Bounds>,
    any: bool,
    expected: &Value,
    actual: &Value,
    own_place: bool,
) -> bool
    ensures { result ≡ judged any (bounds_hold_of (view expected.now) (view actual.now) own_place) bounds.now.items }
{
    for it in bounds {
        if are_within(it, expected, actual, own_place) == any {
            return any;
        }
    }
    !any
}

fn are_within(bounds: &Bounds, expected: &Value, actual: &Value, own_place: bool) -> bool
    ensures { result ≡ bounds_hold_of (view expected.now) (view actual.now) own_place bounds.now }
{
    are_of_one_kind(expected, actual)
        && (!own_place || is_within(bounds.min, bounds.max, expected, actual))
}

pub(crate) fn parts_hold(parts: &Vec<String>, any: bool, are_apart: bool, text: &str) -> bool
    requires { IsTrue are_apart → AreApart parts.now.items }
    ensures { result ≡ judged any (λ s. contains (string_bytes s) text.now) parts.now.items }
{
    if any && are_apart {
        has_one(parts, text)
    } else {
        each_part_holds(parts, any, text)
    }
}

fn each_part_holds(parts: &Vec<String>, any: bool, text: &str) -> bool
    ensures { result ≡ judged any (λ s. contains (string_bytes s) text.now) parts.now.items }
{
    for part in parts {
        if has_part(text, part) == any {
            return any;
        }
    }
    !any
}

fn has_part(text: &str, part: &str) -> bool
    ensures { result ≡ contains part.now text.now }
{
    text.contains(part)
}

fn patterns_hold(
    alloc: Global,
    searches: &mut Searches<'_>,
    patterns: &Vec<String>,
    any: bool,
    text: &str,
) -> Result<bool, MatchFault>
    ensures value { IfOk result (λ b. b
        ≡ judged any (λ s. is_found (pattern_of (string_bytes s)) text.now) patterns.now.items) }
    ensures pattern { IfErr result (λ e. e ≡ Pattern → list_any (λ s. true) patterns.now.items ≡ true) }
{
    for pattern in patterns {
        if searches.finds(alloc, pattern, text)? == any {
            return Ok(any);
        }
    }
    Ok(!any)
}
