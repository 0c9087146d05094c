//! Reading an entry of a table: its matchers, and how they are combined.

ghost use Rattle.std.specs.Prelude.{◌≡◌, ◌≢◌, map, Err, option_map, codes, IfOk, IfErr, is_some, true, nat_eq};
ghost use Rattle.serde_json.specs.View.{view, items_view, members_view};
ghost use Rattle.pact_rules.specs.Matching.{kind, is_pattern};
ghost use Rattle.serde_json.specs.Find.{get_member};
ghost use Rattle.pact_rules.specs.RuleViews.{matcher_view, entry_view};
ghost use Rattle.pact_rules.specs.RuleReading.{Reads, optional_at, as_text, bound as bound_of};
ghost use Rattle.pact_rules.specs.RuleReading.{combine_of as combine_in, pattern_at, same_type_at, nameless_matcher};
ghost use Rattle.pact_rules.specs.RuleReading.{named_matcher, matcher_at, matchers_at, as_list, entry_at};
ghost use Rattle.pact_rules.specs.RuleReading.{include_at, matchers_in};
ghost use Rattle.pact_rules.specs.declared.rule_fault.RuleFault.{RuleFault as RuleFaultModel};
ghost use Rattle.pact_rules.specs.declared.rule_fault.RuleFault.TheVariants.{Memory, Unsupported};

use crate::entry::Entry;
use crate::gathered::gathered_of_many;
use crate::patterns::Patterns;
use crate::rule_fault::{RuleFault, Word};
use crate::table::Matcher;
use serde_json::{Map, Value};
use std::alloc::Global;

/// An optional member: null counts as absent.
fn optional_member<'a>(members: &'a Map<String, Value>, name: &str) -> Option<&'a Value>
    ensures { option_map (λ t. view t.now) result
        ≡ optional_at (members_view members.now.entries) name.now }
{
    match look_up(members, name) {
        Some(value) if !is_null(value) => Some(value),
        _ => None,
    }
}

fn has_member(members: &Map<String, Value>, name: &str) -> bool
    ensures { result ≡ is_some (optional_at (members_view members.now.entries) name.now) }
{
    optional_member(members, name).is_some()
}

fn look_up<'a>(members: &'a Map<String, Value>, name: &str) -> Option<&'a Value>
    ensures { option_map (λ t. view t.now) result
        ≡ get_member name.now (members_view members.now.entries) }
{
    members.get(name)
}

pub(crate) fn is_null(value: &Value) -> bool
    ensures { result ≡ nat_eq (kind (view value.now)) 0 }
{
    match value {
        Value::Null => true,
        Value::Bool(_) | Value::Number(_) | Value::String(_) | Value::Array(_) | Value::Object(_) =>
            false,
    }
}

fn text_of(value: Option<&Value>) -> Option<&str>
    ensures { option_map (λ s. s.now) result ≡ as_text (option_map (λ v. view v.now) value.entry) }
{
    value?.as_str()
}

/// A bound is absent, or a whole number from 0 to 2^64 - 1.
fn bound(value: Option<&Value>) -> Result<Option<u64>, RuleFault>
    ensures reading { Reads (λ n. n) result (λ accepts. bound_of (option_map (λ v. view v.now) value.entry)) }
    ensures never { IfErr result (λ e. e ≢ Memory) }
{
    match value {
        None => Ok(None),
        Some(value) => match value.as_u64() {
            Some(number) => Ok(Some(number)),
            None => Err(RuleFault::BadBound),
        },
    }
}

fn combine_of(value: Option<&Value>) -> Result<bool, RuleFault>
    ensures reading { Reads (λ b. b) result (λ accepts. combine_in accepts (option_map (λ v. view v.now) value.entry)) }
    ensures never { IfErr result (λ e. e ≢ Memory) }
{
    match value {
        None => Ok(false),
        Some(Value::String(word)) if word.as_str() == "AND" => Ok(false),
        Some(Value::String(word)) if word.as_str() == "OR" => Ok(true),
        Some(_) => Err(RuleFault::BadCombine),
    }
}

fn same_type_of(members: &Map<String, Value>) -> Result<Matcher, RuleFault>
    ensures reading { Reads matcher_view result
        (λ accepts. same_type_at accepts (members_view members.now.entries)) }
    ensures never { IfErr result (λ e. e ≢ Memory) }
{
    let min = bound(optional_member(members, "min"))?;
    let max = bound(optional_member(members, "max"))?;
    match (min, max) {
        (Some(min), Some(max)) if min > max => Err(RuleFault::BadBound),
        _ => Ok(Matcher::SameType { min, max }),
    }
}

fn pattern_of(
    alloc: Global,
    patterns: &mut Patterns,
    members: &Map<String, Value>,
) -> Result<Matcher, RuleFault>
    ensures { Reads matcher_view result
        (λ accepts. pattern_at accepts (members_view members.now.entries)) }
{
    match text_of(optional_member(members, "regex")) {
        Some(source) => {
            patterns.accept(alloc, source)?;
            Ok(Matcher::Regex(String::from_str(alloc, source)?))
        }
        None => Err(RuleFault::Pattern),
    }
}

fn nameless_of(
    alloc: Global,
    patterns: &mut Patterns,
    members: &Map<String, Value>,
) -> Result<Matcher, RuleFault>
    ensures { Reads matcher_view result
        (λ accepts. nameless_matcher accepts (members_view members.now.entries)) }
{
    if has_member(members, "regex") {
        pattern_of(alloc, patterns, members)
    } else if has_member(members, "min") || has_member(members, "max") {
        same_type_of(members)
    } else {
        unsupported(alloc, "?")
    }
}

fn unsupported(alloc: Global, name: &str) -> Result<Matcher, RuleFault>
    ensures { Reads matcher_view result (λ accepts. Err (Unsupported name.now)) }
{
    Err(RuleFault::Unsupported(Word::new(String::from_str(alloc, name)?)))
}

/// A matcher by the text under `match`; under a header there is no integer, number or null.
fn named_of(
    alloc: Global,
    patterns: &mut Patterns,
    in_header: bool,
    members: &Map<String, Value>,
    name: &str,
) -> Result<Matcher, RuleFault>
    ensures { Reads matcher_view result
        (λ accepts. named_matcher accepts in_header (members_view members.now.entries) name.now) }
{
    if name == "equality" {
        Ok(Matcher::Equality)
    } else if name == "type" {
        same_type_of(members)
    } else if name == "regex" {
        pattern_of(alloc, patterns, members)
    } else if name == "include" {
        include_of(alloc, members)
    } else if !in_header && (name == "integer" || name == "number") {
        Ok(Matcher::Integer)
    } else if !in_header && name == "null" {
        Ok(Matcher::IsNull)
    } else {
        unsupported(alloc, name)
    }
}

fn include_of(alloc: Global, members: &Map<String, Value>) -> Result<Matcher, RuleFault>
    ensures { Reads matcher_view result (λ accepts. include_at (members_view members.now.entries)) }
{
    match text_of(optional_member(members, "value")) {
        Some(part) => Ok(Matcher::Include(String::from_str(alloc, part)?)),
        None => Err(RuleFault::Form),
    }
}

fn matcher_of(
    alloc: Global,
    patterns: &mut Patterns,
    in_header: bool,
    value: &Value,
) -> Result<Matcher, RuleFault>
    ensures { Reads matcher_view result
        (λ accepts. matcher_at accepts in_header (view value.now)) }
{
    let Some(members) = value.as_object() else {
        return Err(RuleFault::Form);
    };
    let Some(name) = optional_member(members, "match") else {
        return nameless_of(alloc, patterns, members);
    };
    match text_of(Some(name)) {
        Some(name) => named_of(alloc, patterns, in_header, members, name),
        None => Err(RuleFault::Form),
    }
}

fn matchers_of(
    alloc: Global,
    patterns: &mut Patterns,
    in_header: bool,
    items: &Vec<Value>,
) -> Result<Vec<Matcher>, RuleFault>
    ensures { Reads (λ v. map matcher_view v.items) result
        (λ accepts. matchers_at accepts in_header (items_view items.now.items)) }
{
    let mut matchers = Vec::new(alloc);
    for item in items {
        matchers.push(matcher_of(alloc, patterns, in_header, item)?)?;
    }
    Ok(matchers)
}

fn list_of(value: Option<&Value>) -> Option<&Vec<Value>>
    ensures { option_map (λ v. items_view v.now.items) result
        ≡ as_list (option_map (λ v. view v.now) value.entry) }
{
    value?.as_array()
}

/// An entry after its path. That it is no object with a list of matchers is found before memory is taken.
pub(crate) fn entry_of(
    alloc: Global,
    patterns: &mut Patterns,
    in_header: bool,
    value: &Value,
) -> Result<Entry, RuleFault>
    ensures reading { Reads entry_view result (λ accepts. entry_at accepts in_header (view value.now)) }
    ensures form { (e : RuleFaultModel) → matchers_in (view value.now) ≡ Err e → result ≡ Err e }
{
    let Some(members) = value.as_object() else {
        return Err(RuleFault::Form);
    };
    let Some(items) = list_of(optional_member(members, "matchers")) else {
        return Err(RuleFault::Form);
    };
    let any = combine_of(optional_member(members, "combine"))?;
    let matchers = matchers_of(alloc, patterns, in_header, items)?;
    let many = gathered_of_many(alloc, any, &matchers)?;
    Ok(Entry {
        any,
        matchers,
        many,
    })
}
