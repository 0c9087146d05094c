//! Reading a whole table: its categories, and the entries of each.

ghost use Rattle.std.specs.Prelude.{◌≡◌, MatchResult, IfOk, Ok, Err, map, string_bytes, bytes_eq};
ghost use Rattle.std.specs.List.{filter, list_any};
ghost use Rattle.serde_json.specs.View.{view, members_view};
ghost use Rattle.pact_rules.specs.Rules.{rule_text, name_key, has_effect, no_rules};
ghost use Rattle.pact_rules.specs.RuleViews.{rule_view, header_view, body_rules, header_rules, IsKeyedBy};
ghost use Rattle.pact_rules.specs.RuleReading.{IsReading, Reads, path_fault, path_at, body_rule_at, header_rule_at};
ghost use Rattle.pact_rules.specs.RuleReading.{body_at, headers_at, body_in, headers_in, category_at, categories_at};
ghost use Rattle.pact_rules.specs.RuleReading.{found_in as found_of, has_old_key as has_old_key_of, members_in};
ghost use Rattle.pact_paths.specs.PathReading.{computed_path};
ghost use Rattle.pact_rules.specs.declared.rule_fault.RuleFault.{RuleFault as RuleFaultModel};
ghost use Rattle.pact_rules.specs.declared.rule_fault.RuleFault.TheVariants.{Memory};

use crate::patterns::Patterns;
use crate::rule_fault::{RuleFault, Word};
use crate::rule_reader::{entry_of, is_null};
use crate::table::{BodyRule, HeaderRule, RuleTable};
use pact_paths::{Path, PathFault};
use serde_json::{Map, Value};
use std::alloc::{AllocError, Global};
use std::collections::BTreeMap;
use std::marker::Model;

/// Any fault of a path's text is one fault of a table.
fn as_rule_fault(fault: PathFault) -> RuleFault
    ensures { result ≡ path_fault fault }
{
    match fault {
        PathFault::Memory => RuleFault::Memory,
        PathFault::NoRoot | PathFault::BadToken(_) | PathFault::TooManyTokens => RuleFault::BadPath,
    }
}

/// A body rule's path. A text that is none is found so before memory is taken.
fn path_of(alloc: Global, key: &str) -> Result<Path, RuleFault>
    ensures reading { Reads (λ p. p) result (λ accepts. path_at key.now) }
    ensures fault { (e : RuleFaultModel) → path_at key.now ≡ Err e → result ≡ Err e }
{
    match Path::read(alloc, key) {
        Ok(path) => Ok(path),
        Err(fault) => Err(as_rule_fault(fault)),
    }
}

/// Whether a body entry has the canonical text.
fn is_path_taken(rules: &BTreeMap<String, BodyRule>, text: &str) -> bool
    requires { IsKeyedBy rule_view rule_text rules.now.entries }
    ensures { result
        ≡ list_any (λ r. bytes_eq text.now (rule_text r)) (body_rules rules.now.entries) }
{
    rules.contains_key(text)
}

/// A body entry with its canonical text, beside those that were read before it.
fn body_rule(
    alloc: Global,
    patterns: &mut Patterns,
    before: &BTreeMap<String, BodyRule>,
    key: &str,
    value: &Value,
) -> Result<(String, BodyRule), RuleFault>
    requires { IsKeyedBy rule_view rule_text before.now.entries }
    ensures value { Reads (λ p. rule_view p.1) result
        (λ accepts. body_rule_at computed_path accepts (body_rules before.now.entries) key.now (view value.now)) }
    ensures text { IfOk result (λ p. string_bytes p.0 ≡ rule_text (rule_view p.1)) }
    ensures path { (e : RuleFaultModel) → path_at key.now ≡ Err e → result ≡ Err e }
{
    let path = path_of(alloc, key)?;
    let text = path.text(alloc)?;
    if is_path_taken(before, text.as_str()) {
        return Err(RuleFault::SamePathTwice);
    }
    let entry = entry_of(alloc, patterns, false, value)?;
    Ok((text, BodyRule { path, entry }))
}

/// The body entries of an object, beside those that were read before them.
fn read_body(
    alloc: Global,
    patterns: &mut Patterns,
    before: BTreeMap<String, BodyRule>,
    members: &Map<String, Value>,
) -> Result<BTreeMap<String, BodyRule>, RuleFault>
    requires { IsKeyedBy rule_view rule_text before.entries }
    ensures value { Reads (λ m. body_rules m.entries) result
        (λ accepts. body_at accepts (body_rules before.entries) (members_view members.now.entries)) }
    ensures keyed { IfOk result (λ m. IsKeyedBy rule_view rule_text m.entries) }
{
    let mut rules = before;
    for (key, value) in members.iter() {
        let (text, rule) = body_rule(alloc, patterns, &rules, key.as_str(), value)?;
        drop(rules.insert(text, rule)?);
    }
    Ok(rules)
}

/// Whether a header entry has the name in lower case.
fn is_name_taken(rules: &BTreeMap<String, HeaderRule>, name: &str) -> bool
    requires { IsKeyedBy header_view name_key rules.now.entries }
    ensures { result
        ≡ list_any (λ h. bytes_eq name.now (name_key h)) (header_rules rules.now.entries) }
{
    rules.contains_key(name)
}

/// A header entry with its name in lower case, beside those that were read before it.
fn header_rule(
    alloc: Global,
    patterns: &mut Patterns,
    before: &BTreeMap<String, HeaderRule>,
    key: &str,
    value: &Value,
) -> Result<(String, HeaderRule), RuleFault>
    requires { IsKeyedBy header_view name_key before.now.entries }
    ensures value { Reads (λ p. header_view p.1) result
        (λ accepts. header_rule_at accepts (header_rules before.now.entries) key.now (view value.now)) }
    ensures text { IfOk result (λ p. string_bytes p.0 ≡ name_key (header_view p.1)) }
{
    let name = key.to_ascii_lowercase(alloc)?;
    if is_name_taken(before, name.as_str()) {
        return Err(RuleFault::SamePathTwice);
    }
    let entry = entry_of(alloc, patterns, true, value)?;
    let as_written = String::from_str(alloc, key)?;
    Ok((
        name,
        HeaderRule {
            name: as_written,
            entry,
        },
    ))
}

/// The header entries of an object, beside those that were read before them.
fn read_headers(
    alloc: Global,
    patterns: &mut Patterns,
    before: BTreeMap<String, HeaderRule>,
    members: &Map<String, Value>,
) -> Result<BTreeMap<String, HeaderRule>, RuleFault>
    requires { IsKeyedBy header_view name_key before.entries }
    ensures value { Reads (λ m. header_rules m.entries) result
        (λ accepts. headers_at accepts (header_rules before.entries) (members_view members.now.entries)) }
    ensures keyed { IfOk result (λ m. IsKeyedBy header_view name_key m.entries) }
{
    let mut rules = before;
    for (key, value) in members.iter() {
        let (name, rule) = header_rule(alloc, patterns, &rules, key.as_str(), value)?;
        drop(rules.insert(name, rule)?);
    }
    Ok(rules)
}

/// The entries found so far: each body entry under its canonical text, each header entry under its name in lower case.
#[derive(Drop)]
struct Found {
    body: BTreeMap<String, BodyRule>,
    headers: BTreeMap<String, HeaderRule>,
}

impl Model for Found {
    ghost use Rattle.pact_rules.specs.Rules.{Rules, rule_text, name_key};

    ghost Value = { Rules };

    ghost use Rattle.pact_rules.specs.RuleViews.{rule_view, header_view, body_rules, header_rules, IsKeyedBy};

    ghost view = { λ f. record {
      body = body_rules f.body.entries;
      headers = header_rules f.headers.entries;
    } };

    ghost invariant = { λ f. IsKeyedBy rule_view rule_text f.body.entries
        × IsKeyedBy header_view name_key f.headers.entries };
}

impl Found {
    fn with_body(
        self,
        alloc: Global,
        patterns: &mut Patterns,
        value: &Value,
    ) -> Result<Found, RuleFault>
        ensures { Reads (λ f. f) result
            (λ accepts. body_in computed_path accepts self (view value.now)) }
    {
        let Found { body, headers } = self;
        let Some(members) = value.as_object() else {
            return Err(RuleFault::Form);
        };
        let body = read_body(alloc, patterns, body, members)?;
        Ok(Found { body, headers })
    }

    fn with_headers(
        self,
        alloc: Global,
        patterns: &mut Patterns,
        value: &Value,
    ) -> Result<Found, RuleFault>
        ensures { Reads (λ f. f) result
            (λ accepts. headers_in accepts self (view value.now)) }
    {
        let Found { body, headers } = self;
        let Some(members) = value.as_object() else {
            return Err(RuleFault::Form);
        };
        let headers = read_headers(alloc, patterns, headers, members)?;
        Ok(Found { body, headers })
    }

    /// The entries of a category, beside those found before; null counts as absent.
    fn with_category(
        self,
        alloc: Global,
        patterns: &mut Patterns,
        name: &str,
        value: &Value,
    ) -> Result<Found, RuleFault>
        ensures { Reads (λ f. f) result
            (λ accepts. category_at computed_path accepts self name.now (view value.now)) }
    {
        if name == "body" {
            if is_null(value) {
                Ok(self)
            } else {
                self.with_body(alloc, patterns, value)
            }
        } else if name == "header" {
            if is_null(value) {
                Ok(self)
            } else {
                self.with_headers(alloc, patterns, value)
            }
        } else if name == "path" || name == "query" {
            Ok(self)
        } else {
            Err(RuleFault::Unsupported(Word::new(String::from_str(alloc, name)?)))
        }
    }
}

/// Whether a key begins with `$`, as in version 2 of the Pact Specification.
fn has_old_key(members: &Map<String, Value>) -> bool
    ensures { result ≡ has_old_key_of (members_view members.now.entries) }
{
    for (key, _) in members.iter() {
        if key.starts_with("$") {
            return true;
        }
    }
    false
}

/// The entries of all categories.
fn categories(
    alloc: Global,
    patterns: &mut Patterns,
    members: &Map<String, Value>,
) -> Result<Found, RuleFault>
    ensures { Reads (λ f. f) result
        (λ accepts. categories_at computed_path accepts no_rules (members_view members.now.entries)) }
{
    let mut found = Found {
        body: BTreeMap::new(alloc),
        headers: BTreeMap::new(alloc),
    };
    for (name, value) in members.iter() {
        found = found.with_category(alloc, patterns, name.as_str(), value)?;
    }
    Ok(found)
}

fn found_in(alloc: Global, patterns: &mut Patterns, value: &Value) -> Result<Found, RuleFault>
    ensures reading { Reads (λ f. f) result (λ accepts. found_of computed_path accepts (view value.now)) }
    ensures first { (e : RuleFaultModel) → members_in (view value.now) ≡ Err e → result ≡ Err e }
{
    let Some(members) = value.as_object() else {
        return Err(RuleFault::Form);
    };
    if has_old_key(members) {
        return Err(RuleFault::OldRules);
    }
    categories(alloc, patterns, members)
}

/// The body entries with an effect, in order of canonical text.
fn effective_body(
    alloc: Global,
    rules: BTreeMap<String, BodyRule>,
) -> Result<Vec<BodyRule>, AllocError>
    ensures { IfOk result (λ v. map rule_view v.items
        ≡ filter (λ r. has_effect r.entry) (body_rules rules.entries)) }
{
    let mut kept = Vec::new(alloc);
    for (_, rule) in rules {
        if !rule.entry.matchers.is_empty() {
            kept.push(rule)?;
        }
    }
    Ok(kept)
}

/// The header entries with an effect, in order of names in lower case.
fn effective_headers(
    alloc: Global,
    rules: BTreeMap<String, HeaderRule>,
) -> Result<Vec<HeaderRule>, AllocError>
    ensures { IfOk result (λ v. map header_view v.items
        ≡ filter (λ h. has_effect h.entry) (header_rules rules.entries)) }
{
    let mut kept = Vec::new(alloc);
    for (_, rule) in rules {
        if !rule.entry.matchers.is_empty() {
            kept.push(rule)?;
        }
    }
    Ok(kept)
}

impl RuleTable {
    /// What `read` makes of a tree, of the value that `serde_json` read, for one of the tables of a file: a pattern that
    /// was read for an earlier one isn't read again, and one for which the file has no room is refused.
    pub fn read_with(
        alloc: Global,
        patterns: &mut Patterns,
        value: &Value,
    ) -> Result<RuleTable, RuleFault>
        ensures reading { MatchResult result
            (λ t. IsReading (view value.now) (Ok t))
            (λ e. ¬ (e ≡ Memory) → IsReading (view value.now) (Err e)) }
        ensures first { (e : RuleFaultModel) → members_in (view value.now) ≡ Err e → result ≡ Err e }
    {
        let Found { body, headers } = found_in(alloc, patterns, value)?;
        let body = effective_body(alloc, body)?;
        let headers = effective_headers(alloc, headers)?;
        Ok(RuleTable { body, headers })
    }
}
