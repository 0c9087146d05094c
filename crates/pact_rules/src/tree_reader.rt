//! Reading a table of rules that is a tree.

ghost use Rattle.std.specs.Prelude.{◌≡◌, MatchResult, IfOk, Ok, Err};
ghost use Rattle.serde_json.specs.View.{view, items_view, members_view};
ghost use Rattle.pact_trees.specs.Trees.{data_of, items_data, members_data};
ghost use Rattle.pact_rules.specs.AsRead.{as_read, items_as_read, members_as_read};
ghost use Rattle.pact_rules.specs.RuleReading.{IsReading, members_in, has_old_key as has_old_key_of};
ghost use Rattle.pact_rules.specs.declared.rule_fault.RuleFault.{RuleFault as RuleFaultModel};
ghost use Rattle.pact_rules.specs.declared.rule_fault.RuleFault.TheVariants.{Memory};

use crate::patterns::Patterns;
use crate::rule_fault::RuleFault;
use crate::table::RuleTable;
use pact_trees::Tree;
use serde_json::{Map, Value};
use std::alloc::{AllocError, Global};
use std::collections::BTreeMap;

impl RuleTable {
    /// Reads the object `matchingRules` of a response: the categories `body`, whose keys are path expressions, and
    /// `header`, whose keys are header names (Pact Specification, version 3); `path` and `query` are kept as data by
    /// the caller. The fault is the first one: the table's form, rules of version 2, then categories and entries in
    /// order of their keys, of an entry its path, the same path twice, its form, `combine`, and its matchers one after
    /// another. Memory may run out in its place, but not in that of the first two, and `Pattern` comes also if the
    /// crate `regex` refuses a pattern that its grammar reads.
    pub fn read(alloc: Global, tree: &Tree) -> Result<RuleTable, RuleFault>
        ensures reading { MatchResult result
            (λ t. IsReading (data_of tree.now) (Ok t))
            (λ e. ¬ (e ≡ Memory) → IsReading (data_of tree.now) (Err e)) }
        ensures first { (e : RuleFaultModel) → members_in (data_of tree.now) ≡ Err e → result ≡ Err e }
    {
        check_members(tree)?;
        let value = value_of(alloc, tree)?;
        let mut patterns = Patterns::new(alloc);
        RuleTable::read_with(alloc, &mut patterns, &value)
    }
}

/// Whether a tree has the form of a table, and no rules of version 2. Takes no memory.
fn check_members(tree: &Tree) -> Result<(), RuleFault>
    ensures { MatchResult result
        (λ _. (e : RuleFaultModel) → ¬ (members_in (data_of tree.now) ≡ Err e))
        (λ e. members_in (data_of tree.now) ≡ Err e) }
{
    let Tree::Object(members) = tree else {
        return Err(RuleFault::Form);
    };
    if is_old(members) {
        return Err(RuleFault::OldRules);
    }
    Ok(())
}

/// Whether a key begins with `$`, as in version 2 of the Pact Specification.
fn is_old(members: &BTreeMap<String, Tree>) -> bool
    ensures { result ≡ has_old_key_of (members_data members.now.entries) }
{
    for (key, _) in members.iter() {
        if key.starts_with("$") {
            return true;
        }
    }
    false
}

/// The value of which the table is read. It has -1 in place of each number that is no bound.
#[cycle(copying)]
fn value_of(alloc: Global, tree: &Tree) -> Result<Value, AllocError>
    ensures { IfOk result (λ value. view value ≡ as_read (data_of tree.now)) }
{
    match tree {
        Tree::Null => Ok(Value::Null),
        Tree::Truth(truth) => Ok(Value::Bool(*truth)),
        Tree::Whole(number) => match u64::try_from(*number) {
            Ok(bound) => Ok(Value::from(bound)),
            Err(_) => Ok(Value::from(-1i64)),
        },
        Tree::Text(text) => Ok(Value::String(String::from_str(alloc, text.as_str())?)),
        Tree::List(items) => Ok(Value::Array(values_of(alloc, items)?)),
        Tree::Object(members) => Ok(Value::Object(map_of(alloc, members)?)),
    }
}

#[cycle(copying)]
fn values_of(alloc: Global, items: &Vec<Tree>) -> Result<Vec<Value>, AllocError>
    ensures { IfOk result (λ values. items_view values.items ≡ items_as_read (items_data items.now.items)) }
{
    let mut values = Vec::with_capacity(alloc, items.len())?;
    for item in items {
        values.push(value_of(alloc, item)?)?;
    }
    Ok(values)
}

#[cycle(copying)]
fn map_of(alloc: Global, members: &BTreeMap<String, Tree>) -> Result<Map<String, Value>, AllocError>
    ensures { IfOk result (λ map. members_view map.entries
        ≡ members_as_read (members_data members.now.entries)) }
{
    let mut map = Map::new(alloc);
    for (key, member) in members.iter() {
        let name = String::from_str(alloc, key.as_str())?;
        drop(map.insert(name, value_of(alloc, member)?)?);
    }
    Ok(map)
}
