//! A tree of its own, made of a JSON value.

ghost use Rattle.std.specs.Prelude.{◌≡◌, true, false, Ok, Err, IfOk, IfErr, OnErr, IsOkUnless, MatchResult};
ghost use Rattle.serde_json.specs.Data.{array, object};
ghost use Rattle.serde_json.specs.Find.{is_float, of_integer};
ghost use Rattle.serde_json.specs.View.{view, items_view, members_view, number_view};
ghost use Rattle.serde_json.specs.Written.{has_float, items_have_float, members_have_float};
ghost use Rattle.pact_trees.specs.Checked.{checked_tree};
ghost use Rattle.pact_trees.specs.Trees.{data_of, items_data, members_data, fault_of, has_parts};
ghost use Rattle.pact_trees.specs.declared.tree.TreeFault.TheVariants.{Memory};

use crate::check::{NoTree, check_tree};
use serde_json::{Map, Number, Value};
use std::alloc::{AllocError, AllocFailed, Global};
use std::collections::BTreeMap;
use thiserror::Error;

/// A JSON value whose numbers are whole. It owns its parts, and outlives the value that it was made of.
#[derive(Debug, PartialEq, Drop)]
pub enum Tree {
    /// `null`.
    Null,
    /// `true` or `false`.
    Truth(bool),
    /// A number, from -2^63 to 2^64 - 1 if it was read from a JSON text.
    Whole(i128),
    /// A text.
    Text(String),
    /// A list.
    List(Vec<Tree>),
    /// An object: each key once, in the order of their bytes.
    Object(BTreeMap<String, Tree>),
}

/// Why no tree is made of a JSON value.
#[derive(Clone, Copy, Debug, PartialEq, Eq, Error)]
pub enum TreeFault {
    /// A number has a fraction or an exponent, or is out of range.
    #[error("a number that isn't whole")]
    NotWhole,
    /// Lists and objects nest more than 100 deep.
    #[error("lists and objects nest too deep")]
    TooDeep,
    /// No memory was left.
    #[error("out of memory")]
    Memory,
}

impl From<NoTree> for TreeFault {
    ghost from_gives = { λ fault given. given ≡ fault_of fault };

    fn from(fault: NoTree) -> TreeFault {
        match fault {
            NoTree::NotWhole => TreeFault::NotWhole,
            NoTree::TooDeep => TreeFault::TooDeep,
        }
    }
}

impl From<AllocError> for TreeFault {
    ghost from_gives = { λ _ fault. fault ≡ Memory };

    fn from(_: AllocError) -> TreeFault {
        TreeFault::Memory
    }
}

/// The tree of a value, or the first fault. `TooDeep` is looked at first, for the whole value, then `NotWhole`, both
/// without memory, as `check_tree` does. `Memory` comes last, and only if there is something to copy: a
/// text, or a list or an object that isn't empty. The value stays as it is.
pub fn tree_of(alloc: Global, value: &Value) -> Result<Tree, TreeFault>
    ensures tree { IfOk result (λ tree. data_of tree ≡ view value.now) }
    ensures fault { MatchResult (checked_tree (view value.now))
        (λ _. IsOkUnless result Memory) (λ fault. result ≡ Err (fault_of fault)) }
    ensures memory { IfErr result (λ fault. fault ≡ Memory → has_parts (view value.now) ≡ true) }
{
    check_tree(value)?;
    Ok(copied(alloc, value)?)
}

/// The number as a whole one.
fn whole_of(number: &Number) -> i128
    requires { is_float (number_view number.now) ≡ false }
    ensures { of_integer result ≡ number_view number.now }
{
    number.as_i128().unwrap()
}

/// The tree of a value that has no fraction.
#[cycle(copying)]
fn copied(alloc: Global, value: &Value) -> Result<Tree, AllocError>
    requires { has_float (view value.now) ≡ false }
    ensures tree { IfOk result (λ tree. data_of tree ≡ view value.now) }
    ensures memory { OnErr result (has_parts (view value.now) ≡ true) }
{
    match value {
        Value::Null => Ok(Tree::Null),
        Value::Bool(truth) => Ok(Tree::Truth(*truth)),
        Value::Number(number) => Ok(Tree::Whole(whole_of(number))),
        Value::String(text) => Ok(Tree::Text(String::from_str(alloc, text.as_str())?)),
        Value::Array(items) => Ok(Tree::List(copied_items(alloc, items)?)),
        Value::Object(members) => Ok(Tree::Object(copied_members(alloc, members)?)),
    }
}

#[cycle(copying)]
fn copied_items(alloc: Global, items: &Vec<Value>) -> Result<Vec<Tree>, AllocError>
    requires { items_have_float (items_view items.now.items) ≡ false }
    ensures trees { IfOk result (λ trees. items_data trees.items ≡ items_view items.now.items) }
    ensures memory { OnErr result (has_parts (array (items_view items.now.items)) ≡ true) }
{
    let mut trees = Vec::with_capacity(alloc, items.len())?;
    for item in items {
        trees.push(copied(alloc, item)?)?;
    }
    Ok(trees)
}

#[cycle(copying)]
fn copied_members(
    alloc: Global,
    members: &Map<String, Value>,
) -> Result<BTreeMap<String, Tree>, AllocError>
    requires { members_have_float (members_view members.now.entries) ≡ false }
    ensures trees { IfOk result (λ trees. members_data trees.entries ≡ members_view members.now.entries) }
    ensures memory { OnErr result (has_parts (object (members_view members.now.entries)) ≡ true) }
{
    let mut trees = BTreeMap::new(alloc);
    for (key, member) in members.iter() {
        let name = String::from_str(alloc, key.as_str())?;
        drop(trees.insert(name, copied(alloc, member)?)?);
    }
    Ok(trees)
}
