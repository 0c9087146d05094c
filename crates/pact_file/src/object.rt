//! Files of JSON that are one object without fractions.

ghost use Rattle.std.specs.Prelude.{◌≡◌, ◌<◌, length, Err};
ghost use Rattle.std.specs.Option.{ok_or};
ghost use Rattle.pact_file.specs.Objects.{json_of, tree_or_fault, object_of, IsSomeText};
ghost use Rattle.pact_file.specs.declared.object.FileFault.TheVariants.{Memory, NotJson};
ghost use Rattle.pact_rules.specs.Outcome.{Gives};
ghost use Rattle.pact_trees.specs.Checked.{checked_tree};
ghost use Rattle.serde_json.specs.Read.{read};
ghost use Rattle.serde_json.specs.View.{view};

use pact_trees::{NoTree, check_tree};
use serde_json::Value;
use std::alloc::Global;
use thiserror::Error;

/// Why bytes are no such object.
#[derive(Clone, Copy, Debug, PartialEq, Eq, Error)]
pub enum FileFault {
    /// The bytes aren't UTF-8, or no JSON text, or nest over 127 deep.
    #[error("not JSON")]
    NotJson,
    /// A number isn't whole, or lists and objects nest over 100 deep.
    #[error("{0}")]
    Tree(NoTree),
    /// The value isn't an object.
    #[error("not an object")]
    NotObject,
    /// No memory was left.
    #[error("out of memory")]
    Memory,
}

fn read_text(alloc: Global, text: &str) -> Result<Value, FileFault>
    ensures value { Gives Memory view result (ok_or (read text.now) NotJson) }
    ensures memory { result ≡ Err Memory → 0 < length text.now }
{
    match Value::from_str(alloc, text) {
        Ok(value) => Ok(value),
        Err(e) => {
            if e.is_memory() {
                Err(FileFault::Memory)
            } else {
                Err(FileFault::NotJson)
            }
        }
    }
}

fn read_json(alloc: Global, bytes: &[u8]) -> Result<Value, FileFault>
    ensures value { Gives Memory view result (json_of bytes.now) }
    ensures memory { result ≡ Err Memory → IsSomeText bytes.now }
{
    match str::from_utf8(bytes) {
        Ok(text) => read_text(alloc, text),
        Err(_) => Err(FileFault::NotJson),
    }
}

fn check_file(value: &Value) -> Result<(), FileFault>
    ensures { result ≡ tree_or_fault (checked_tree (view value.now)) }
{
    match check_tree(value) {
        Ok(()) => Ok(()),
        Err(fault) => Err(FileFault::Tree(fault)),
    }
}

/// Reads bytes that are one JSON object in UTF-8, as a pact file and a file of replies are. The fault is the first
/// one in the order of `FileFault`'s variants. Memory may run out instead, but only if the bytes are UTF-8 and not
/// empty.
#[tactic(auto, unfolding(crate::specs::Objects::object_of))]
pub fn read_object(alloc: Global, bytes: &[u8]) -> Result<Value, FileFault>
    ensures value { Gives Memory view result (object_of bytes.now) }
    ensures memory { result ≡ Err Memory → IsSomeText bytes.now }
{
    let value = read_json(alloc, bytes)?;
    check_file(&value)?;
    if !value.is_object() {
        return Err(FileFault::NotObject);
    }
    Ok(value)
}
