//! Weights and matchers of response rules (Pact Specification, version 3).
#![tactic(auto)]

mod deferred;
mod entry;
mod gathered;
mod judging;
mod many;
mod matching;
mod parts;
mod patterns;
mod rule_fault;
mod rule_reader;
mod table;
mod table_reader;
mod tree_matching;
mod tree_reader;
mod walk;

pub use entry::Entry;
pub use matching::{MatchFault, are_alike, has_keys_of};
pub use pact_paths::{Path, PathFault, Step, weight};
pub use pact_patterns::{BuiltPatterns, Searches};
pub use pact_trees::Tree;
pub use patterns::Patterns;
pub use rule_fault::{RuleFault, Word};
pub use table::{Matcher, RuleTable};
pub use tree_matching::holds;
pub use walk::Alive;
