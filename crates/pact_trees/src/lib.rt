//! Trees: JSON values without fractions, which of them there are, and those with a copy of their parts.
#![tactic(auto)]

mod check;
mod tree;

pub use check::{NoTree, check_tree};
pub use tree::{Tree, TreeFault, tree_of};
