//! Patterns of matching rules: how much one asks for, and searches by those that were built.
#![tactic(auto)]

mod built;
mod parts;
mod searches;
mod weights;

pub use parts::parts_of;
pub use searches::{BuiltPatterns, Searches};
pub use weights::weight;
