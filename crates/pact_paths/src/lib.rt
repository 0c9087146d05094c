//! Path expressions of matching rules, their reading and canonical text, and how much they weigh at a location.
#![tactic(auto)]

mod asked;
pub mod laws;
mod path;
mod path_reader;
mod path_writer;

pub use asked::Asked;
pub use path::{Path, Step, weight};
pub use path_reader::PathFault;
