//! The command line of the broker: a command and its options, as `clap` reads them.
#![tactic(auto)]

mod commands;
mod descriptions;
mod help;
mod line;
mod names;
mod options;
mod path;

pub use line::{Line, read_line};
pub use path::FilePath;
