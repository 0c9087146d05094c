//! What a message asks: a command with its caller's token, or a refusal by HTTP.
#![tactic(auto)]

mod bodies;
mod commands;
pub mod laws;
mod names;
mod queries;
mod requests;
mod target;
mod tokens;

pub use commands::command_of;
pub use requests::{Request, read_request};
