//! How a command is stated, and what the written machine takes from pact files and recorded replies.
#![tactic(auto)]

pub mod change;
mod checking;
pub mod laws;
mod reading;

pub use checking::{Comparison, compare};
pub use reading::{FileReadFault, ReadPact, read_pact_file, read_replies_body};
pub use reply_check::Replies;
