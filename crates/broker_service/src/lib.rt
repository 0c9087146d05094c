//! The broker: one command at a time, each in one transaction.
#![tactic(auto)]

/// Gives what a call on the tables answers. Its failure is the failure of the function in which this is, and nothing
/// more is done there. After it a proof knows what it knows in the arms of the match.
macro_rules! done {
    ($call:expr) => {
        match $call {
            Ok(value) => value,
            Err(fault) => return Err(fault),
        }
    };
}

mod broker;
pub mod laws;
mod service;
mod work;

pub use answer_texts::RenderedAnswer as Answer;
pub use broker::Broker;
pub use broker_database::{OpenFault, Refused, migrate};
