//! A broker's database: how it is made, opened and migrated, how a transaction on it ends, what a command leaves of it,
//! and what its files keep over any number of sessions.
#![tactic(auto)]

/// Gives what a call on the tables answers. Its failure is the failure of the function in which this is, and nothing
/// more is done there. After it a proof knows what it knows in the arms of the match.
macro_rules! done {
    ($call:expr) => {
        match $call {
            Ok(value) => value,
            Err(fault) => return Err(fault),
        }
    };
}

mod catalog;
mod ending;
pub mod laws;
mod migration;
mod opening;
mod renewal;
mod service;

pub use ending::{Failure, conclude};
pub use migration::migrate;
pub use opening::{OpenFault, Refused, create, open};
pub use service::Service;
