//! The audit of the tables: whether they hold a state of the broker that can be read back, row by row.
//!
//! What SQLite tests of a file that is opened (columns, keys, CHECKs, REFERENCES) isn't tested again.
#![tactic(auto)]

/// Gives what a call on the tables answers. Its failure is the failure of the function in which this is, and nothing
/// more is done there. After it a proof knows what it knows in the arms of the match.
macro_rules! done {
    ($call:expr) => {
        match $call {
            Ok(value) => value,
            Err(fault) => return Err(fault),
        }
    };
}

mod auditing;
mod judging;
mod line;
mod linked;
mod rules;

pub use auditing::{Finding, TableRule, audit};
