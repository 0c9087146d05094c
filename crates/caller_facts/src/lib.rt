//! Who calls, and what the policy's rules say of the caller by the tables.
#![tactic(auto)]

/// Gives what a call on the tables answers. Its failure is the failure of the function in which this is, and nothing
/// more is done there. After it a proof knows what it knows in the arms of the match.
macro_rules! done {
    ($call:expr) => {
        match $call {
            Ok(value) => value,
            Err(fault) => return Err(fault),
        }
    };
}

pub mod callers;
pub mod rules;
