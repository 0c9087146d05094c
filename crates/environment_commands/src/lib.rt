//! The commands on environments: what is deployed and released there, the gate, the matrix.
#![tactic(auto)]

/// Gives what a call on the tables answers. Its failure is the failure of the function in which this is, and nothing
/// more is done there. After it a proof knows what it knows in the arms of the match.
macro_rules! done {
    ($call:expr) => {
        match $call {
            Ok(value) => value,
            Err(fault) => return Err(fault),
        }
    };
}

pub mod can_i_deploy;
pub mod deploy;
pub mod end_support;
mod gate;
pub mod listing;
pub mod matrix;
mod places;
pub mod release;
pub mod undeploy;
