//! The tables of what is deployed and released: the versions that are deployed in an environment, and those that are
//! released there.
//!
//! Each call is made inside a transaction. It answers a fact of the broker's state that the database holds, or changes
//! that state in one place; if it fails, nothing of it is committed, and the transaction is to be given up.
//! `StoreFault::Memory` comes if the database has no memory or an allocation failed, and `StoreFault::Store` if it
//! refused a statement for another cause, or if a row breaks the tables' rules.
#![tactic(auto)]

/// Gives what a call on the tables answers. Its failure is the failure of the function in which this is, and nothing
/// more is done there. After it a proof knows what it knows in the arms of the match.
macro_rules! done {
    ($call:expr) => {
        match $call {
            Ok(value) => value,
            Err(fault) => return Err(fault),
        }
    };
}

mod all_needs;
mod contracts_there;
mod deployments;
mod gate;
mod listings;
mod lists;
mod making;
mod matrix_rows;
mod partners;
mod releases;
mod rows;
mod selected_needs;
mod version_names;
mod versions_there;

pub use all_needs::needs;
pub use deployments::{is_deployed, record_deployed, take_out};
pub use gate::faults;
pub use listings::{deployed, released};
pub use making::make_tables;
pub use matrix_rows::matrix;
pub use releases::{end_support, is_released, record_released};
pub use versions_there::standing;
