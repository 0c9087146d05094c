//! The tables of contracts and of their verification: which content a consumer version has for a provider, the results,
//! the latest of them, and those that the broker checked itself.
//!
//! Each call is made inside a transaction. If it fails, nothing of it is committed, and the transaction is to be given
//! up. `StoreFault::Memory` comes if the database has no memory or an allocation failed, and `StoreFault::Store` if it
//! refused a statement for another cause.
#![tactic(auto)]

/// Gives what a call on the tables answers. Its failure is the failure of the function in which this is, and nothing
/// more is done there. After it a proof knows what it knows in the arms of the match.
macro_rules! done {
    ($call:expr) => {
        match $call {
            Ok(value) => value,
            Err(fault) => return Err(fault),
        }
    };
}

mod contracts;
mod listings;
mod lookups;
mod making;
mod migration;
mod results;
mod results_by_version;
mod version_results;

pub use contracts::{add_contract, contract_of};
pub use listings::{Contract, NumberedName, NumberedNameRow, consumers_of, contracts_of};
pub use lookups::{ResultRow, latest_of, result_count, result_of_run};
pub use making::{make_checked_results, make_indexes, make_tables};
pub use migration::to_format_2;
pub use results::{add_result, record_result};
pub use results_by_version::verified_versions;
pub use version_results::{LatestResult, latest_among, latest_results};
