//! The tables of who and what is registered: the office, teams, pacticipants, versions and their branches,
//! environments, and grants.
//!
//! Each call is made inside a transaction. It answers a fact of the broker's state that the database holds, or changes
//! that state in one place; if it fails, nothing of it is committed, and the transaction is to be given up.
//! `StoreFault::Memory` comes if the database has no memory or an allocation failed, and `StoreFault::Store` if it
//! refused a statement for another cause, or if a row breaks the tables' rules.
#![tactic(auto)]

/// Gives what a call on the tables answers. Its failure is the failure of the function in which this is, and nothing
/// more is done there. After it a proof knows what it knows in the arms of the match.
macro_rules! done {
    ($call:expr) => {
        match $call {
            Ok(value) => value,
            Err(fault) => return Err(fault),
        }
    };
}

mod branches;
mod environments;
mod format;
mod format_1;
mod grants;
mod making;
mod migration;
mod office;
mod pacticipants;
mod teams;
mod versions;

pub use branches::{add_branch, branch_number_below, branch_numbers, on_branch};
pub use environments::{add_environment, gated, marks_of, strict_of};
pub use format::format_of;
pub use grants::{add_grant, granted, remove_grant};
pub use making::{make_index, make_strict_environments, make_tables};
pub use migration::{format_to_migrate, to_format_2};
pub use office::{is_blank, office_digest};
pub use pacticipants::{add_pacticipant, owner_of};
pub use teams::{add_team, digest_of, has_team, team_of_digest};
pub use versions::{add_version, insert_version, version_count, version_of};
