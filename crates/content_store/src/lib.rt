//! Digests of texts, and the table of the normal texts of pacts.
//!
//! A digest is a function of bytes, given by the trait `Digester`, so that what is said of the calls holds for any such
//! function.
#![tactic(auto)]

/// Gives what a call on the tables answers. Its failure is the failure of the function in which this is, and nothing
/// more is done there. After it a proof knows what it knows in the arms of the match.
macro_rules! done {
    ($call:expr) => {
        match $call {
            Ok(value) => value,
            Err(fault) => return Err(fault),
        }
    };
}

mod contents;
mod digester;
mod making;

pub use contents::{content_count, find, get, put, put_if_room};
pub use digester::{Digester, Sha256Digester, digest_text};
pub use making::{make_index, make_tables};
