//! Whether recorded replies meet a pact: status, headers and bodies against those that are expected, with the rules
//! of a response.
#![tactic(auto)]

mod body;
mod checking;
mod deferred;
mod fault;
mod fit;
mod header;
mod header_value;
mod meet;
mod parts;
mod read;
mod reply;

pub use body::body_meets;
pub use checking::{Verdict, check};
pub use fault::{CheckFault, Place, RepliesFault};
pub use fit::fits;
pub use meet::meets;
pub use pact_file::Part;
pub use read::read_replies;
pub use reply::{Replies, Reply};
