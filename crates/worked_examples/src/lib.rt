//! Callers of this broker's libraries, as somebody would write them. Each is proved from what these crates promise to
//! everybody: from their contracts, and from no lemma of theirs.
#![tactic(auto)]

mod asking;
mod deploying;
mod pacts;
mod reopening;
mod replies;
mod streams;
mod tables;

pub use asking::ask;
pub use deploying::{deploy, deployment};
pub use pacts::normal_text;
pub use reopening::{NotReopened, reopen};
pub use replies::{Unjudged, failing};
pub use streams::answers;
pub use tables::{claim_pass, is_alone, is_vacant, is_verified};
