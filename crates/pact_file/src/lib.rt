//! Pact files and their normal form.
#![tactic(auto)]

mod fault;
mod headers;
mod interaction;
pub mod laws;
mod object;
mod order;
mod pact;
mod parts;
mod read;
mod state;
mod texts;

pub use fault::{PactFault, Part, Place, TextParts};
pub use headers::read_headers;
pub use object::{FileFault, read_object};
pub use pact::{Header, Interaction, Pact};
pub use parts::{read_states, read_status, take_list, take_object, text_member};
pub use read::read_pact;
pub use state::State;
pub use texts::states_text;
