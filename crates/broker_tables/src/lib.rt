//! The tables of the broker's database: the texts that make them, the schema that these texts define, and what it means
//! that a database holds a state of the broker.
//!
//! A crate that keeps some of the tables makes them by the texts here, and says of each of its calls what it answers or
//! changes of the state that the database holds.
#![tactic(auto)]

pub mod create;
pub mod laws;
mod making;
mod names;
mod numbers;
mod readable;
mod truths;

pub use making::make_each;
pub use names::{has_name, name_in, text_in};
pub use numbers::next_number;
pub use readable::has_readable_names;
pub use truths::{truth_at, truth_of};
