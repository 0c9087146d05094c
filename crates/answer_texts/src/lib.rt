//! The bodies and the statuses of answers.
#![tactic(auto)]

mod answer;
mod constants;
mod items;
mod parts;
mod texts;
mod writing;

pub use answer::RenderedAnswer;
