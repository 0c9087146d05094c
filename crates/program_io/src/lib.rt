//! What the program needs that isn't a broker: why a command fails and how that is reported, the commands on pact
//! files, the forms of tokens and names among the options, and where connections come in.
#![tactic(auto)]

mod bounded;
pub mod check;
pub mod entrance;
pub mod fault;
pub mod forms;
pub mod listening;
mod loopback;
pub mod normalise;
pub mod output;
mod parts;
pub mod report;
