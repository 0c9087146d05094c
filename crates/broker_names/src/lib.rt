//! Names, tokens and other texts, of which commands, pacts and tables are made.
#![tactic(auto)]

pub mod name;
