//! Tests of statements, transactions and rows over a table of the tests' own, which no request makes.
//!
//! The crate has no code of its own. What has a text form is a scenario (`tests/data/scenarios`), a command line
//! (`tests/data/lines`) or a case of pacts (`tests/data/cases`).
#![tactic(auto)]

#[cfg(test)]
mod access;
