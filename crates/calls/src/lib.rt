//! Tests of the calls that a caller of these libraries is promised and the program doesn't make, and of what the
//! program can't show: each is made with memory enough, and its answer is what the public sources or this project's
//! documents say, worked out by hand.
//!
//! The crate has no code of its own. What has a text form is a scenario, a command line or a case of pacts
//! (`tests/data`).
#![tactic(auto)]

#[cfg(test)]
mod disks;
#[cfg(test)]
mod lines;
#[cfg(test)]
mod rules;
#[cfg(test)]
mod scenarios;
#[cfg(test)]
mod scripts;
#[cfg(test)]
mod stops;
#[cfg(test)]
mod streams;
#[cfg(test)]
mod tables;
