//! The messages of a stream by HTTP/1.1: head texts, the checks on a head, the length of a body, reading one
//! message from a device, and how long its peer is waited for.
#![tactic(auto)]

pub mod arrival;
pub mod buffer;
pub mod device;
pub mod fields;
pub mod head;
pub mod hurry;
pub mod laws;
mod lines;
pub mod messages;
mod options;
pub mod patience;
pub mod reading;
pub mod room;
mod sockets;
pub mod turn;
