//! HTTP/1.1 for a broker, over any reader and writer.
#![tactic(auto)]

mod exchange;
pub mod laws;
pub mod patience;
mod served;
mod serving;

pub use http_routes::RouteTable;
pub use served::{Ended, ServeFault, Served, StreamFault};
pub use serving::{serve, serve_stream};
