//! What goes out for a message by HTTP/1.1: heads, bodies, and writing them whole.
#![tactic(auto)]

mod head;
mod responses;
mod whole;
mod writing;

pub use head::HEAD_CAPACITY;
pub use responses::{
    RESPONSE_CAPACITY, write_answer, write_no_method, write_no_route, write_refusal,
};
pub use whole::write_whole;
pub use writing::{FallibleWrite, WriteFault};
