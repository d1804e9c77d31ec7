//! Replies of HTTP: their statuses, their bytes, and how they are written without taking memory.
#![tactic(auto)]

mod status;
mod write;

pub use status::{MediaType, Status};
pub use write::write_reply;
