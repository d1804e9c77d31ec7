//! The head of a request: how it is read from a source, and what its fields say of the body and of the request's key.
//!
//! The grammar of a head is `httparse`'s. A head has at most 8,192 bytes.
#![tactic(auto)]

mod fields;
mod head;
pub mod law;

pub use fields::{BodyLength, body_length, request_key};
pub use head::{HeadRead, read_head};
