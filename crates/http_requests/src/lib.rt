//! One request of HTTP: how it is taken from a source, and what it asks.
//!
//! A request has a head of at most 8,192 bytes and 32 fields, and a body of at most 262,144 bytes. A body that is too large isn't read.
#![tactic(auto)]

mod asks;
mod body;
pub mod law;
mod take;

pub use asks::{Asking, Posting, ask};
pub use take::{Taken, WholeRequest, take_request};
