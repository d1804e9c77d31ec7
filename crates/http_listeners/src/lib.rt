//! Where the connections of an HTTP server come from.
//!
//! `Listener` is the trait that the loop of a server runs on. `MemoryListener` is one in memory, which tells all.
#![tactic(auto)]

mod listener;
mod memory;

pub use listener::{Conn, Listener};
pub use memory::MemoryListener;
