//! A release server: it serves as many connections as its words say, one after another.
//!
//! `law` says that no more connections are answered that the keeper failed than its count of faults rose by.
#![tactic(auto)]

pub mod law;
mod serve;

pub use serve::server_main;
