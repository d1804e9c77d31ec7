//! One connection of a release server: one request is read, decided and answered.
//!
//! A request is refused before it is whole, or its question is answered by the keeper's rows and the rules. `law` says that an input has one
//! reply over given tables, but for a keeper that failed and for want of memory.
#![tactic(auto)]

mod answer;
mod cause;
pub mod law;
mod post;
mod reply;
mod serve;

pub use serve::{Served, serve_connection};
