//! What keeps the rows of a release server, and takes changes of them: a keeper in memory.
//!
//! A change is applied whole or not at all: where there is no memory for all of it, the tables are as before.
#![tactic(auto)]

mod components;
mod copies;
mod keeper;
mod memory;
mod names;
mod places;
mod releases;
mod tables;
mod versions;

pub use keeper::Keeper;
pub use memory::MemoryKeeper;
