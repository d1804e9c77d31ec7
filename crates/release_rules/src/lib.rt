//! What a release server decides: a command under its key is accepted, answered again, or refused by the rules; and what a mote has.
//!
//! Rows are only read here. The definitions in `specs/` are the release machine: what it answers to a question over tables, and the tables afterwards.
#![tactic(auto)]

mod body;
mod decision;
mod law;
mod mote;
mod rules;
mod settle;

pub use decision::Decision;
pub use law::{answers_are_one, only_commands_change};
pub use mote::mote_body;
pub use rules::decide;
