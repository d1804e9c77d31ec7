//! The command that a POST gives: what it is for, and what its body says.
#![tactic(auto)]

mod command;

pub use command::command_of;
