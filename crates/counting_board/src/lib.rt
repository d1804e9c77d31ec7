//! A board in memory that counts how often pages are read and programmed.
#![tactic(auto)]

mod board;
mod reads;

pub use board::{CountingBoard, Programs};
pub use reads::Reads;
