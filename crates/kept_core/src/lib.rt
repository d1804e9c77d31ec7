//! The mote's side of the line over the second layout of external flash, in which code is kept once: frames in, one line out for each, and what a
//! frame does to the flashes.
//!
//! A session boots and then reads frames from a [`Board`](flash_pages::Board) until END, the end of the input or a fault. Nothing here takes memory.
#![tactic(auto)]

mod command;
mod formatting;
mod frames;
mod line;
mod reports;
mod run;
mod sending;
mod serving;
mod session;
mod status;
mod top;

pub use command::Command;
pub use component_package::Answer;
pub use formatting::format;
pub use line::write_line;
pub use reports::{send_image, send_status};
pub use run::run_session;
pub use serving::serve_one;
pub use session::{Next, Session};
pub use status::Status;
pub use top::mote_main;
