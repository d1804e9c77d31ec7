//! A rehearsal: drawn releases are installed one after another on a mote in memory, with a power cut in each installation.
#![tactic(auto)]

mod flash;
mod lines;
mod mote;
mod release;
mod run;
mod stop;
mod top;
mod words;

pub use run::rehearse;
pub use top::mote_main;
pub use words::rehearsal_number;
