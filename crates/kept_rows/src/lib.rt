//! Worked rows of the mote's journal and of its boot loader in the second layout of external flash: a stop at the programs of each step, and each
//! call of the board failing once.
//!
//! The crate has nothing but tests, so that the journal and the boot loader aren't proved again for them. What they expect is written down
//! by hand.
#![tactic(auto)]

#[cfg(test)]
mod boards;
#[cfg(test)]
mod boots;
#[cfg(test)]
mod steps;
