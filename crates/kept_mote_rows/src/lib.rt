//! Worked rows of the whole mote in the second layout of external flash: tables of sessions over boards in memory, power cuts and failing calls
//! among them.
//!
//! The crate has nothing but tests, which cross all crates of the mote. What they expect is written down by hand.
#![tactic(auto)]

#[cfg(test)]
mod cuts;
#[cfg(test)]
mod failures;
#[cfg(test)]
mod frames;
#[cfg(test)]
mod kept;
#[cfg(test)]
mod links;
#[cfg(test)]
mod memory;
#[cfg(test)]
mod sessions;
#[cfg(test)]
mod worked;
