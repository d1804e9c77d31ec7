//! Worked rows of boards: boards in memory and on files, the pages and gates of external flash, and a board that counts.
//!
//! The crate has nothing but tests, so that what they try isn't proved again for them. What they expect is written down by hand.
#![tactic(auto)]

#[cfg(test)]
mod boards;
#[cfg(test)]
mod counts;
#[cfg(test)]
mod pages;
