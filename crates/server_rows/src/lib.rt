//! Worked rows of a release server's rules: objects that are refused, tables that are full, a release of sixteen components, and the keeper
//! in memory on its own, each of whose calls fails once.
//!
//! The crate has nothing but tests, so that the rules aren't proved again for them. What they expect is written down by hand.
#![tactic(auto)]

#[cfg(test)]
mod commands;
#[cfg(test)]
mod keeper;
#[cfg(test)]
mod objects;
#[cfg(test)]
mod refusals;
#[cfg(test)]
mod rules;
#[cfg(test)]
mod sixteen;
