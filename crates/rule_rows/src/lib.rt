//! Worked rows of the server's rules: objects judged over tables, updates, and commands in a row.
//!
//! The crate has nothing but tests, so that the rules aren't proved again for them. What they expect is written down by hand.
#![tactic(auto)]

#[cfg(test)]
mod commands;
#[cfg(test)]
mod objects;
#[cfg(test)]
mod updates;
#[cfg(test)]
mod versions;
