//! Worked rows of the areas of external flash: stored packages, merged symbols, relocation lists and staged images.
//!
//! The crate has nothing but tests, so that the crates that fill these areas aren't proved again for them. What they expect is written down
//! by hand.
#![tactic(auto)]

#[cfg(test)]
mod boards;
#[cfg(test)]
mod counting;
#[cfg(test)]
mod images;
#[cfg(test)]
mod packages;
#[cfg(test)]
mod parts;
#[cfg(test)]
mod relocations;
#[cfg(test)]
mod stores;
#[cfg(test)]
mod symbols;
