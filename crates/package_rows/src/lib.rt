//! Worked rows of packages, manifests, layouts and linked sets.
//!
//! The crate has nothing but tests, so that what reads packages and links them isn't proved again for them. What they expect is written
//! down by hand.
#![tactic(auto)]

#[cfg(test)]
mod changes;
#[cfg(test)]
mod limits;
#[cfg(test)]
mod manifests;
#[cfg(test)]
mod packages;
#[cfg(test)]
mod parts;
#[cfg(test)]
mod patches;
#[cfg(test)]
mod plans;
#[cfg(test)]
mod sets;
