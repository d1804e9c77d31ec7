//! Worked rows of the reader of objects and of the packer: an object written out by hand, read and packed, and what is refused of its
//! neighbours.
//!
//! The crate has nothing but tests, so that reader and packer aren't proved again for them. What they expect is written down by hand.
#![tactic(auto)]

#[cfg(test)]
mod faults;
#[cfg(test)]
mod objects;
#[cfg(test)]
mod reader;
#[cfg(test)]
mod rows;
#[cfg(test)]
mod worked;
