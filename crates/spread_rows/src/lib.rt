//! Worked rows of spreading: frames, an exchange of messages, and three nodes on a radio that loses messages.
//!
//! The crate has nothing but tests, so that the nodes' crate isn't proved again for them. What they expect is written down by hand.
#![tactic(auto)]

#[cfg(test)]
mod exchange;
#[cfg(test)]
mod frames;
#[cfg(test)]
mod nodes;
#[cfg(test)]
mod radio;
