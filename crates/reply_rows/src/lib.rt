//! Worked rows of a release server's connections: requests in a row over one keeper, and each call on the keeper and on both ends failing
//! once.
//!
//! The crate has nothing but tests, so that the connection isn't proved again for them. What they expect is written down by hand.
#![tactic(auto)]

#[cfg(test)]
mod connections;
