//! Worked rows of requests: their texts, heads, paths and bodies, whole requests, their commands, and replies.
//!
//! The crate has nothing but tests, so that what reads requests isn't proved again for them. What they expect is written down by hand.
#![tactic(auto)]

#[cfg(test)]
mod bodies;
#[cfg(test)]
mod commands;
#[cfg(test)]
mod heads;
#[cfg(test)]
mod inputs;
#[cfg(test)]
mod paths;
#[cfg(test)]
mod replies;
#[cfg(test)]
mod requests;
#[cfg(test)]
mod texts;
