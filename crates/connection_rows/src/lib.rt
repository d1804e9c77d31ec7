//! Worked rows of connections: sources and sinks, listeners, the server's words, its loop over connections, and the whole server over a
//! real port and a file.
//!
//! The crate has nothing but tests, so that what they try isn't proved again for them. What they expect is written down by hand.
#![tactic(auto)]

#[cfg(test)]
mod edges;
#[cfg(test)]
mod listeners;
#[cfg(test)]
mod ports;
#[cfg(test)]
mod serving;
#[cfg(test)]
mod words;
