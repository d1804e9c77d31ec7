//! Rehearsals that are played a second time: releases are drawn here and brought to a mote in memory here, and the lines that come of it are
//! compared with those that `rehearse` sends.
//!
//! The crate has nothing but tests. It draws packages and makes frames by code of its own, so that it shares no mistake with the crates that
//! it tests.
#![tactic(auto)]

#[cfg(test)]
mod drawing;
#[cfg(test)]
mod frames;
#[cfg(test)]
mod played;
