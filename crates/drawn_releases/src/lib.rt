//! Releases drawn from a number, and the frames that bring a mote from one to the next.
//!
//! `specs/Generator` computes them; the code answers exactly what is computed there, or that there is no memory.
#![tactic(auto)]

ghost use Rattle.drawn_releases.specs.Fit.{ReleasesFit};
ghost use Rattle.drawn_releases.specs.Rows.{FirstDraws};

mod code;
mod components;
mod frames;
mod random;
mod releases;

pub use components::{Delivered, make};
pub use frames::update;
pub use random::Random;
pub use releases::Drawn;

/// Worked draws of number 1: what is drawn first, a package, and the order, the versions and the cut of its second release.
pub fn first_draws()
    ensures { FirstDraws }
{}

/// Every drawn release fits the frames of an update. It does nothing: its contract is the law.
pub fn releases_fit()
    ensures { ReleasesFit }
{}
