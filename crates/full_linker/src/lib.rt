//! The plain linker: the image of a set of packages, all at once and in memory.
//!
//! [`link`] answers the image, or the first cause that the set has none. All code stands first, in
//! the order of the packages, and then all data; each relocated field holds the address of its
//! target plus the addend.
#![tactic(auto)]

mod fault;
mod linking;
mod parts;
mod placed;
mod set;
mod sites;
mod symbols;

pub use fault::LinkFault;
pub use linking::link;
pub use set::may_be_linked;
