//! Packages from AVR objects.
//!
//! [`names_of`] judges an object and answers the names that need numbers; [`pack`] makes the package
//! of an object once its names have numbers. The definitions of both are in `specs/`, over the
//! object's sections, symbols and relocations.
#![tactic(auto)]

mod bytes;
mod fault;
mod kept;
mod layout;
mod name_table;
mod names;
mod object;
mod order;
mod packing;
mod place;
mod plan;
mod reference;
mod resolver;
mod symbol;
mod symbols;

pub use fault::PackFault;
pub use names::{Names, names_of};
pub use packing::pack;
