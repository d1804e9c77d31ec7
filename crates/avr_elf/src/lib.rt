//! Relocatable AVR objects, read in place.
//!
//! [`read_object`] judges a whole file before it answers: a view is given only for a file with none
//! of the faults of [`ElfFault`], and so each call of a view is total over the indexes that it
//! names. A view borrows the file and takes no memory.
#![tactic(auto)]

pub mod constants;
mod fault;
mod file_header;
mod header;
mod law;
mod lookup;
mod marks;
mod name;
mod number;
mod part;
mod read;
mod rela_table;
mod relocation;
mod sections;
mod symbol;
mod tables;
mod view;

pub use fault::ElfFault;
pub use law::{means_one_object, means_well_formed, no_fault_means_object};
pub use part::{Section, Symbol};
pub use read::read_object;
pub use rela_table::RelaTable;
pub use relocation::Rela;
pub use view::ObjectView;
