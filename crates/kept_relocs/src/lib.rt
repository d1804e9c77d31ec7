//! The relocation list of a set that a board holds in the second layout: checked, built, and read again.
//!
//! The list stands on pages 50 to 305 of external flash: a record of eight bytes for each relocation of the set, by rising image
//! offset, and 0xFF behind the last. It is made from the relocations of the components, which are read out of the inbox slot of one that
//! comes in and the table slot of an installed one, from the plan of the set, and from the merged symbols in their area, whatever symbols
//! these are. No call takes memory; each holds a few pages of 256 bytes.
//!
//! A reader of relocations tells nothing once a page was programmed. So `build` takes a new one for each page of the list, which costs 256 page
//! reads at most.
#![tactic(auto)]

mod arrays;
mod building;
mod check;
mod fault;
mod list;
mod order;
mod value;

pub use building::build;
pub use check::{check_relocs, count_relocs};
pub use fault::BuildFault;
pub use list::{ListReader, entry_at, first_at, read_entry};
