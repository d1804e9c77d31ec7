//! The mote's store of packages: 32 slots of external flash, the slots that a release gets, and the set that it finds in them.
//!
//! A slot has 39 pages (our own layout), room for the greatest package. No call takes memory, and none holds more
//! than two pages: a package is read where it lies, page by page. Every call that only reads leaves the board as it was.
#![tactic(auto)]

mod exports;
mod open;
mod package;
mod parts;
mod piece;
mod reader;
mod records;
mod set;
mod slots;

pub use exports::exports_at;
pub use open::open_set;
pub use package::{check, check_package};
pub use parts::{export_at, part_bytes, read_reloc, reloc_at};
pub use piece::{piece_differs, put_piece};
pub use reader::SlotReader;
pub use set::{SetFault, StoreFault, StoredSet};
pub use slots::{is_held, is_same_entry, slot_for};
