//! The mote's store of packages in the second layout: inbox slots for packages that come in, and table slots for the runs of installed components,
//! whose code and data are taken back from program flash.
//!
//! A slot has 39 pages, and there are 16 of either kind. No call takes memory, and every call that only reads leaves the board as it was.
#![tactic(auto)]

mod current;
mod exports;
mod fields;
mod open;
mod parts;
mod places;
mod records;
mod runs;
mod set;
mod slots;
mod tables;

pub use current::open_current;
pub use exports::exports_at;
pub use open::open_set;
pub use parts::part_bytes;
pub use records::{export_at, read_reloc, reloc_at};
pub use runs::table_bytes;
pub use set::StoredSet;
pub use slots::{is_held, slot_for};
pub use tables::keep_tables;
