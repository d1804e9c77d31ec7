//! Releases as a side of external flash keeps them in the second layout, in which the code of installed components is kept once.
//!
//! A stored release says the slot of each entry, and whether the entry comes in with the release. Its first page says the layout, so a page of
//! the first layout is none of these.
#![tactic(auto)]

mod entries;
mod pages;

pub use pages::{SlotManifest, read_slot_pages, slot_page};
