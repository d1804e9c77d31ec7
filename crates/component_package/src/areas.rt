//! The first page of each area of external flash, in pages of 256 bytes (our own layout). Pages 0 to 7 are the gates.

/// The manifest of side A, five pages.
pub const MANIFEST_A: u16 = 8;
/// The manifest of side B, five pages.
pub const MANIFEST_B: u16 = 13;
/// The merged symbols, 32 pages.
pub const SYMBOLS: u16 = 18;
/// The relocation list, 256 pages.
pub const RELOCATIONS: u16 = 50;
/// The staged image, 480 pages.
pub const STAGED: u16 = 306;
/// The 32 slots, 39 pages each.
pub const SLOTS: u16 = 786;
/// How many pages a slot has: room for the greatest package, 9,984 bytes.
pub const SLOT_PAGES: u16 = 39;
/// How many pages each side has.
pub const SIDE_PAGES: u16 = 5;
/// How many pages the merged symbols have.
pub const SYMBOL_PAGES: u16 = 32;
/// How many pages the relocation list has.
pub const RELOCATION_PAGES: u16 = 256;
/// How many pages an image has, the staged one and program flash.
pub const IMAGE_PAGES: u16 = 480;
