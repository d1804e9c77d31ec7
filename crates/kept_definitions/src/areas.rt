//! What the second layout of external flash has in other places than the first, in pages of 256 bytes (our own layout).

/// The 16 inbox slots, 39 pages each.
pub const INBOX: u16 = 786;
/// The 16 table slots, 39 pages each.
pub const TABLES: u16 = 1410;
/// The layout's number, which each stored release says.
pub const LAYOUT: u8 = 2;
