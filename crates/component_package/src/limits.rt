//! The limits of packages, sets and frames (our own formats, and what an ATmega128 has room for).

/// The most bytes of a package: a slot, 39 pages of 256 bytes.
pub const PACKAGE_BYTES: u16 = 9_984;
/// The most bytes of code and data together: program flash below the boot loader, 480 pages of 256 bytes.
pub const IMAGE_BYTES: u32 = 122_880;
/// The most bytes of data and bss together: RAM from 0x0100 to 0x10FF, but for 512 bytes of stack.
pub const RAM_BYTES: u32 = 3_584;
/// The most different symbols of a set: 32 pages of records of eight bytes.
pub const SET_SYMBOLS: u32 = 1_024;
/// The most relocations of a set: 256 pages of records of eight bytes.
pub const SET_RELOCATIONS: u32 = 8_192;
/// The most bytes of a frame's payload.
pub const PAYLOAD_BYTES: u16 = 1_024;
