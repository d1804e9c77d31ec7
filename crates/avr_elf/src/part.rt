//! The parts of an object that a view gives.

/// A section of an object.
#[derive(Clone, Copy, Debug)]
pub struct Section<'a> {
    /// The section's name, without the zero byte that ends it.
    pub name: &'a [u8],
    /// The section's type.
    pub kind: u32,
    /// The section's flags.
    pub flags: u32,
    /// The section's size in bytes.
    pub size: u32,
    /// The section's alignment in bytes.
    pub align: u32,
    /// The section's bytes in the file, empty where it has none there.
    pub bytes: &'a [u8],
}

/// A symbol of an object.
#[derive(Clone, Copy, Debug)]
pub struct Symbol<'a> {
    /// The symbol's name, without the zero byte that ends it.
    pub name: &'a [u8],
    /// The symbol's value, in an allocated section the distance from its start.
    pub value: u32,
    /// The symbol's size in bytes.
    pub size: u32,
    /// The symbol's binding: 0 local, 1 global, 2 weak.
    pub binding: u8,
    /// The symbol's type, 0 to 15.
    pub kind: u8,
    /// The index of the symbol's section, or 0 undefined, 0xFFF1 absolute, 0xFFF2 common.
    pub section: u16,
}
