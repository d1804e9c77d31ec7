//! The header of a package: its first 32 bytes.

ghost use Rattle.std.specs.Prelude.{◌≡◌, ◌+◌, ◌<◌, ◌≤◌, length, IfOk};
ghost use Rattle.std.specs.Result.{result_err};
ghost use Rattle.component_package.specs.packages.Numbers.{u16_at};
ghost use Rattle.component_package.specs.packages.Reading.{header_of, total_of, header_fault, has_magic, is_blank, has_even_lengths, has_its_length};

use crate::fault::PackageFault;
use crate::limits::PACKAGE_BYTES;
use crate::part::Header;

/// The little-endian number at a place.
pub(crate) fn u16_in(b: &[u8], at: usize) -> u16
    requires { at + 1 < length b.now }
    ensures { result ≡ u16_at b.now at }
{
    u16::from_le_bytes([b[at], b[at + 1]])
}

pub(crate) fn header_in(bytes: &[u8]) -> Header
    requires { 32 ≤ length bytes.now }
    ensures { result ≡ header_of bytes.now }
{
    Header {
        component: u16_in(bytes, 4),
        version: u16_in(bytes, 6),
        code: u16_in(bytes, 8),
        init: u16_in(bytes, 10),
        bss: u16_in(bytes, 12),
        exports: u16_in(bytes, 14),
        relocs: u16_in(bytes, 16),
    }
}

impl Header {
    /// The fields that 32 bytes spell, whatever is wrong with them: [`read_header`] tells.
    pub fn of_bytes(raw: &[u8; 32]) -> Header
        ensures { result ≡ header_of raw.now }
    {
        header_in(raw)
    }

    /// How long the package is that this header begins.
    pub fn total(&self) -> u32
        ensures { result ≡ total_of self.now }
    {
        32 + self.code as u32 + self.init as u32 + 6 * self.exports as u32 + 8 * self.relocs as u32
    }
}

fn has_magic(bytes: &[u8]) -> bool
    requires { 32 ≤ length bytes.now }
    ensures { result ≡ has_magic bytes.now }
{
    bytes[0] == 0x46 && bytes[1] == 0x43 && bytes[2] == 0x50 && bytes[3] == 0x31
}

fn is_blank(bytes: &[u8]) -> bool
    requires { 32 ≤ length bytes.now }
    ensures { result ≡ is_blank bytes.now }
{
    bytes[18..32].iter().all(|b| *b == 0)
}

fn has_even_lengths(h: &Header) -> bool
    ensures { result ≡ has_even_lengths h.now }
{
    h.code % 2 == 0 && h.init % 2 == 0 && h.bss % 2 == 0
}

fn has_its_length(h: &Header, count: usize) -> bool
    ensures { result ≡ has_its_length h.now count }
{
    count == h.total() as usize && count <= PACKAGE_BYTES as usize
}

// What is wrong with the header of a package of so many bytes.
pub(crate) fn header_fault_in(bytes: &[u8], count: usize) -> Option<PackageFault>
    requires { 32 ≤ count → 32 ≤ length bytes.now }
    ensures { result ≡ header_fault bytes.now count }
{
    if count < 32 {
        return Some(PackageFault::Short);
    }
    if !has_magic(bytes) {
        return Some(PackageFault::Magic);
    }
    if !is_blank(bytes) {
        return Some(PackageFault::Reserved);
    }
    let h = header_in(bytes);
    if !has_even_lengths(&h) {
        return Some(PackageFault::Parity);
    }
    if !has_its_length(&h, count) {
        return Some(PackageFault::Length);
    }
    None
}

/// The header that the first 32 bytes of a package of `count` bytes spell, or its first fault.
pub fn read_header(raw: &[u8; 32], count: u32) -> Result<Header, PackageFault>
    ensures fault { result_err result ≡ header_fault raw.now count }
    ensures header { IfOk result (λ h. h ≡ header_of raw.now) }
{
    if let Some(fault) = header_fault_in(raw, count as usize) {
        return Err(fault);
    }
    Ok(header_in(raw))
}
