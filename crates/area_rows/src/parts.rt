//! Components in brief and the packages that they make, two packages that are written out, and entries of manifests.

use std::alloc::{AllocError, Global};

/// A component: the first bytes of its code and how many zeros follow them, its data, its bss, and its exports and relocations as they are
/// spelled.
#[derive(Clone, Copy)]
pub(crate) struct Part<'a> {
    pub(crate) code: &'a [u8],
    pub(crate) zeros: u16,
    pub(crate) init: &'a [u8],
    pub(crate) bss: u16,
    pub(crate) exports: &'a [[u8; 6]],
    pub(crate) relocs: &'a [[u8; 8]],
}

/// A component with nothing in it.
pub(crate) const EMPTY: Part<'static> = Part {
    code: &[],
    zeros: 0,
    init: &[],
    bss: 0,
    exports: &[],
    relocs: &[],
};

/// A jump to itself behind a call of symbol 16, and a return that is symbol 16.
pub(crate) const CALLER: Part<'static> = Part {
    code: &[0x0E, 0x94, 0, 0, 0xFF, 0xCF],
    relocs: &[[0, 0, 0, 18, 16, 0, 0, 0]],
    ..EMPTY
};

pub(crate) const CALLEE: Part<'static> = Part {
    code: &[0x08, 0x95],
    exports: &[[16, 0, 0, 0, 0, 0]],
    ..EMPTY
};

/// A component with a single relocation of one byte.
pub(crate) const ONE_MORE: Part<'static> = Part {
    zeros: 2,
    relocs: &[[0, 0, 0, 26, 10, 0, 0, 0]],
    ..EMPTY
};

/// The package of the caller as component 1, version 1.
pub(crate) const CALLER_PACKAGE: [u8; 46] = [
    0x46, 0x43, 0x50, 0x31, 1, 0, 1, 0, 6, 0, 0, 0, 0, 0, 0, 0, 1, 0, 0, 0, 0, 0, 0, 0, 0, 0, 0, 0,
    0, 0, 0, 0, 0x0E, 0x94, 0, 0, 0xFF, 0xCF, 0, 0, 0, 0x12, 0x10, 0, 0, 0,
];

/// The package of the callee as component 2, version 1.
pub(crate) const CALLEE_PACKAGE: [u8; 40] = [
    0x46, 0x43, 0x50, 0x31, 2, 0, 1, 0, 2, 0, 0, 0, 0, 0, 1, 0, 0, 0, 0, 0, 0, 0, 0, 0, 0, 0, 0, 0,
    0, 0, 0, 0, 0x08, 0x95, 0x10, 0, 0, 0, 0, 0,
];

/// A number of two bytes.
pub(crate) fn push_number(into: &mut Vec<u8>, n: u16) -> Result<(), AllocError> {
    into.extend_from_slice(&n.to_le_bytes())?;
    Ok(())
}

/// A length that two bytes hold; worked rows have no other.
pub(crate) fn short(length: usize) -> u16 {
    if length < 65536 { length as u16 } else { 0 }
}

// The header of a package behind its first four bytes.
fn push_header(into: &mut Vec<u8>, number: u16, part: &Part<'_>) -> Result<(), AllocError> {
    let code = short(part.code.len()).wrapping_add(part.zeros);
    let init = short(part.init.len());
    let exports = short(part.exports.len());
    let relocs = short(part.relocs.len());
    for n in [number, 1, code, init, part.bss, exports, relocs] {
        push_number(into, n)?;
    }
    into.extend_from_slice(&[0; 14])?;
    Ok(())
}

fn push_content(into: &mut Vec<u8>, part: &Part<'_>) -> Result<(), AllocError> {
    into.extend_from_slice(part.code)?;
    for _ in 0..part.zeros {
        into.push(0)?;
    }
    into.extend_from_slice(part.init)?;
    Ok(())
}

fn push_records(into: &mut Vec<u8>, part: &Part<'_>) -> Result<(), AllocError> {
    for export in part.exports {
        into.extend_from_slice(export)?;
    }
    for reloc in part.relocs {
        into.extend_from_slice(reloc)?;
    }
    Ok(())
}

/// The package of component `number`.
pub(crate) fn package(alloc: Global, number: u16, part: &Part<'_>) -> Result<Vec<u8>, AllocError> {
    let mut bytes = Vec::from_array(alloc, *b"FCP1")?;
    push_header(&mut bytes, number, part)?;
    push_content(&mut bytes, part)?;
    push_records(&mut bytes, part)?;
    Ok(bytes)
}

/// A manifest's entry of version 1.
pub(crate) fn push_entry(
    into: &mut Vec<u8>,
    component: u16,
    size: u16,
    digest: &[u8; 32],
) -> Result<(), AllocError> {
    for n in [component, 1, size] {
        push_number(into, n)?;
    }
    into.extend_from_slice(digest)?;
    Ok(())
}

// A relocation whose field is byte i of code: 7, or a byte of the stack's address.
fn byte_reloc(i: u16) -> [u8; 8] {
    let [low, high] = i.to_le_bytes();
    let kind = 26 + (i % 4) as u8;
    if kind == 26 {
        [low, high, 0, kind, 10, 0, 7, 0]
    } else {
        [low, high, 0, kind, 9, 0, 0, 0]
    }
}

/// A relocation for each byte of [`full`]'s code.
pub(crate) fn byte_relocs(alloc: Global) -> Result<Vec<[u8; 8]>, AllocError> {
    let mut relocs = Vec::new(alloc);
    for i in 0..1024u16 {
        relocs.push(byte_reloc(i))?;
    }
    Ok(relocs)
}

/// A component of 1,024 bytes of code with these relocations.
pub(crate) fn full<'a>(relocs: &'a [[u8; 8]]) -> Part<'a> {
    Part {
        code: &[],
        zeros: 1024,
        init: &[],
        bss: 0,
        exports: &[],
        relocs,
    }
}
