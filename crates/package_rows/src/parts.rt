//! Components in brief, and sets of them linked.

use component_package::Bytes;
use full_linker::{LinkFault, link, may_be_linked};
use std::alloc::{AllocError, Global};
use std::test::Fail;

/// An export: symbol; 0 to 3 for code, data, bss or absolute, and 0x80 where weak; value.
pub type Symbol = (u16, u8, u16);

/// A relocation: offset; 1 in data, and 0x80 where weak; type; target; addend.
pub type Field = (u16, u8, u8, u16, i16);

/// A component in brief. Its number is its place in the set, from 1.
#[derive(Clone, Copy)]
pub struct Part<'a> {
    /// Code.
    pub code: &'a [u8],
    /// Data.
    pub init: &'a [u8],
    /// The length of bss.
    pub bss: u16,
    /// Exports.
    pub exports: &'a [Symbol],
    /// Relocations.
    pub relocs: &'a [Field],
}

/// A component of nothing.
pub const NOTHING: Part<'static> = Part {
    code: &[],
    init: &[],
    bss: 0,
    exports: &[],
    relocs: &[],
};

/// A component with the code of a return.
pub const RETURN: Part<'static> = Part {
    code: &[0x08, 0x95],
    ..NOTHING
};

fn push_number(into: &mut Vec<u8>, number: usize) -> Result<(), AllocError> {
    into.push((number % 256) as u8)?;
    into.push((number / 256 % 256) as u8)?;
    Ok(())
}

fn push_numbers(into: &mut Vec<u8>, numbers: &[usize]) -> Result<(), AllocError> {
    for number in numbers {
        push_number(into, *number)?;
    }
    Ok(())
}

fn push_exports(into: &mut Vec<u8>, exports: &[Symbol]) -> Result<(), AllocError> {
    for (symbol, kind, value) in exports {
        push_number(into, *symbol as usize)?;
        into.push(*kind)?;
        into.push(0)?;
        push_number(into, *value as usize)?;
    }
    Ok(())
}

fn push_relocs(into: &mut Vec<u8>, relocs: &[Field]) -> Result<(), AllocError> {
    for (offset, place, kind, target, addend) in relocs {
        push_number(into, *offset as usize)?;
        into.push(*place)?;
        into.push(*kind)?;
        push_number(into, *target as usize)?;
        into.extend_from_slice(&addend.to_le_bytes())?;
    }
    Ok(())
}

/// The package of a component of this number.
pub fn package(alloc: Global, number: usize, part: &Part<'_>) -> Result<Bytes, AllocError> {
    let mut bytes = b"FCP1".to_vec(alloc)?;
    push_numbers(
        &mut bytes,
        &[
            number,
            1,
            part.code.len(),
            part.init.len(),
            part.bss as usize,
            part.exports.len(),
            part.relocs.len(),
        ],
    )?;
    bytes.extend_from_slice(&[0; 14])?;
    bytes.extend_from_slice(part.code)?;
    bytes.extend_from_slice(part.init)?;
    push_exports(&mut bytes, part.exports)?;
    push_relocs(&mut bytes, part.relocs)?;
    Ok(Bytes::of(bytes))
}

/// What a set answers that may be linked.
pub fn linked(alloc: Global, parts: &[Part<'_>]) -> Result<Result<Vec<u8>, LinkFault>, Fail> {
    let mut set = Vec::new(alloc);
    for (i, part) in parts.iter().enumerate() {
        set.push(package(alloc, i % 100 + 1, part)?)?;
    }
    if may_be_linked(alloc, &set)? {
        Ok(link(alloc, &set))
    } else {
        Err("no packages that may be linked".into())
    }
}

/// Why a set that may be linked has no image.
pub fn fault(alloc: Global, parts: &[Part<'_>]) -> Result<Option<LinkFault>, Fail> {
    Ok(linked(alloc, parts)?.err())
}
