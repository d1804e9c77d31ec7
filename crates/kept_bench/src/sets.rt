//! Sets at the limits, as packages.

use std::alloc::{AllocError, Global};

/// A set of 16 components that are alike.
#[derive(Clone, Copy)]
pub(crate) struct Shape {
    pub(crate) name: &'static str,
    /// Bytes of code, and numbers of exports and of relocations, of each component.
    pub(crate) code: u16,
    pub(crate) exports: u16,
    pub(crate) relocs: u16,
    /// How many symbols further on each call's target is than that of the call before it.
    pub(crate) stride: u16,
}

/// How many components a set has.
pub(crate) const COMPONENTS: u16 = 16;

const CALL: u8 = 18;

// The least symbol that components may export.
const FIRST_SYMBOL: u16 = 16;

/// The greatest image: 122,880 bytes. Then the most relocations, 8,192, and the most symbols, 1,024, with as much code as there is room for in
/// packages; each component calls all symbols in order, or jumps about among them so that no two calls in a row find theirs on one page.
pub(crate) const SHAPES: [Shape; 3] = [
    Shape {
        name: "greatest image",
        code: 7680,
        exports: 0,
        relocs: 0,
        stride: 0,
    },
    Shape {
        name: "most relocations, calls in order",
        code: 5472,
        exports: 64,
        relocs: 512,
        stride: 1,
    },
    Shape {
        name: "most relocations, calls here and there",
        code: 5472,
        exports: 64,
        relocs: 512,
        stride: 413,
    },
];

fn push_number(into: &mut Vec<u8>, n: u16) -> Result<(), AllocError> {
    into.extend_from_slice(&n.to_le_bytes())?;
    Ok(())
}

// The symbol that relocation `i` of component `k` refers to.
fn target(shape: &Shape, k: u16, i: u16) -> u16 {
    let all = shape.exports.wrapping_mul(COMPONENTS);
    let step = k
        .wrapping_mul(shape.relocs)
        .wrapping_add(i)
        .wrapping_mul(shape.stride);
    FIRST_SYMBOL.wrapping_add(step.checked_rem(all).unwrap_or(0))
}

fn push_code(bytes: &mut Vec<u8>, shape: &Shape, version: u8) -> Result<(), AllocError> {
    for i in 0..shape.code {
        let has_call = i / 8 < shape.relocs;
        bytes.push(match i % 8 {
            0 if has_call => 0x0E,
            1 if has_call => 0x94,
            2 | 3 if has_call => 0,
            _ => version,
        })?;
    }
    Ok(())
}

fn push_exports(bytes: &mut Vec<u8>, shape: &Shape, k: u16) -> Result<(), AllocError> {
    for i in 0..shape.exports {
        let symbol = k.wrapping_mul(shape.exports).wrapping_add(i);
        push_number(bytes, FIRST_SYMBOL.wrapping_add(symbol))?;
        bytes.extend_from_slice(&[0, 0])?;
        push_number(bytes, i.wrapping_mul(2))?;
    }
    Ok(())
}

fn push_relocs(bytes: &mut Vec<u8>, shape: &Shape, k: u16) -> Result<(), AllocError> {
    for i in 0..shape.relocs {
        push_number(bytes, i.wrapping_mul(8))?;
        bytes.extend_from_slice(&[0, CALL])?;
        push_number(bytes, target(shape, k, i))?;
        push_number(bytes, 0)?;
    }
    Ok(())
}

/// The package of this version of component `k`: a call each eight bytes of code, as many as there are relocations, and exports at even bytes of
/// code. Another version has other bytes between its calls.
pub(crate) fn package(
    alloc: Global,
    shape: &Shape,
    k: u16,
    version: u8,
) -> Result<Vec<u8>, AllocError> {
    let mut bytes = Vec::from_array(alloc, *b"FCP1")?;
    for n in [
        k,
        version as u16,
        shape.code,
        0,
        0,
        shape.exports,
        shape.relocs,
    ] {
        push_number(&mut bytes, n)?;
    }
    bytes.extend_from_slice(&[0; 14])?;
    push_code(&mut bytes, shape, version)?;
    push_exports(&mut bytes, shape, k)?;
    push_relocs(&mut bytes, shape, k)?;
    Ok(bytes)
}
