//! An object written out by hand, and its neighbours.

use std::alloc::{AllocError, Global};

/// Bytes that are written over a file's own, each with its place.
pub type Edits = &'static [(usize, &'static [u8])];

/// The object but for its section headers: a component that sends a count, as a compiler would write it.
const CONTENT: [&[u8]; 23] = [
    // The file header: relocatable, AVR, version 1, no entry, no program headers, section headers at 442, avr5, sizes, thirteen sections,
    // names in the last.
    b"\x7FELF\x01\x01\x01\0\0\0\0\0\0\0\0\0",
    b"\x01\0\x53\0\x01\0\0\0\0\0\0\0\0\0\0\0",
    b"\xBA\x01\0\0\x85\0\0\0\x34\0\0\0\0\0\x28\0\x0D\0\x0C\0",
    // .data, .text.send and its relocations: offset, type and symbol, addend
    b"\x0A\x0B\x0C",
    b"\x80\xE0\x90\xE0\x0E\x94\0\0\0\xC0\x08\x95",
    b"\0\0\0\0\x06\x01\0\0\x01\0\0\0",
    b"\x02\0\0\0\x07\x01\0\0\x01\0\0\0",
    b"\x04\0\0\0\x12\x05\0\0\0\0\0\0",
    b"\x08\0\0\0\x03\x02\0\0\0\0\0\0",
    // .progmem.data, .rodata, .debug_info and its relocation
    b"\x01\x02\x03\x04\x05abc\0\0\0\0\0",
    b"\0\0\0\0\x04\x02\0\0\xFF\xFF\xFF\xFF",
    // symbols: name, value, size, binding and type, section
    b"\0\0\0\0\0\0\0\0\0\0\0\0\0\0\0\0",
    b"\0\0\0\0\0\0\0\0\0\0\0\0\x03\0\x07\0",
    b"\0\0\0\0\0\0\0\0\0\0\0\0\x03\0\x04\0",
    b"\x01\0\0\0\0\0\0\0\x0C\0\0\0\x12\0\x04\0",
    b"\x06\0\0\0\0\0\0\0\x02\0\0\0\x11\0\x03\0",
    b"\x0C\0\0\0\0\0\0\0\0\0\0\0\x10\0\0\0",
    b"\x16\0\0\0\0\0\0\0\0\0\0\0\x10\0\0\0",
    b"\x25\0\0\0\0\0\0\0\0\0\0\0\x10\0\0\0",
    // their names, and those of the sections
    b"\0send\0count\0radio_put\0",
    b"__do_copy_data\0__do_clear_bss\0",
    b"\0.text\0.data\0.bss\0.text.send\0.rela.text.send\0.progmem.data\0",
    b".rodata\0.debug_info\0.rela.debug_info\0.symtab\0.strtab\0.shstrtab\0",
];

/// The section headers: name, type, flags, address, offset, size, link, info, alignment, entry size.
const SECTIONS: [[u32; 10]; 13] = [
    [0, 0, 0, 0, 0, 0, 0, 0, 0, 0],
    [1, 1, 6, 0, 52, 0, 0, 0, 1, 0],
    [7, 1, 3, 0, 52, 3, 0, 0, 1, 0],
    [13, 8, 3, 0, 55, 2, 0, 0, 1, 0],
    [18, 1, 6, 0, 55, 12, 0, 0, 1, 0],
    [29, 4, 0x40, 0, 67, 48, 10, 4, 4, 12],
    [45, 1, 2, 0, 115, 5, 0, 0, 1, 0],
    [59, 1, 2, 0, 120, 4, 0, 0, 1, 0],
    [67, 1, 0, 0, 124, 4, 0, 0, 1, 0],
    [79, 4, 0x40, 0, 128, 12, 10, 8, 4, 12],
    [96, 2, 0, 0, 140, 128, 11, 3, 4, 16],
    [104, 3, 0, 0, 268, 52, 0, 0, 1, 0],
    [112, 3, 0, 0, 320, 122, 0, 0, 1, 0],
];

fn push_words(out: &mut Vec<u8>, words: &[u32]) -> Result<(), AllocError> {
    for word in words {
        out.extend_from_slice(&word.to_le_bytes())?;
    }
    Ok(())
}

// An object of this content, and these section headers behind it.
fn object(alloc: Global, content: &[&[u8]], sections: &[[u32; 10]]) -> Result<Vec<u8>, AllocError> {
    let mut out = Vec::new(alloc);
    for bytes in content {
        out.extend_from_slice(bytes)?;
    }
    for words in sections {
        push_words(&mut out, words)?;
    }
    Ok(out)
}

/// The object.
pub fn sender(alloc: Global) -> Result<Vec<u8>, AllocError> {
    object(alloc, &CONTENT, &SECTIONS)
}

fn write_over(file: &mut [u8], at: usize, bytes: &[u8]) {
    if let Some(tail) = file.get_mut(at..) {
        for (place, byte) in tail.iter_mut().zip(bytes) {
            *place = *byte;
        }
    }
}

/// The file with bytes written over some of its own.
pub fn edited(alloc: Global, file: &[u8], edits: &[(usize, &[u8])]) -> Result<Vec<u8>, AllocError> {
    let mut out = file.to_vec(alloc)?;
    for (at, bytes) in edits {
        write_over(&mut out, *at, bytes);
    }
    Ok(out)
}
