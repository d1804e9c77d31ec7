//! Objects of the tests, as a compiler would write them.

use component_package::Bytes;
use std::alloc::{AllocError, Global};

#[derive(Clone, Copy)]
pub enum Object {
    /// A component that sends a count: it defines `send` and `count`, and calls `radio_put`.
    Sender,
    /// A component that defines `radio_put`.
    Radio,
    /// The first of them, cut inside its section table.
    Cut,
}

// What stands before the section headers of the sender.
const SENDER: [&[u8]; 21] = [
    // .data, .text.send and its relocations
    b"\x0A\x0B\x0C",
    b"\x80\xE0\x90\xE0\x0E\x94\0\0\0\xC0\x08\x95",
    b"\0\0\0\0\x06\x01\0\0\x01\0\0\0",
    b"\x02\0\0\0\x07\x01\0\0\x01\0\0\0",
    b"\x04\0\0\0\x12\x05\0\0\0\0\0\0",
    b"\x08\0\0\0\x03\x02\0\0\0\0\0\0",
    // .progmem.data, .rodata, .debug_info and its relocation
    b"\x01\x02\x03\x04\x05",
    b"abc\0",
    b"\0\0\0\0",
    b"\0\0\0\0\x04\x02\0\0\xFF\xFF\xFF\xFF",
    // symbols
    b"\0\0\0\0\0\0\0\0\0\0\0\0\0\0\0\0",
    b"\0\0\0\0\0\0\0\0\0\0\0\0\x03\0\x07\0",
    b"\0\0\0\0\0\0\0\0\0\0\0\0\x03\0\x04\0",
    b"\x01\0\0\0\0\0\0\0\x0C\0\0\0\x12\0\x04\0",
    b"\x06\0\0\0\0\0\0\0\x02\0\0\0\x11\0\x03\0",
    b"\x0C\0\0\0\0\0\0\0\0\0\0\0\x10\0\0\0",
    b"\x16\0\0\0\0\0\0\0\0\0\0\0\x10\0\0\0",
    b"\x25\0\0\0\0\0\0\0\0\0\0\0\x10\0\0\0",
    // their names, and those of the sections
    b"\0send\0count\0radio_put\0__do_copy_data\0__do_clear_bss\0",
    b"\0.text\0.data\0.bss\0.text.send\0.rela.text.send\0.progmem.data\0",
    b".rodata\0.debug_info\0.rela.debug_info\0.symtab\0.strtab\0.shstrtab\0",
];

// Section headers: name, type, flags, address, offset, size, link, info, alignment, entry size. The last section has their names.
const SENDER_SECTIONS: [[u32; 10]; 13] = [
    [0, 0, 0, 0, 0, 0, 0, 0, 0, 0],
    [1, 1, 6, 0, 52, 0, 0, 0, 1, 0],
    [7, 1, 3, 0, 52, 3, 0, 0, 1, 0],
    [13, 8, 3, 0, 55, 2, 0, 0, 1, 0],
    [18, 1, 6, 0, 55, 12, 0, 0, 1, 0],
    [29, 4, 0x40, 0, 67, 48, 10, 4, 4, 12],
    [45, 1, 2, 0, 115, 5, 0, 0, 1, 0],
    [59, 1, 2, 0, 120, 4, 0, 0, 1, 0],
    [67, 1, 0, 0, 124, 4, 0, 0, 1, 0],
    [79, 4, 0x40, 0, 128, 12, 10, 8, 4, 12],
    [96, 2, 0, 0, 140, 128, 11, 3, 4, 16],
    [104, 3, 0, 0, 268, 52, 0, 0, 1, 0],
    [112, 3, 0, 0, 320, 122, 0, 0, 1, 0],
];

// The same of the radio.
const RADIO: [&[u8]; 5] = [
    b"\x08\x95",
    b"\0\0\0\0\0\0\0\0\0\0\0\0\0\0\0\0",
    b"\x01\0\0\0\0\0\0\0\x02\0\0\0\x12\0\x01\0",
    b"\0radio_put\0",
    b"\0.text\0.symtab\0.strtab\0.shstrtab\0",
];

const RADIO_SECTIONS: [[u32; 10]; 5] = [
    [0, 0, 0, 0, 0, 0, 0, 0, 0, 0],
    [1, 1, 6, 0, 52, 2, 0, 0, 1, 0],
    [7, 2, 0, 0, 54, 32, 3, 1, 4, 16],
    [15, 3, 0, 0, 86, 11, 0, 0, 1, 0],
    [23, 3, 0, 0, 97, 33, 0, 0, 1, 0],
];

fn push_word(out: &mut Vec<u8>, word: u32) -> Result<(), AllocError> {
    out.extend_from_slice(&word.to_le_bytes())
}

// The header: relocatable, AVR, avr5, and where the section headers begin.
fn push_header(out: &mut Vec<u8>, start: u32, sections: u32) -> Result<(), AllocError> {
    out.extend_from_slice(b"\x7FELF\x01\x01\x01\0\0\0\0\0\0\0\0\0\x01\0\x53\0\x01\0\0\0")?;
    out.extend_from_slice(b"\0\0\0\0\0\0\0\0")?;
    push_word(out, start)?;
    out.extend_from_slice(b"\x85\0\0\0\x34\0\0\0\0\0\x28\0")?;
    push_word(out, sections.wrapping_mul(65_537).wrapping_sub(65_536))
}

fn push_sections(out: &mut Vec<u8>, sections: &[[u32; 10]]) -> Result<(), AllocError> {
    for section in sections {
        for word in section {
            push_word(out, *word)?;
        }
    }
    Ok(())
}

// An object in brief: where its section headers begin and how many there are, what stands before them, and these.
fn written(
    alloc: Global,
    places: (u32, u32),
    content: &[&[u8]],
    sections: &[[u32; 10]],
) -> Result<Vec<u8>, AllocError> {
    let (start, count) = places;
    let mut out = Vec::new(alloc);
    push_header(&mut out, start, count)?;
    for piece in content {
        out.extend_from_slice(piece)?;
    }
    push_sections(&mut out, sections)?;
    Ok(out)
}

/// The bytes of an object file.
pub fn object_file(alloc: Global, object: Object) -> Result<Bytes, AllocError> {
    let mut bytes = match object {
        Object::Sender | Object::Cut => written(alloc, (442, 13), &SENDER, &SENDER_SECTIONS)?,
        Object::Radio => written(alloc, (130, 5), &RADIO, &RADIO_SECTIONS)?,
    };
    if matches!(object, Object::Cut) {
        bytes.truncate(500);
    }
    Ok(Bytes::of(bytes))
}
