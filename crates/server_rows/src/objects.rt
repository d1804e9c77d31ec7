//! Objects, as a compiler would write them, and their neighbours.

use std::alloc::{AllocError, Global};

/// Bytes that are written over a file's own, each with its place.
pub type Edits = &'static [(usize, &'static [u8])];

/// A file that is to be a component's next version.
#[derive(Clone, Copy)]
pub enum Object {
    Sender,
    Radio,
    /// A file without a byte.
    Empty,
}

/// A component that sends a count: it defines `send` and `count`, and calls `radio_put`.
///
/// Its symbols begin at 140 and have 16 bytes, the relocations of its section 4 at 67 and have 12, and its section headers at 442 and have
/// 40: section 4 at 602, 5 at 642, 10 at 842, 12 at 922.
const SENDER: &[u8] =
    b"\x7FELF\x01\x01\x01\0\0\0\0\0\0\0\0\0\x01\0S\0\x01\0\0\0\0\0\0\0\0\0\0\0\xBA\x01\0\0\x85\0\0\04\0\0\0\0\0(\0\x0D\0\x0C\0\x0A\x0B\x0C\x80\xE0\x90\xE0\x0E\x94\0\0\0\xC0\x08\x95\0\0\0\0\x06\x01\0\0\x01\0\0\0\x02\0\0\0\x07\x01\0\0\x01\0\0\0\x04\0\0\0\x12\x05\0\0\0\0\0\0\x08\0\0\0\x03\x02\0\0\0\0\0\0\x01\x02\x03\x04\x05abc\0\0\0\0\0\0\0\0\0\x04\x02\0\0\xFF\xFF\xFF\xFF\0\0\0\0\0\0\0\0\0\0\0\0\0\0\0\0\0\0\0\0\0\0\0\0\0\0\0\0\x03\0\x07\0\0\0\0\0\0\0\0\0\0\0\0\0\x03\0\x04\0\x01\0\0\0\0\0\0\0\x0C\0\0\0\x12\0\x04\0\x06\0\0\0\0\0\0\0\x02\0\0\0\x11\0\x03\0\x0C\0\0\0\0\0\0\0\0\0\0\0\x10\0\0\0\x16\0\0\0\0\0\0\0\0\0\0\0\x10\0\0\0%\0\0\0\0\0\0\0\0\0\0\0\x10\0\0\0\0send\0count\0radio_put\0__do_copy_data\0__do_clear_bss\0\0.text\0.data\0.bss\0.text.send\0.rela.text.send\0.progmem.data\0.rodata\0.debug_info\0.rela.debug_info\0.symtab\0.strtab\0.shstrtab\0\0\0\0\0\0\0\0\0\0\0\0\0\0\0\0\0\0\0\0\0\0\0\0\0\0\0\0\0\0\0\0\0\0\0\0\0\0\0\0\0\x01\0\0\0\x01\0\0\0\x06\0\0\0\0\0\0\04\0\0\0\0\0\0\0\0\0\0\0\0\0\0\0\x01\0\0\0\0\0\0\0\x07\0\0\0\x01\0\0\0\x03\0\0\0\0\0\0\04\0\0\0\x03\0\0\0\0\0\0\0\0\0\0\0\x01\0\0\0\0\0\0\0\x0D\0\0\0\x08\0\0\0\x03\0\0\0\0\0\0\07\0\0\0\x02\0\0\0\0\0\0\0\0\0\0\0\x01\0\0\0\0\0\0\0\x12\0\0\0\x01\0\0\0\x06\0\0\0\0\0\0\07\0\0\0\x0C\0\0\0\0\0\0\0\0\0\0\0\x01\0\0\0\0\0\0\0\x1D\0\0\0\x04\0\0\0@\0\0\0\0\0\0\0C\0\0\00\0\0\0\x0A\0\0\0\x04\0\0\0\x04\0\0\0\x0C\0\0\0-\0\0\0\x01\0\0\0\x02\0\0\0\0\0\0\0s\0\0\0\x05\0\0\0\0\0\0\0\0\0\0\0\x01\0\0\0\0\0\0\0;\0\0\0\x01\0\0\0\x02\0\0\0\0\0\0\0x\0\0\0\x04\0\0\0\0\0\0\0\0\0\0\0\x01\0\0\0\0\0\0\0C\0\0\0\x01\0\0\0\0\0\0\0\0\0\0\0|\0\0\0\x04\0\0\0\0\0\0\0\0\0\0\0\x01\0\0\0\0\0\0\0O\0\0\0\x04\0\0\0@\0\0\0\0\0\0\0\x80\0\0\0\x0C\0\0\0\x0A\0\0\0\x08\0\0\0\x04\0\0\0\x0C\0\0\0`\0\0\0\x02\0\0\0\0\0\0\0\0\0\0\0\x8C\0\0\0\x80\0\0\0\x0B\0\0\0\x03\0\0\0\x04\0\0\0\x10\0\0\0h\0\0\0\x03\0\0\0\0\0\0\0\0\0\0\0\x0C\x01\0\04\0\0\0\0\0\0\0\0\0\0\0\x01\0\0\0\0\0\0\0p\0\0\0\x03\0\0\0\0\0\0\0\0\0\0\0@\x01\0\0z\0\0\0\0\0\0\0\0\0\0\0\x01\0\0\0\0\0\0\0";

/// A component that defines `radio_put`. Its code is at 52, and the name at 87.
const RADIO: &[u8] =
    b"\x7FELF\x01\x01\x01\0\0\0\0\0\0\0\0\0\x01\0S\0\x01\0\0\0\0\0\0\0\0\0\0\0\x82\0\0\0\x85\0\0\04\0\0\0\0\0(\0\x05\0\x04\0\x08\x95\0\0\0\0\0\0\0\0\0\0\0\0\0\0\0\0\x01\0\0\0\0\0\0\0\x02\0\0\0\x12\0\x01\0\0radio_put\0\0.text\0.symtab\0.strtab\0.shstrtab\0\0\0\0\0\0\0\0\0\0\0\0\0\0\0\0\0\0\0\0\0\0\0\0\0\0\0\0\0\0\0\0\0\0\0\0\0\0\0\0\0\x01\0\0\0\x01\0\0\0\x06\0\0\0\0\0\0\04\0\0\0\x02\0\0\0\0\0\0\0\0\0\0\0\x01\0\0\0\0\0\0\0\x07\0\0\0\x02\0\0\0\0\0\0\0\0\0\0\06\0\0\0 \0\0\0\x03\0\0\0\x01\0\0\0\x04\0\0\0\x10\0\0\0\x0F\0\0\0\x03\0\0\0\0\0\0\0\0\0\0\0V\0\0\0\x0B\0\0\0\0\0\0\0\0\0\0\0\x01\0\0\0\0\0\0\0\x17\0\0\0\x03\0\0\0\0\0\0\0\0\0\0\0a\0\0\0!\0\0\0\0\0\0\0\0\0\0\0\x01\0\0\0\0\0\0\0";

/// The bytes of an object.
pub fn bytes_of_object(object: Object) -> &'static [u8] {
    match object {
        Object::Sender => SENDER,
        Object::Radio => RADIO,
        Object::Empty => b"",
    }
}

fn write_over(file: &mut [u8], at: usize, bytes: &[u8]) {
    if let Some(tail) = file.get_mut(at..) {
        for (place, byte) in tail.iter_mut().zip(bytes) {
            *place = *byte;
        }
    }
}

/// The first bytes of a file, or the file with bytes of zero behind it, and with bytes written over some of its own.
pub fn edited(
    alloc: Global,
    file: &[u8],
    length: usize,
    edits: &[(usize, &[u8])],
) -> Result<Vec<u8>, AllocError> {
    let mut out = file.to_vec(alloc)?;
    out.resize(length, 0)?;
    for (at, bytes) in edits {
        write_over(&mut out, *at, bytes);
    }
    Ok(out)
}
