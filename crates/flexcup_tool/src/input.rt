//! Whole files.

use std::{fs, io};

/// The bytes of a file, or of standard input where none is named.
pub(crate) fn read_input(rt: &HostRuntime, path: Option<&str>) -> io::Result<Vec<u8>> {
    match path {
        Some(path) => fs::read(rt, path),
        None => {
            let mut bytes = Vec::new(rt.alloc());
            io::Read::read_to_end(&mut rt.stdin(), &mut bytes)?;
            Ok(bytes)
        }
    }
}
