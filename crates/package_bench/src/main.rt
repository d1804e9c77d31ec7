//! Measures how fast packages are read.
//!
//! It makes the greatest package with as many exports as fit, and the one with as many relocations
//! as fit, and reads each of them some thousand times. It prints what it read. With the argument
//! `--time` it also prints, to standard error, how many of them it read in a second.
#![tactic(auto)]

use anyhow::{Context, Result, bail};
use component_package::{Header, read_package};
use std::alloc::{AllocError, Global};
use std::env;
use std::time::Instant;

/// How often each package is read.
const TIMES: u32 = 2000;
/// With 4 bytes of code, 1,658 exports of 6 bytes fill the 9,984 bytes of a package.
const EXPORTS: u16 = 1658;
/// With 1,112 bytes of code, 1,105 relocations of 8 bytes, each of a byte of code, fill them.
const RELOCS: u16 = 1105;

/// The header, and code that is all zeros.
fn package(alloc: Global, code: u16, exports: u16, relocs: u16) -> Result<Vec<u8>, AllocError> {
    let mut bytes = Vec::new(alloc);
    bytes.extend_from_slice(b"FCP1")?;
    for n in [1, 0, code, 0, 0, exports, relocs] {
        bytes.extend_from_slice(&n.to_le_bytes())?;
    }
    bytes.extend_from_slice(&[0; 14])?;
    for _ in 0..code {
        bytes.push(0)?;
    }
    Ok(bytes)
}

/// Symbols from 16 on, each at the begin of code.
fn most_exports(alloc: Global) -> Result<Vec<u8>, AllocError> {
    let mut bytes = package(alloc, 4, EXPORTS, 0)?;
    for symbol in 16..16 + EXPORTS {
        let [low, high] = symbol.to_le_bytes();
        bytes.extend_from_slice(&[low, high, 0, 0, 0, 0])?;
    }
    Ok(bytes)
}

/// Each byte of code is to hold the low byte of symbol 16 (type 26).
fn most_relocs(alloc: Global) -> Result<Vec<u8>, AllocError> {
    let mut bytes = package(alloc, 1112, 0, RELOCS)?;
    for offset in 0..RELOCS {
        let [low, high] = offset.to_le_bytes();
        bytes.extend_from_slice(&[low, high, 0, 26, 16, 0, 0, 0])?;
    }
    Ok(bytes)
}

/// Reads a package again and again, each time with another version, and answers its last header.
fn read_often(bytes: &mut [u8]) -> Result<Header> {
    let mut last = None;
    for i in 0..TIMES {
        if let Some(version) = bytes.get_mut(6) {
            *version = (i % 256) as u8;
        }
        match read_package(bytes) {
            Ok(view) => last = Some(view.header()),
            Err(fault) => bail!("the package is refused: {fault:?}"),
        }
    }
    last.context("no package was read")
}

fn main(rt: HostRuntime) -> Result<()> {
    let timed = env::args(&rt)?.any(|word| word.as_str() == "--time");
    for mut bytes in [most_exports(rt.alloc())?, most_relocs(rt.alloc())?] {
        let header = if timed {
            let start = Instant::now(&rt)?;
            let header = read_often(&mut bytes)?;
            let seconds = start.elapsed(&rt)?.as_secs_f64();
            eprintln!(rt; "{:.0} packages a second", TIMES as f64 / seconds)?;
            header
        } else {
            read_often(&mut bytes)?
        };
        println!(rt;
            "{} exports, {} relocations, {} bytes, read {TIMES} times",
            header.exports,
            header.relocs,
            header.total()
        )?;
    }
    Ok(())
}
