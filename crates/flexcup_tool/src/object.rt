//! `object`: what the reader sees of an object.
//!
//! A line for each section, symbol and relocation, or one line with the first fault. The status is 0
//! where the object was read, 1 where it has a fault, and 2 where it is longer than objects are.

use crate::input::read_input;
use anyhow::Result;
use avr_elf::constants::MAX_FILE;
use avr_elf::{ElfFault, ObjectView, read_object};
use std::alloc::{AllocError, Global};
use std::io;
use std::process::ExitCode;

/// A name, with each byte that isn't a visible ASCII character as two hexadecimal digits.
pub(crate) fn text(alloc: Global, name: &[u8]) -> Result<String, AllocError> {
    let mut out = String::new(alloc);
    for b in name {
        if b.is_ascii_graphic() && *b != b'"' && *b != b'\\' {
            out.push(*b as char)?;
        } else {
            out.push_str(&format!(in alloc; "\\x{:02x}", *b)?)?;
        }
    }
    Ok(out)
}

fn print_sections<W: io::Write>(
    alloc: Global,
    out: &mut W,
    object: &ObjectView<'_>,
) -> io::Result<()> {
    for i in 0..object.section_count() {
        let s = object.section(i);
        let name = text(alloc, s.name)?;
        let (kind, flags, size, align) = (s.kind, s.flags, s.size, s.align);
        writeln!(
            out,
            "section {i} \"{name}\" type {kind} flags {flags} size {size} align {align}"
        )?;
    }
    Ok(())
}

fn print_symbols<W: io::Write>(
    alloc: Global,
    out: &mut W,
    object: &ObjectView<'_>,
) -> io::Result<()> {
    for i in 0..object.symbol_count() {
        let s = object.symbol(i);
        let name = text(alloc, s.name)?;
        let (value, size, binding, kind, section) = (s.value, s.size, s.binding, s.kind, s.section);
        writeln!(
            out,
            "symbol {i} \"{name}\" value {value} size {size} binding {binding} type {kind} section {section}"
        )?;
    }
    Ok(())
}

fn print_relocations<W: io::Write>(out: &mut W, object: &ObjectView<'_>) -> io::Result<()> {
    for section in 0..object.section_count() {
        let relas = object.relas(section);
        for i in 0..relas.len() {
            let r = relas.get(i);
            let (offset, kind, symbol, addend) = (r.offset, r.kind, r.symbol, r.addend);
            writeln!(
                out,
                "relocation section {section} offset {offset} type {kind} symbol {symbol} addend {addend}"
            )?;
        }
    }
    Ok(())
}

fn print_fault<W: io::Write>(out: &mut W, fault: ElfFault) -> io::Result<()> {
    let number = fault.number();
    let at = fault.offset();
    writeln!(out, "fault {number} at {at}: {fault}")
}

fn print_object<W: io::Write>(
    alloc: Global,
    out: &mut W,
    object: &ObjectView<'_>,
) -> io::Result<()> {
    print_sections(alloc, out, object)?;
    print_symbols(alloc, out, object)?;
    print_relocations(out, object)
}

/// Prints an object, or its fault.
pub(crate) fn show(rt: &HostRuntime, path: Option<&str>) -> Result<ExitCode> {
    let file = read_input(rt, path)?;
    if file.len() > MAX_FILE {
        eprintln!(rt; "flexcup_tool: an object has at most {MAX_FILE} bytes")?;
        return Ok(ExitCode::from(2));
    }
    let mut out = io::BufWriter::new(rt.alloc(), rt.stdout())?;
    let status = match read_object(&file) {
        Ok(object) => {
            print_object(rt.alloc(), &mut out, &object)?;
            ExitCode::SUCCESS
        }
        Err(fault) => {
            print_fault(&mut out, fault)?;
            ExitCode::FAILURE
        }
    };
    io::Write::flush(&mut out)?;
    Ok(status)
}
