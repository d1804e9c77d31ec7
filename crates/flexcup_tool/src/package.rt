//! `package`: what a package has.

use crate::input::read_input;
use anyhow::Result;
use avr_reloc::RelocType;
use component_package::{Export, PackageView, Place, Reloc, read_package};
use std::process::ExitCode;
use std::{fmt, io};

/// The name of a type in the AVR ELF ABI.
fn name(kind: RelocType) -> &'static str {
    match kind {
        RelocType::Abs32 => "R_AVR_32",
        RelocType::Rel7 => "R_AVR_7_PCREL",
        RelocType::Rel13 => "R_AVR_13_PCREL",
        RelocType::Abs16 => "R_AVR_16",
        RelocType::Pm16 => "R_AVR_16_PM",
        RelocType::Lo8 => "R_AVR_LO8_LDI",
        RelocType::Hi8 => "R_AVR_HI8_LDI",
        RelocType::Hh8 => "R_AVR_HH8_LDI",
        RelocType::Lo8Neg => "R_AVR_LO8_LDI_NEG",
        RelocType::Hi8Neg => "R_AVR_HI8_LDI_NEG",
        RelocType::Hh8Neg => "R_AVR_HH8_LDI_NEG",
        RelocType::Lo8Pm => "R_AVR_LO8_LDI_PM",
        RelocType::Hi8Pm => "R_AVR_HI8_LDI_PM",
        RelocType::Hh8Pm => "R_AVR_HH8_LDI_PM",
        RelocType::Lo8PmNeg => "R_AVR_LO8_LDI_PM_NEG",
        RelocType::Hi8PmNeg => "R_AVR_HI8_LDI_PM_NEG",
        RelocType::Hh8PmNeg => "R_AVR_HH8_LDI_PM_NEG",
        RelocType::Call => "R_AVR_CALL",
        RelocType::Ldi => "R_AVR_LDI",
        RelocType::Six => "R_AVR_6",
        RelocType::SixAdiw => "R_AVR_6_ADIW",
        RelocType::Ms8 => "R_AVR_MS8_LDI",
        RelocType::Ms8Neg => "R_AVR_MS8_LDI_NEG",
        RelocType::Lo8Gs => "R_AVR_LO8_LDI_GS",
        RelocType::Hi8Gs => "R_AVR_HI8_LDI_GS",
        RelocType::Eight => "R_AVR_8",
        RelocType::EightLo => "R_AVR_8_LO8",
        RelocType::EightHi => "R_AVR_8_HI8",
        RelocType::EightHlo => "R_AVR_8_HLO8",
    }
}

/// What a relocation's value counts from: a part of the component, a linker's symbol, or a symbol.
#[derive(Clone, Copy)]
struct Target(u16);

impl fmt::Display for Target {
    fn fmt<W: fmt::Write>(&self, f: &mut fmt::Formatter<W>) -> fmt::Result {
        match self.0 {
            0 => write!(f, ".text"),
            1 => write!(f, ".data"),
            2 => write!(f, ".bss"),
            3 => write!(f, "__data_start"),
            4 => write!(f, "__data_end"),
            5 => write!(f, "__data_load_start"),
            6 => write!(f, "__bss_start"),
            7 => write!(f, "__bss_end"),
            8 => write!(f, "__heap_start"),
            9 => write!(f, "__stack"),
            10 => write!(f, "*ABS*"),
            symbol => write!(f, "symbol_{symbol}"),
        }
    }
}

fn section(place: Place) -> &'static str {
    match place {
        Place::Code => ".text",
        Place::Init => ".data",
        Place::Bss => ".bss",
        Place::Absolute => "*ABS*",
    }
}

fn weak(is_weak: bool) -> &'static str {
    if is_weak { " weak" } else { "" }
}

fn print_export<W: io::Write>(out: &mut W, x: Export) -> io::Result<()> {
    let (symbol, place, value, weak) = (x.symbol, section(x.place), x.value, weak(x.weak));
    writeln!(out, "symbol_{symbol} {place} 0x{value:08x}{weak}")
}

fn print_reloc<W: io::Write>(out: &mut W, x: Reloc) -> io::Result<()> {
    let (offset, kind, target, weak) = (x.offset, name(x.kind), Target(x.target), weak(x.weak));
    let size = x.addend.unsigned_abs();
    if x.addend == 0 {
        writeln!(out, "{offset:08x} {kind:<20} {target}{weak}")
    } else if x.addend < 0 {
        writeln!(out, "{offset:08x} {kind:<20} {target}-0x{size:08x}{weak}")
    } else {
        writeln!(out, "{offset:08x} {kind:<20} {target}+0x{size:08x}{weak}")
    }
}

fn print_relocs<W: io::Write>(
    out: &mut W,
    package: &PackageView<'_>,
    in_init: bool,
) -> io::Result<()> {
    let section = if in_init { ".data" } else { ".text" };
    writeln!(out, "RELOCATION RECORDS FOR [{section}]:")?;
    for i in 0..package.header().relocs {
        let x = package.reloc(i);
        if x.in_init == in_init {
            print_reloc(out, x)?;
        }
    }
    Ok(())
}

fn print_package<W: io::Write>(out: &mut W, package: &PackageView<'_>) -> io::Result<()> {
    let h = package.header();
    writeln!(out, "component {} version {}", h.component, h.version)?;
    writeln!(out, ".text {} bytes", h.code)?;
    writeln!(out, ".data {} bytes", h.init)?;
    writeln!(out, ".bss {} bytes", h.bss)?;
    writeln!(out, "EXPORTS:")?;
    for i in 0..h.exports {
        print_export(out, package.export(i))?;
    }
    print_relocs(out, package, false)?;
    print_relocs(out, package, true)
}

/// Prints the parts, exports and relocations of a package.
pub(crate) fn show(rt: &HostRuntime, path: Option<&str>) -> Result<ExitCode> {
    let bytes = read_input(rt, path)?;
    let package = read_package(&bytes)?;
    let mut out = io::BufWriter::new(rt.alloc(), rt.stdout())?;
    print_package(&mut out, &package)?;
    io::Write::flush(&mut out)?;
    Ok(ExitCode::SUCCESS)
}
