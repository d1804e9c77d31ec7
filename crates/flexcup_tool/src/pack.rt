//! `pack`: the package of an object.

ghost use Rattle.std.specs.Prelude.{◌≡◌, ◌≤◌, All, IfOk, None, length};
ghost use Rattle.component_package.specs.packages.Manifest.{AreDistinct};
ghost use Rattle.object_packer.specs.Names.{names};
ghost use Rattle.object_packer.specs.Faults.{pack_fault};

use crate::numbering::{Numbering, are_distinct, are_symbols};
use crate::object::text;
use anyhow::{Result, bail, ensure};
use avr_elf::constants::MAX_FILE;
use avr_elf::{ElfFault, ObjectView, read_object};
use component_package::write_package;
use object_packer::{Names, PackFault, names_of, pack};
use std::alloc::Global;
use std::fs::{self, File};
use std::io;
use std::io::Write;
use std::process::ExitCode;

/// What is to be packed, and how.
#[derive(Drop)]
pub(crate) struct Request<'a> {
    /// The path of the file of names.
    pub names: &'a str,
    /// The component's number.
    pub component: u16,
    /// The component's version.
    pub version: u16,
    /// The path of the object.
    pub object: &'a str,
}

// The bytes of the file of names; none where there is no file.
fn read_names(rt: &HostRuntime, path: &str) -> io::Result<Vec<u8>> {
    match fs::read(rt, path) {
        Ok(text) => Ok(text),
        Err(error) if error.kind() == io::ErrorKind::NotFound => Ok(Vec::new(rt.alloc())),
        Err(error) => Err(error),
    }
}

// Adds lines to the end of the file of names, whose text so far is given.
fn append_names(rt: &HostRuntime, path: &str, text: &[u8], lines: &[u8]) -> io::Result<()> {
    if lines.is_empty() {
        return Ok(());
    }
    let mut file = File::options().append(true).create(true).open(rt, path)?;
    if !text.is_empty() && !text.ends_with(b"\n") {
        file.write_all(b"\n")?;
    }
    file.write_all(lines)
}

fn section_name<'a>(object: &'a ObjectView<'a>, section: u16) -> &'a [u8] {
    if section < object.section_count() {
        object.section(section).name
    } else {
        b"".as_slice()
    }
}

fn symbol_name<'a>(object: &'a ObjectView<'a>, symbol: u32) -> &'a [u8] {
    if symbol < object.symbol_count() {
        object.symbol(symbol).name
    } else {
        b"".as_slice()
    }
}

// The name of the section or symbol that a fault is about.
fn subject<'a>(object: &'a ObjectView<'a>, fault: PackFault) -> &'a [u8] {
    match fault {
        PackFault::Section(section)
        | PackFault::Kind(section, _, _)
        | PackFault::Addend(section, _)
        | PackFault::Field(section, _) => section_name(object, section),
        PackFault::Common(symbol) | PackFault::Absolute(symbol) | PackFault::NameTwice(symbol) => {
            symbol_name(object, symbol)
        }
        PackFault::Size(_) | PackFault::Memory => b"".as_slice(),
    }
}

// An object's fault in words.
fn elf_words(alloc: Global, fault: ElfFault) -> Result<String> {
    let (number, at) = (fault.number(), fault.offset());
    Ok(format!(in alloc; "fault {number} at {at}: {fault}")?)
}

// A packing fault in words, with the name of what it is about.
fn pack_words(alloc: Global, object: &ObjectView<'_>, fault: PackFault) -> Result<String> {
    let number = fault.number();
    let name = text(alloc, subject(object, fault))?;
    if name.is_empty() {
        return Ok(format!(in alloc; "packing fault {number}: {fault}")?);
    }
    Ok(format!(in alloc; "packing fault {number}: {fault} ({name})")?)
}

// A package, and the lines that it adds to the file of names.
#[derive(Drop)]
struct Packed {
    package: Vec<u8>,
    lines: Vec<u8>,
}

// The names in an object that need numbers. Where the object has a fault, the error says it.
fn names_in<'a>(alloc: Global, object: &'a ObjectView<'a>, path: &str) -> Result<Names<'a>>
    ensures names { IfOk result (λ n. n ≡ names object.now) }
    ensures sound { IfOk result (λ _. pack_fault object.now ≡ None) }
{
    match names_of(alloc, object) {
        Ok(names) => Ok(names),
        Err(fault) => {
            let words = pack_words(alloc, object, fault)?;
            bail!("{path}: {words}")
        }
    }
}

// The numbers of names, which the packer takes.
fn numbers_for<'a>(
    alloc: Global,
    numbering: &mut Numbering<'a>,
    names: &Names<'a>,
) -> Result<Vec<u16>>
    ensures count { IfOk result (λ v. length v.items ≡ length names.now) }
    ensures different { IfOk result (λ v. AreDistinct v.items) }
    ensures symbols { IfOk result (λ v. All (λ n. 16 ≤ n) v.items) }
{
    let numbers = numbering.numbers_of(alloc, names)?;
    ensure!(are_distinct(&numbers), "two names have one number");
    ensure!(are_symbols(&numbers), "a name has a number below 16");
    Ok(numbers)
}

// The package of an object whose names have these numbers.
fn package_bytes<'a>(
    alloc: Global,
    object: &'a ObjectView<'a>,
    request: &Request<'_>,
    numbers: &[u16],
) -> Result<Vec<u8>>
    requires accepted { pack_fault object.now ≡ None }
    requires count { length numbers.now ≡ length (names object.now) }
    requires different { AreDistinct numbers.now }
    requires symbols { All (λ n. 16 ≤ n) numbers.now }
{
    let package = pack(alloc, object, request.component, request.version, numbers)?;
    Ok(write_package(alloc, &package)?)
}

// The package of an object, where the file of names has this text.
fn package_of<'a>(
    alloc: Global,
    object: &'a ObjectView<'a>,
    text: &'a [u8],
    request: &Request<'_>,
) -> Result<Packed> {
    let names = names_in(alloc, object, request.object)?;
    let mut numbering = Numbering::of(alloc, text)?;
    let numbers = numbers_for(alloc, &mut numbering, &names)?;
    Ok(Packed {
        package: package_bytes(alloc, object, request, &numbers)?,
        lines: numbering.added_lines(alloc)?,
    })
}

/// Writes the package of an object to standard output, and the names that it adds to the file of names.
/// Where the object has a fault, the error has the fault's number and words, and neither is written.
pub(crate) fn write(rt: &HostRuntime, request: &Request<'_>) -> Result<ExitCode> {
    let file = fs::read(rt, request.object)?;
    let path = request.object;
    ensure!(
        file.len() <= MAX_FILE,
        "{path}: an object has at most {MAX_FILE} bytes"
    );
    let object = match read_object(&file) {
        Ok(object) => object,
        Err(fault) => {
            let words = elf_words(rt.alloc(), fault)?;
            bail!("{path}: {words}")
        }
    };
    let text = read_names(rt, request.names)?;
    let packed = package_of(rt.alloc(), &object, &text, request)?;
    append_names(rt, request.names, &text, &packed.lines)?;
    rt.stdout().write_all(&packed.package)?;
    Ok(ExitCode::SUCCESS)
}
