//! The words that the program takes.

use clap::{Arg, Command, value_parser};
use std::alloc::{AllocError, Global};

const PATCH: &str = "Shows what relocations make of fields, a line for each on standard input.

A line is TYPE S_PLUS_A PLACE BYTES: the type's number (AVR ELF ABI), the value and the field's
address in decimal, and the bytes that the field has now in hex. For each, a line has the patched
bytes in hex, or 'odd', or 'too far N'.";

const OBJECT: &str = "Prints the sections, symbols and relocations of an AVR object file.

Where the object has a fault, one line says it, and the status is 1.";

const PACKAGE: &str = "Prints the parts, exports and relocations of a package.

Relocations are named as objdump -r names them. A package names symbols by number: symbol_16 is
the first that may be exported.";

const PACK: &str = "Writes the package of an AVR object file to standard output.

The file of names gives each symbol name its number: it has one name a line, the first has number 16,
the next 17, and so on. Names of the object that are not there are added at the end, and where there
is no such file it is made. Packages fit each other where they were packed with the same file of
names: keep it, and never take out or move a line.

Where the object has a fault, or can't be packed, standard error has the fault's number and words, the
status is 1, and the file of names stays as it was. docs/PACKING.md says what can be packed.";

const LINK: &str = "Links packages, in the order given, and writes the image to standard output.

All code stands first and then all data. Where the set has no image, standard error has the first
cause, and the status is 1.";

fn file<'a>(alloc: Global, help: &'a str) -> Arg<'a> {
    Arg::new(alloc, "FILE").help(help)
}

// A number of a component or a version.
fn number<'a>(alloc: Global, name: &'a str, help: &'a str) -> Arg<'a> {
    Arg::new(alloc, name)
        .help(help)
        .required(true)
        .value_parser(value_parser!(u16))
}

fn names<'a>(alloc: Global) -> Arg<'a> {
    Arg::new(alloc, "names")
        .long("names")
        .value_name("FILE")
        .help("The file of names; where there is none it is made")
        .required(true)
}

fn pack_words<'a>(alloc: Global) -> Result<Command<'a>, AllocError> {
    Command::new(alloc, "pack")
        .about("Writes the package of an object")
        .long_about(PACK)
        .arg(names(alloc))
}

// Adds the numbers that `pack` takes.
fn with_numbers<'a>(alloc: Global, pack: Command<'a>) -> Result<Command<'a>, AllocError> {
    pack.arg(number(alloc, "COMPONENT", "The component's number, 0 to 65535"))?
        .arg(number(alloc, "VERSION", "The component's version, 0 to 65535"))
}

fn with_object<'a>(alloc: Global, pack: Command<'a>) -> Result<Command<'a>, AllocError> {
    let object = Arg::new(alloc, "OBJECT")
        .help("The object, for avr5 or avr51")
        .required(true);
    pack.arg(object)
}

fn pack<'a>(alloc: Global) -> Result<Command<'a>, AllocError> {
    with_object(alloc, with_numbers(alloc, pack_words(alloc)?)?)
}

fn patch<'a>(alloc: Global) -> Command<'a> {
    Command::new(alloc, "patch")
        .about("Shows what relocations make of fields")
        .long_about(PATCH)
}

fn object<'a>(alloc: Global) -> Result<Command<'a>, AllocError> {
    Command::new(alloc, "object")
        .about("Prints what an object file has")
        .long_about(OBJECT)
        .arg(file(alloc, "The object; standard input where none is given"))
}

fn package<'a>(alloc: Global) -> Result<Command<'a>, AllocError> {
    Command::new(alloc, "package")
        .about("Prints what a package has")
        .long_about(PACKAGE)
        .arg(file(alloc, "The package; standard input where none is given"))
}

fn link<'a>(alloc: Global) -> Result<Command<'a>, AllocError> {
    let packages = file(alloc, "Packages of different components, at most 16")
        .required(true)
        .num_args(1..);
    Command::new(alloc, "link")
        .about("Writes the image of packages")
        .long_about(LINK)
        .arg(packages)
}

fn tool<'a>(alloc: Global) -> Command<'a> {
    Command::new(alloc, "flexcup_tool")
        .about("Looks at objects and packages, packs objects and links packages")
        .subcommand_required(true)
}

// Adds a subcommand, where there was memory for it.
fn join<'a>(
    tool: Command<'a>,
    made: Result<Command<'a>, AllocError>,
) -> Result<Command<'a>, AllocError> {
    tool.subcommand(made?)
}

// Adds the subcommands that show what files have.
fn with_shows<'a>(alloc: Global, tool: Command<'a>) -> Result<Command<'a>, AllocError> {
    join(join(tool, object(alloc))?, package(alloc))
}

// Adds the subcommands that write packages and images.
fn with_writes<'a>(alloc: Global, tool: Command<'a>) -> Result<Command<'a>, AllocError> {
    let pack = pack(alloc)?;
    join(tool.subcommand(pack)?, link(alloc))
}

fn with_patch<'a>(alloc: Global) -> Result<Command<'a>, AllocError> {
    tool(alloc).subcommand(patch(alloc))
}

/// The program's command line.
pub(crate) fn command<'a>(alloc: Global) -> Result<Command<'a>, AllocError> {
    with_writes(alloc, with_shows(alloc, with_patch(alloc)?)?)
}
