//! Numbers of the ELF format that objects hold, as the System V ABI and the AVR ELF ABI give them.

/// The most bytes of an object: 1,048,576.
pub const MAX_FILE: usize = 1_048_576;

/// The bytes of the file header.
pub const FILE_HEADER_SIZE: usize = 52;
/// The bytes of a section header.
pub const SECTION_HEADER_SIZE: u32 = 40;
/// The bytes of a symbol.
pub const SYMBOL_SIZE: u32 = 16;
/// The bytes of a relocation with an addend.
pub const RELA_SIZE: u32 = 12;

/// Where the file header says the file's type, two bytes.
pub const FILE_TYPE_AT: u32 = 16;
/// Where it says the machine, two bytes.
pub const MACHINE_AT: u32 = 18;
/// Where it says where the section table is, four bytes.
pub const SECTION_TABLE_AT: u32 = 32;
/// Where it says the flags, whose low seven bits name the architecture, four bytes.
pub const FLAGS_AT: u32 = 36;
/// Where it says the size of a section header, two bytes.
pub const SECTION_HEADER_SIZE_AT: u32 = 46;
/// Where it says how many sections there are, two bytes.
pub const SECTION_COUNT_AT: u32 = 48;
/// Where it says which section holds the names of sections, two bytes.
pub const NAMES_INDEX_AT: u32 = 50;

/// The machine number of the AVR.
pub const AVR: u16 = 83;
/// The type of a relocatable file.
pub const RELOCATABLE: u16 = 1;
/// The architecture avr5, of the low seven bits of the file's flags.
pub const AVR5: u32 = 5;
/// The architecture avr51.
pub const AVR51: u32 = 51;

/// Section type: no section.
pub const NULL: u32 = 0;
/// Section type: bytes of the program.
pub const PROGBITS: u32 = 1;
/// Section type: the symbol table.
pub const SYMTAB: u32 = 2;
/// Section type: a string table.
pub const STRTAB: u32 = 3;
/// Section type: relocations with addends.
pub const RELA: u32 = 4;
/// Section type: room without bytes in the file.
pub const NOBITS: u32 = 8;
/// Section type: relocations without addends.
pub const REL: u32 = 9;
/// Section type: a group of sections.
pub const GROUP: u32 = 17;
/// Section type: section indexes of symbols that don't fit 16 bits.
pub const SYMTAB_SHNDX: u32 = 18;

/// Section flag: the section is in memory when the program runs.
pub const ALLOC: u32 = 2;
/// Section flag: the section holds instructions.
pub const EXECINSTR: u32 = 4;

/// Symbol binding: seen in its own object alone.
pub const LOCAL: u8 = 0;
/// Symbol binding: seen by all objects.
pub const GLOBAL: u8 = 1;
/// Symbol binding: global, and gives way to a definition that is not weak.
pub const WEAK: u8 = 2;

/// Section index of a symbol that is defined elsewhere.
pub const UNDEF: u16 = 0;
/// Section index of a symbol whose value is no address.
pub const ABS: u16 = 0xFFF1;
/// Section index of a symbol that the linker is to make room for.
pub const COMMON: u16 = 0xFFF2;
