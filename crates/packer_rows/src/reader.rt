//! What is read of the object, and the first fault of its neighbours.

use crate::objects::{Edits, edited, sender};
use avr_elf::constants::MAX_FILE;
use avr_elf::{ElfFault, Rela, read_object};
use std::alloc::{AllocError, Global};
use std::test::Fail;

fn fault_of(file: &[u8]) -> Option<ElfFault> {
    if file.len() > MAX_FILE {
        return None;
    }
    read_object(file).err()
}

// The object with bytes written over its own, and its first fault.
type Case = (Edits, Option<ElfFault>);

#[test]
fn reads_an_object(rt: HostRuntime) -> Result<(), Fail> {
    let file = sender(rt.alloc())?;
    assert_eq!(rt; file.len(), 962);
    let o = read_object(&file).map_err(|_| "a fault")?;
    assert_eq!(rt; o.section_count(), 13);
    assert_eq!(rt; o.symbol_count(), 8);

    let send = o.section(4);
    assert_eq!(rt; send.name, b".text.send".as_slice());
    assert_eq!(rt;
        (send.kind, send.flags, send.size, send.align),
        (1, 6, 12, 1)
    );
    assert_eq!(rt;
        send.bytes,
        b"\x80\xE0\x90\xE0\x0E\x94\0\0\0\xC0\x08\x95".as_slice()
    );
    let bss = o.section(3);
    assert_eq!(rt; bss.name, b".bss".as_slice());
    assert_eq!(rt; (bss.kind, bss.size, bss.bytes.len()), (8, 2, 0));
    assert_eq!(rt; o.section(0).name.len(), 0);

    let count = o.symbol(4);
    assert_eq!(rt; count.name, b"count".as_slice());
    assert_eq!(rt; (count.value, count.size), (0, 2));
    assert_eq!(rt; (count.binding, count.kind, count.section), (1, 1, 3));
    assert_eq!(rt; o.symbol(7).name, b"__do_clear_bss".as_slice());

    assert_eq!(rt; o.rela_count(4), 4);
    assert_eq!(rt;
        o.rela(4, 0),
        Rela {
            offset: 0,
            symbol: 1,
            kind: 6,
            addend: 1
        }
    );
    assert_eq!(rt;
        o.rela(4, 2),
        Rela {
            offset: 4,
            symbol: 5,
            kind: 18,
            addend: 0
        }
    );
    let relas = o.relas(4);
    assert_eq!(rt; relas.len(), 4);
    assert!(rt; !relas.is_empty());
    assert_eq!(rt;
        relas.get(3),
        Rela {
            offset: 8,
            symbol: 2,
            kind: 3,
            addend: 0
        }
    );
    // Debug sections are not allocated, so their relocations are none.
    assert_eq!(rt; o.rela_count(8), 0);
    assert!(rt; o.relas(6).is_empty());
    Ok(())
}

#[test]
fn reads_a_negative_addend(rt: HostRuntime) -> Result<(), Fail> {
    let file = sender(rt.alloc())?;
    let file = edited(rt.alloc(), &file, &[(75, &[0xFE, 0xFF, 0xFF, 0xFF])])?;
    assert!(rt; file.len() <= MAX_FILE);
    let o = read_object(&file).map_err(|_| "a fault")?;
    assert!(rt; o.section_count() > 4);
    assert!(rt; o.rela_count(4) > 0);
    assert_eq!(rt; o.rela(4, 0).addend, -2);
    Ok(())
}

/// The object with bytes written over its own, and the first fault.
///
/// Section headers begin at 442 and have 40 bytes: section 4 at 602, 5 at 642, 8 at 762, 10 at 842. Symbols begin at 140, relocations of
/// `.text.send` at 67.
const FAULTS: [Case; 73] = [
    // The identification, by its first byte that differs.
    (&[(4, &[2])], Some(ElfFault::NotElf(4))),
    (&[(0, &[126])], Some(ElfFault::NotElf(0))),
    (&[(6, &[0])], Some(ElfFault::NotElf(6))),
    (&[(5, &[2]), (4, &[2])], Some(ElfFault::NotElf(4))),
    (&[(3, &[0]), (18, &[82])], Some(ElfFault::NotElf(3))),
    // Machine, architecture, file type.
    (&[(18, &[82])], Some(ElfFault::NotAvr(18))),
    (&[(19, &[1])], Some(ElfFault::NotAvr(18))),
    (&[(36, &[6])], Some(ElfFault::NotAvr(36))),
    (&[(36, &[178])], Some(ElfFault::NotAvr(36))),
    (&[(18, &[82]), (36, &[6])], Some(ElfFault::NotAvr(18))),
    (&[(16, &[2])], Some(ElfFault::NotRelocatable(16))),
    (&[(16, &[2]), (36, &[6])], Some(ElfFault::NotAvr(36))),
    (
        &[(16, &[2]), (46, &[41])],
        Some(ElfFault::NotRelocatable(16)),
    ),
    // The section table.
    (&[(46, &[41])], Some(ElfFault::SectionTable(46))),
    (&[(48, &[0])], Some(ElfFault::SectionTable(48))),
    (&[(46, &[39]), (48, &[0])], Some(ElfFault::SectionTable(46))),
    (&[(48, &[14])], Some(ElfFault::SectionTable(32))),
    (&[(32, &[255; 4])], Some(ElfFault::SectionTable(32))),
    (
        &[(32, &[255; 4]), (50, &[13])],
        Some(ElfFault::SectionTable(32)),
    ),
    (&[(49, &[255])], Some(ElfFault::SectionTable(32))),
    (&[(50, &[13])], Some(ElfFault::SectionTable(50))),
    (
        &[(50, &[13]), (618, &[255; 4])],
        Some(ElfFault::SectionTable(50)),
    ),
    // A section past the file, also where the sum would wrap, and an empty one.
    (&[(618, &[255; 4])], Some(ElfFault::SectionTable(602))),
    (&[(622, &[255; 4])], Some(ElfFault::SectionTable(602))),
    (
        &[(618, &[248, 255, 255, 255, 8, 0, 0, 0])],
        Some(ElfFault::SectionTable(602)),
    ),
    (&[(498, &[195, 3, 0, 0])], Some(ElfFault::SectionTable(482))),
    (&[(778, &[191, 3, 0, 0])], Some(ElfFault::SectionTable(762))),
    (
        &[(778, &[191, 3, 0, 0]), (606, &[9, 0, 0, 0])],
        Some(ElfFault::SectionTable(762)),
    ),
    // Sections that are not read.
    (&[(766, &[9, 0, 0, 0])], Some(ElfFault::Unsupported(762, 9))),
    (
        &[(766, &[17, 0, 0, 0])],
        Some(ElfFault::Unsupported(762, 17)),
    ),
    (
        &[(766, &[18, 0, 0, 0])],
        Some(ElfFault::Unsupported(762, 18)),
    ),
    (&[(606, &[7, 0, 0, 0])], Some(ElfFault::Unsupported(602, 7))),
    (&[(450, &[2, 0, 0, 0])], Some(ElfFault::Unsupported(442, 0))),
    (&[(850, &[2, 0, 0, 0])], Some(ElfFault::Unsupported(842, 2))),
    (
        &[(766, &[9, 0, 0, 0]), (50, &[4])],
        Some(ElfFault::Unsupported(762, 9)),
    ),
    // Names of sections.
    (&[(50, &[4])], Some(ElfFault::StringTable(602))),
    (&[(441, &[1])], Some(ElfFault::StringTable(922))),
    (&[(942, &[0; 4])], Some(ElfFault::StringTable(922))),
    (&[(762, &[122, 0, 0, 0])], Some(ElfFault::StringTable(762))),
    (
        &[(762, &[122, 0, 0, 0]), (722, &[255; 4])],
        Some(ElfFault::StringTable(722)),
    ),
    (
        &[(762, &[122, 0, 0, 0, 2, 0, 0, 0])],
        Some(ElfFault::StringTable(762)),
    ),
    // The symbol table: a second one before the link of the first, the link before its entries.
    (&[(766, &[2, 0, 0, 0])], Some(ElfFault::SymbolTable(842))),
    (&[(886, &[2, 0, 0, 0])], Some(ElfFault::SymbolTable(882))),
    (&[(866, &[13, 0, 0, 0])], Some(ElfFault::StringTable(842))),
    (&[(866, &[255; 4])], Some(ElfFault::StringTable(842))),
    (&[(866, &[4, 0, 0, 0])], Some(ElfFault::StringTable(842))),
    (&[(319, &[1])], Some(ElfFault::StringTable(842))),
    (
        &[(866, &[13, 0, 0, 0]), (878, &[15, 0, 0, 0])],
        Some(ElfFault::StringTable(842)),
    ),
    (&[(878, &[15, 0, 0, 0])], Some(ElfFault::SymbolTable(842))),
    (&[(862, &[127, 0, 0, 0])], Some(ElfFault::SymbolTable(842))),
    (&[(862, &[0; 4])], Some(ElfFault::SymbolTable(842))),
    // Symbols: name, binding, section, value.
    (&[(188, &[52, 0, 0, 0])], Some(ElfFault::SymbolTable(188))),
    (&[(200, &[50])], Some(ElfFault::SymbolTable(188))),
    (&[(202, &[13])], Some(ElfFault::SymbolTable(188))),
    (&[(202, &[255; 2])], Some(ElfFault::SymbolTable(188))),
    (&[(202, &[240, 255])], Some(ElfFault::SymbolTable(188))),
    (&[(192, &[13])], Some(ElfFault::SymbolTable(188))),
    (
        &[(192, &[13]), (184, &[51])],
        Some(ElfFault::SymbolTable(172)),
    ),
    (
        &[(266, &[13]), (670, &[13, 0, 0, 0])],
        Some(ElfFault::SymbolTable(252)),
    ),
    // Tables of relocations; the last is a second one for a section.
    (
        &[(670, &[13, 0, 0, 0])],
        Some(ElfFault::RelocationTable(642)),
    ),
    (
        &[(670, &[4, 0, 1, 0])],
        Some(ElfFault::RelocationTable(642)),
    ),
    (
        &[(666, &[11, 0, 0, 0])],
        Some(ElfFault::RelocationTable(642)),
    ),
    (
        &[(846, &[7, 0, 0, 0])],
        Some(ElfFault::RelocationTable(642)),
    ),
    (
        &[(678, &[11, 0, 0, 0])],
        Some(ElfFault::RelocationTable(642)),
    ),
    (
        &[(662, &[47, 0, 0, 0])],
        Some(ElfFault::RelocationTable(642)),
    ),
    (
        &[(670, &[3, 0, 0, 0])],
        Some(ElfFault::RelocationTable(642)),
    ),
    (
        &[(830, &[4, 0, 0, 0])],
        Some(ElfFault::RelocationTable(802)),
    ),
    // Relocations.
    (&[(67, &[12])], Some(ElfFault::RelocationTable(67))),
    (&[(72, &[8])], Some(ElfFault::SymbolIndex(67))),
    (&[(72, &[255; 3])], Some(ElfFault::SymbolIndex(67))),
    (
        &[(67, &[12]), (72, &[8])],
        Some(ElfFault::RelocationTable(67)),
    ),
    (&[(84, &[8]), (91, &[12])], Some(ElfFault::SymbolIndex(79))),
    (
        &[(103, &[255]), (830, &[13, 0, 0, 0])],
        Some(ElfFault::RelocationTable(103)),
    ),
];

// Whether the edited file has this fault.
fn has_fault(alloc: Global, file: &[u8], case: Case) -> Result<bool, AllocError> {
    let (edits, fault) = case;
    let bad = edited(alloc, file, edits)?;
    Ok(fault_of(&bad) == fault)
}

// The first of these cases that has another fault.
fn first_wrong(alloc: Global, file: &[u8], cases: &[Case]) -> Result<Option<usize>, AllocError> {
    for (i, case) in cases.iter().enumerate() {
        if !has_fault(alloc, file, *case)? {
            return Ok(Some(i));
        }
    }
    Ok(None)
}

#[test]
fn answers_the_first_fault(rt: HostRuntime) -> Result<(), Fail> {
    let file = sender(rt.alloc())?;
    assert_eq!(rt; first_wrong(rt.alloc(), &file, &FAULTS)?, None);
    Ok(())
}

/// What is just within the rules.
const FAULTLESS: [Case; 16] = [
    // Nothing changed; the architecture avr51; other flags of a section.
    (&[], None),
    (&[(36, &[51])], None),
    (&[(36, &[5])], None),
    (&[(610, &[246, 255])], None),
    // A section without bytes lies anywhere.
    (&[(578, &[255; 4])], None),
    // Names that begin at the last byte of their table.
    (&[(762, &[121, 0, 0, 0])], None),
    (&[(188, &[51, 0, 0, 0])], None),
    // Absolute and common symbols; a value at the end of its section; one in a section that is not allocated.
    (&[(202, &[241, 255])], None),
    (&[(202, &[242, 255])], None),
    (&[(192, &[12])], None),
    (&[(192, &[255]), (202, &[8])], None),
    // Of a table for a section that is not allocated nothing else is read, and there may be two.
    (
        &[(838, &[11, 0, 0, 0]), (822, &[13, 0, 0, 0, 0, 0, 0, 0])],
        None,
    ),
    (&[(670, &[8, 0, 0, 0])], None),
    // A relocation at the last byte; a type that is no relocation; a table without entries.
    (&[(67, &[11])], None),
    (&[(71, &[33])], None),
    (&[(662, &[0; 4])], None),
];

#[test]
fn reads_what_has_no_fault(rt: HostRuntime) -> Result<(), Fail> {
    let file = sender(rt.alloc())?;
    assert_eq!(rt; first_wrong(rt.alloc(), &file, &FAULTLESS)?, None);
    Ok(())
}

#[test]
fn answers_a_cut_file(rt: HostRuntime) -> Result<(), Fail> {
    let file = sender(rt.alloc())?;
    let cases = [
        (0, ElfFault::Short(0)),
        (51, ElfFault::Short(51)),
        (52, ElfFault::SectionTable(32)),
        (442, ElfFault::SectionTable(32)),
        (961, ElfFault::SectionTable(32)),
    ];
    for (n, fault) in cases {
        assert_eq!(rt;
            file.get(..n).and_then(|cut| fault_of(cut)),
            Some(fault),
            "{n}"
        );
    }
    Ok(())
}

#[test]
fn reads_an_object_without_symbols(rt: HostRuntime) -> Result<(), Fail> {
    let file = sender(rt.alloc())?;
    // The symbol table and both tables of relocations become notes.
    let file = edited(rt.alloc(), &file, &[(646, &[7]), (806, &[7]), (846, &[7])])?;
    assert!(rt; file.len() <= MAX_FILE);
    let o = read_object(&file).map_err(|_| "a fault")?;
    assert_eq!(rt; o.symbol_count(), 0);
    assert!(rt; o.section_count() > 4);
    assert_eq!(rt; o.rela_count(4), 0);
    Ok(())
}

#[test]
fn numbers_each_fault(rt: HostRuntime) -> Result<(), Fail> {
    let faults = [
        ElfFault::Short(0),
        ElfFault::NotElf(0),
        ElfFault::NotAvr(0),
        ElfFault::NotRelocatable(0),
        ElfFault::SectionTable(0),
        ElfFault::StringTable(0),
        ElfFault::SymbolTable(0),
        ElfFault::RelocationTable(0),
        ElfFault::SymbolIndex(0),
        ElfFault::Unsupported(0, 9),
    ];
    for (i, fault) in faults.iter().enumerate() {
        assert_eq!(rt; fault.number() as usize, i + 1);
    }
    let words = format!(in rt.alloc(); "{}", ElfFault::Unsupported(0, 9))?;
    assert_eq!(rt; words.as_str(), "a section of type 9 is not read");
    Ok(())
}
