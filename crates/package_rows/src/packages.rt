//! Worked packages, every fault at its first and last place, and the greatest package.

ghost use Rattle.std.specs.Prelude.{IfOk};
ghost use Rattle.component_package.specs.packages.Grammar.{IsComponent};

use crate::changes::{Changes, change};
use avr_reloc::RelocType;
use component_package::PackageFault::*;
use component_package::{
    Bytes, Export, Exports, Header, Package, PackageFault, PackageView, Place, Reloc, Relocs,
    check_export, check_reloc, field_span, read_header, read_package, write_package,
};
use std::alloc::{AllocError, Global};
use std::test::Fail;

// A jump to itself behind a call of symbol 16.
const CALLER: [u8; 46] = [
    0x46, 0x43, 0x50, 0x31, 1, 0, 1, 0, 6, 0, 0, 0, 0, 0, 0, 0, 1, 0, 0, 0, 0, 0, 0, 0, 0, 0, 0, 0,
    0, 0, 0, 0, 0x0E, 0x94, 0, 0, 0xFF, 0xCF, 0, 0, 0, 0x12, 0x10, 0, 0, 0,
];

// A return that is symbol 16.
const CALLEE: [u8; 40] = [
    0x46, 0x43, 0x50, 0x31, 2, 0, 1, 0, 2, 0, 0, 0, 0, 0, 1, 0, 0, 0, 0, 0, 0, 0, 0, 0, 0, 0, 0, 0,
    0, 0, 0, 0, 0x08, 0x95, 0x10, 0, 0, 0, 0, 0,
];

// Code of 8 bytes at 32, data of 4 at 40, three exports at 44 and five relocations at 62.
const SAMPLE: [u8; 102] = [
    0x46, 0x43, 0x50, 0x31, 7, 0, 1, 0, 8, 0, 4, 0, 2, 0, 3, 0, 5, 0, 0, 0, 0, 0, 0, 0, 0, 0, 0, 0,
    0, 0, 0, 0, // code: two load instructions and a call
    0x80, 0xE0, 0x90, 0xE0, 0x0E, 0x94, 0, 0, // data: two addresses
    0, 0, 0, 0, // exports: 16 in code, 17 at the end of data, 18 weak at the end of bss
    16, 0, 0, 0, 0, 0, 17, 0, 1, 0, 4, 0, 18, 0, 0x82, 0, 2, 0,
    // relocations: both halves of the own data's address, symbol 20, the own code, symbol 21 weakly
    0, 0, 0, 6, 1, 0, 0, 0, 2, 0, 0, 7, 1, 0, 0, 0, 4, 0, 0, 18, 20, 0, 0, 0, 0, 0, 1, 4, 0, 0, 0,
    0, 2, 0, 0x81, 4, 21, 0, 0xFE, 0xFF,
];

// The call in CALLER.
const CALL: Reloc = Reloc {
    offset: 0,
    in_init: false,
    weak: false,
    kind: RelocType::Call,
    target: 16,
    addend: 0,
};

// The symbol of CALLEE.
const ENTRY: Export = Export {
    symbol: 16,
    place: Place::Code,
    weak: false,
    value: 0,
};

// The component of CALLER.
fn caller(alloc: Global) -> Result<Package, AllocError>
    ensures { IfOk result IsComponent }
{
    let code = Vec::from_array(alloc, [0x0E, 0x94, 0, 0, 0xFF, 0xCF])?;
    let relocs = Vec::from_array(alloc, [CALL])?;
    Ok(Package {
        component: 1,
        version: 1,
        code: Bytes::of(code),
        init: Bytes::of(Vec::new(alloc)),
        bss: 0,
        exports: Exports::of(Vec::new(alloc)),
        relocs: Relocs::of(relocs),
    })
}

// The component of CALLEE.
fn callee(alloc: Global) -> Result<Package, AllocError>
    ensures { IfOk result IsComponent }
{
    let code = Vec::from_array(alloc, [0x08, 0x95])?;
    let exports = Vec::from_array(alloc, [ENTRY])?;
    Ok(Package {
        component: 2,
        version: 1,
        code: Bytes::of(code),
        init: Bytes::of(Vec::new(alloc)),
        bss: 0,
        exports: Exports::of(exports),
        relocs: Relocs::of(Vec::new(alloc)),
    })
}

fn first_reloc(view: &PackageView<'_>) -> Option<Reloc> {
    if view.header().relocs == 0 {
        return None;
    }
    Some(view.reloc(0))
}

fn first_export(view: &PackageView<'_>) -> Option<Export> {
    if view.header().exports == 0 {
        return None;
    }
    Some(view.export(0))
}

fn caller_bytes() -> &'static [u8] {
    &CALLER
}

fn callee_bytes() -> &'static [u8] {
    &CALLEE
}

fn sample() -> &'static [u8] {
    &SAMPLE
}

#[test]
fn worked_packages(rt: HostRuntime) -> Result<(), Fail> {
    let view = read_package(caller_bytes()).ok().ok_or("a package")?;
    let header = Header {
        component: 1,
        version: 1,
        code: 6,
        init: 0,
        bss: 0,
        exports: 0,
        relocs: 1,
    };
    assert_eq!(rt; view.header(), header);
    assert_eq!(rt;
        view.code_bytes(),
        [0x0E, 0x94, 0, 0, 0xFF, 0xCF].as_slice()
    );
    assert_eq!(rt; view.init_bytes().len(), 0);
    assert_eq!(rt; first_reloc(&view), Some(CALL));
    let view = read_package(callee_bytes()).ok().ok_or("a package")?;
    assert_eq!(rt; first_export(&view), Some(ENTRY));
    Ok(())
}

#[test]
fn neighbours_of_a_worked_package(rt: HostRuntime) -> Result<(), Fail> {
    let mut spoiled = CALLER;
    spoiled[34] = 1;
    assert_eq!(rt; read_package(&spoiled).err(), Some(FieldNotZero(0)));
    assert_eq!(rt; read_package(&CALLER[..45]).err(), Some(Length));
    assert_eq!(rt; read_package(&CALLER[..31]).err(), Some(Short));
    Ok(())
}

fn caller_is_written(alloc: Global) -> Result<bool, Fail> {
    let package = caller(alloc)?;
    let bytes = write_package(alloc, &package)?;
    Ok(bytes.as_slice() == caller_bytes())
}

fn callee_is_written(alloc: Global) -> Result<bool, Fail> {
    let package = callee(alloc)?;
    let bytes = write_package(alloc, &package)?;
    Ok(bytes.as_slice() == callee_bytes())
}

#[test]
fn worked_packages_written(rt: HostRuntime) -> Result<(), Fail> {
    assert!(rt; caller_is_written(rt.alloc())?);
    assert!(rt; callee_is_written(rt.alloc())?);
    Ok(())
}

/// What is written over SAMPLE, and the fault that it has then.
type Row = (Changes, Option<PackageFault>);

const FAULTS: [Row; 42] = [
    (&[], None),
    // each fault, at its first and its last place
    (&[(0, 0)], Some(Magic)),
    (&[(3, 0x32)], Some(Magic)),
    (&[(18, 1)], Some(Reserved)),
    (&[(31, 0x80)], Some(Reserved)),
    (&[(8, 9)], Some(Parity)),
    (&[(12, 3)], Some(Parity)),
    (&[(8, 10)], Some(Length)),
    (&[(17, 1)], Some(Length)),
    (&[(44, 15)], Some(ExportOrder(0))),
    (&[(56, 17)], Some(ExportOrder(2))),
    (&[(46, 4)], Some(ExportPlace(0))),
    (&[(48, 9)], Some(ExportPlace(0))),
    (&[(59, 1)], Some(ExportPlace(2))),
    (&[(60, 3)], Some(ExportPlace(2))),
    (&[(65, 0)], Some(RelocKind(0))),
    (&[(97, 30)], Some(RelocKind(4))),
    (&[(64, 2)], Some(RelocPlace(0))),
    (&[(62, 1)], Some(RelocPlace(0))),
    (&[(94, 3)], Some(RelocPlace(4))),
    (&[(70, 0)], Some(RelocOrder(1))),
    (&[(94, 1)], Some(RelocOrder(4))),
    (&[(96, 0), (94, 6)], Some(RelocOrder(4))),
    (&[(66, 11)], Some(Target(0))),
    (&[(66, 15)], Some(Target(0))),
    (&[(98, 10)], Some(Target(4))),
    (&[(32, 0x81)], Some(FieldNotZero(0))),
    (&[(43, 1)], Some(FieldNotZero(4))),
    // what is just allowed
    (&[(48, 8)], None),
    (&[(66, 10)], None),
    (&[(96, 1), (98, 10)], None),
    // two faults, of which the first in order is answered
    (&[(0, 0), (18, 1)], Some(Magic)),
    (&[(31, 1), (8, 9)], Some(Reserved)),
    (&[(12, 3), (17, 1)], Some(Parity)),
    (&[(16, 6), (44, 15)], Some(Length)),
    (&[(44, 15), (46, 4)], Some(ExportOrder(0))),
    (&[(46, 4), (50, 15)], Some(ExportPlace(0))),
    (&[(59, 1), (65, 0)], Some(ExportPlace(2))),
    (&[(65, 0), (64, 2)], Some(RelocKind(0))),
    (&[(70, 1), (74, 11)], Some(RelocPlace(1))),
    (&[(70, 0), (74, 11)], Some(RelocOrder(1))),
    (&[(66, 11), (32, 0x81)], Some(Target(0))),
];

fn has_fault(alloc: Global, row: &Row) -> Result<bool, AllocError> {
    let (changes, want) = *row;
    let mut bytes = sample().to_vec(alloc)?;
    change(&mut bytes, changes);
    Ok(read_package(&bytes).err() == want)
}

// The first of these rows whose bytes have another fault.
fn first_other(alloc: Global, rows: &[Row]) -> Result<Option<usize>, AllocError> {
    for (i, row) in rows.iter().enumerate() {
        if !has_fault(alloc, row)? {
            return Ok(Some(i));
        }
    }
    Ok(None)
}

#[test]
fn faults_in_order(rt: HostRuntime) -> Result<(), Fail> {
    assert_eq!(rt; first_other(rt.alloc(), &FAULTS)?, None);
    Ok(())
}

/// How many bytes of SAMPLE and a zero are read, and the fault of so many.
const LENGTHS: [(usize, Option<PackageFault>); 6] = [
    (0, Some(Short)),
    (31, Some(Short)),
    (32, Some(Length)),
    (101, Some(Length)),
    (102, None),
    (103, Some(Length)),
];

// The first of these counts of bytes that have another fault, or aren't there.
fn first_other_length(bytes: &[u8], rows: &[(usize, Option<PackageFault>)]) -> Option<usize> {
    for (count, want) in rows {
        let Some(front) = bytes.get(..*count) else {
            return Some(*count);
        };
        if read_package(front).err() != *want {
            return Some(*count);
        }
    }
    None
}

#[test]
fn lengths(rt: HostRuntime) -> Result<(), Fail> {
    let mut longer = sample().to_vec(rt.alloc())?;
    longer.push(0)?;
    assert_eq!(rt; first_other_length(&longer, &LENGTHS), None);
    Ok(())
}

/// The length of code in the header, how many bytes there are, and what is wrong.
const GREATEST: [(u16, usize, Option<PackageFault>); 3] = [
    (9952, 9984, None),
    (9952, 9985, Some(Length)),
    (9954, 9986, Some(Length)),
];

// So many bytes, whose header says so much code and nothing else.
fn code_alone(alloc: Global, code: u16, count: usize) -> Result<Vec<u8>, AllocError> {
    let mut bytes = vec![in alloc; 0; count]?;
    let [low, high] = code.to_le_bytes();
    change(&mut bytes, &[(0, 0x46), (1, 0x43), (2, 0x50), (3, 0x31)]);
    change(&mut bytes, &[(8, low), (9, high)]);
    Ok(bytes)
}

// The first of these lengths that has another fault.
fn first_other_size(
    alloc: Global,
    rows: &[(u16, usize, Option<PackageFault>)],
) -> Result<Option<usize>, AllocError> {
    for (code, count, want) in rows {
        let bytes = code_alone(alloc, *code, *count)?;
        if read_package(&bytes).err() != *want {
            return Ok(Some(*count));
        }
    }
    Ok(None)
}

#[test]
fn greatest_package(rt: HostRuntime) -> Result<(), Fail> {
    assert_eq!(rt; first_other_size(rt.alloc(), &GREATEST)?, None);
    Ok(())
}

#[test]
fn piece_by_piece(rt: HostRuntime) -> Result<(), Fail> {
    let raw = [
        0x46, 0x43, 0x50, 0x31, 1, 0, 1, 0, 6, 0, 0, 0, 0, 0, 0, 0, 1, 0, 0, 0, 0, 0, 0, 0, 0, 0,
        0, 0, 0, 0, 0, 0,
    ];
    let header = read_header(&raw, 46).ok().ok_or("a header")?;
    assert_eq!(rt; read_header(&raw, 45), Err(Length));
    assert_eq!(rt; header.total(), 46);
    let call = [0, 0, 0, 0x12, 0x10, 0, 0, 0];
    assert_eq!(rt; field_span(&header, &call), Some((32, 4)));
    assert_eq!(rt; field_span(&header, &[4, 0, 0, 0x12, 0x10, 0, 0, 0]), None);
    assert!(rt; check_reloc(&header, None, 0, &call, &[0x0E, 0x94, 0, 0]).is_ok());
    assert_eq!(rt;
        check_reloc(&header, None, 9, &call, &[0x0F, 0x94, 0, 0]),
        Err(FieldNotZero(9))
    );
    assert!(rt; check_export(&header, Some(15), 0, &[16, 0, 0x80, 0, 6, 0]).is_ok());
    assert_eq!(rt;
        check_export(&header, Some(16), 1, &[16, 0, 0, 0, 0, 0]),
        Err(ExportOrder(1))
    );
    Ok(())
}
