//! Sets at their limits, what may be linked at all, and what is said of faults.

use crate::parts::{Field, NOTHING, Part, Symbol, fault, linked, package};
use avr_reloc::RangeFault;
use component_package::Bytes;
use full_linker::LinkFault::*;
use full_linker::{LinkFault, may_be_linked};
use std::alloc::{AllocError, Global};
use std::test::Fail;

fn part<'a>(code: &'a [u8], exports: &'a [Symbol], relocs: &'a [Field]) -> Part<'a> {
    Part {
        code,
        init: &[],
        bss: 0,
        exports,
        relocs,
    }
}

// A component of two bytes of data and so many of bss.
fn ram_part<'a>(code: &'a [u8], bss: u16) -> Part<'a> {
    Part {
        code,
        init: &[0, 0],
        bss,
        exports: &[],
        relocs: &[],
    }
}

// How many bytes a set has, or why it has no image.
fn size(alloc: Global, parts: &[Part<'_>]) -> Result<Result<usize, LinkFault>, Fail> {
    match linked(alloc, parts)? {
        Ok(image) => Ok(Ok(image.len())),
        Err(fault) => Ok(Err(fault)),
    }
}

// The size of sixteen components of this code, but for the fourth and the last.
fn size_of_sixteen<'a>(
    alloc: Global,
    code: Part<'a>,
    fourth: Part<'a>,
    last: Part<'a>,
) -> Result<Result<usize, LinkFault>, Fail> {
    let set = [
        code, code, code, fourth, code, code, code, code, code, code, code, code, code, code, code,
        last,
    ];
    size(alloc, &set)
}

// The sizes with the most code, with a word more, and with too much RAM besides, which flash comes before.
fn sizes_of_code(
    alloc: Global,
    code: &[u8],
    more_code: &[u8],
) -> Result<[Result<usize, LinkFault>; 3], Fail> {
    let most = part(code, &[], &[]);
    let more = part(more_code, &[], &[]);
    let more_ram = ram_part(code, 3584);
    Ok([
        size_of_sixteen(alloc, most, most, most)?,
        size_of_sixteen(alloc, most, more, most)?,
        size_of_sixteen(alloc, most, more, more_ram)?,
    ])
}

fn sizes_of_ram(alloc: Global) -> Result<[Result<usize, LinkFault>; 2], Fail> {
    Ok([
        size(alloc, &[ram_part(&[], 3582)])?,
        size(alloc, &[ram_part(&[], 3584)])?,
    ])
}

#[test]
fn most_code(rt: HostRuntime) -> Result<(), Fail> {
    let code = vec![in rt.alloc(); 0; 7680]?;
    let more_code = vec![in rt.alloc(); 0; 7682]?;
    assert_eq!(rt;
        sizes_of_code(rt.alloc(), &code, &more_code)?,
        [Ok(122_880), Err(Flash(122_882)), Err(Flash(122_884))]
    );
    Ok(())
}

#[test]
fn most_ram(rt: HostRuntime) -> Result<(), Fail> {
    assert_eq!(rt; sizes_of_ram(rt.alloc())?, [Ok(2), Err(Ram(3586))]);
    Ok(())
}

// So many weak symbols from 16 on.
fn symbols(alloc: Global, count: u16) -> Result<Vec<Symbol>, AllocError> {
    let mut symbols = Vec::new(alloc);
    for i in 0..count {
        symbols.push((i.wrapping_add(16), 0x83, i))?;
    }
    Ok(symbols)
}

// So many relocations, one a byte.
fn fields(alloc: Global, count: u16) -> Result<Vec<Field>, AllocError> {
    let mut fields = Vec::new(alloc);
    for i in 0..count {
        fields.push((i, 0, 26, 10, 5))?;
    }
    Ok(fields)
}

// What sets answer that have twice the most symbols, the same; that have one more; and that have too much RAM as well, which comes first.
fn beyond_symbols<'a>(
    alloc: Global,
    most: &'a [Symbol],
    more: &'a [Symbol],
) -> Result<[Option<LinkFault>; 3], Fail> {
    let most = part(&[], most, &[]);
    let more = part(&[], more, &[]);
    let more_ram = Part {
        bss: 3586,
        ..NOTHING
    };
    Ok([
        fault(alloc, &[most, most])?,
        fault(alloc, &[most, more])?,
        fault(alloc, &[more, more_ram])?,
    ])
}

#[test]
fn most_symbols(rt: HostRuntime) -> Result<(), Fail> {
    let most = symbols(rt.alloc(), 1024)?;
    let more = symbols(rt.alloc(), 1025)?;
    assert_eq!(rt;
        beyond_symbols(rt.alloc(), &most, &more)?,
        [None, Some(Symbols(1025)), Some(Ram(3586))]
    );
    Ok(())
}

// What a set answers with eight of one component, and these two behind them.
fn fault_of_ten<'a>(
    alloc: Global,
    many: Part<'a>,
    ninth: Part<'a>,
    tenth: Part<'a>,
) -> Result<Option<LinkFault>, Fail> {
    let set = [many, many, many, many, many, many, many, many, ninth, tenth];
    fault(alloc, &set)
}

// The same with the last one twice.
fn fault_of_eleven<'a>(
    alloc: Global,
    many: Part<'a>,
    ninth: Part<'a>,
    last: Part<'a>,
) -> Result<Option<LinkFault>, Fail> {
    let set = [
        many, many, many, many, many, many, many, many, ninth, last, last,
    ];
    fault(alloc, &set)
}

// What sets answer with eight times these relocations; with one more and these symbols; and with one more and a symbol that is exported
// twice.
fn beyond_relocations<'a>(
    alloc: Global,
    code: &'a [u8],
    fields: &'a [Field],
    symbols: &'a [Symbol],
) -> Result<[Option<LinkFault>; 3], Fail> {
    let many = part(code, &[], fields);
    let one = part(&[0, 0], &[], &[(0, 0, 26, 10, 5)]);
    let exports = part(&[], symbols, &[]);
    let strong = part(&[], &[(16, 3, 0)], &[]);
    Ok([
        fault(alloc, &[many; 8])?,
        fault_of_ten(alloc, many, one, exports)?,
        fault_of_eleven(alloc, many, one, strong)?,
    ])
}

#[test]
fn most_relocations(rt: HostRuntime) -> Result<(), Fail> {
    let code = vec![in rt.alloc(); 0; 1024]?;
    let most = fields(rt.alloc(), 1024)?;
    let more = symbols(rt.alloc(), 1025)?;
    assert_eq!(rt;
        beyond_relocations(rt.alloc(), &code, &most, &more)?,
        [None, Some(Symbols(1025)), Some(Relocations(8193))]
    );
    Ok(())
}

// So many packages of nothing, of components from 1 on.
fn empty_packages(alloc: Global, count: usize) -> Result<Vec<Bytes>, AllocError> {
    let mut set = Vec::new(alloc);
    for i in 0..count {
        set.push(package(alloc, i % 100 + 1, &NOTHING)?)?;
    }
    Ok(set)
}

fn empty_may_be_linked(alloc: Global, count: usize) -> Result<bool, AllocError> {
    let set = empty_packages(alloc, count)?;
    may_be_linked(alloc, &set)
}

// Whether components of nothing with these numbers may be linked.
fn numbered_may_be_linked(alloc: Global, numbers: &[usize]) -> Result<bool, AllocError> {
    let mut set = Vec::new(alloc);
    for number in numbers {
        set.push(package(alloc, *number, &NOTHING)?)?;
    }
    may_be_linked(alloc, &set)
}

// Whether a component with code of one byte may be linked.
fn odd_may_be_linked(alloc: Global) -> Result<bool, AllocError> {
    let odd = part(&[0], &[], &[]);
    let set = Vec::from_array(alloc, [package(alloc, 1, &odd)?])?;
    may_be_linked(alloc, &set)
}

#[test]
fn what_may_be_linked(rt: HostRuntime) -> Result<(), Fail> {
    assert!(rt; empty_may_be_linked(rt.alloc(), 16)?);
    assert!(rt; !empty_may_be_linked(rt.alloc(), 17)?, "seventeen packages");
    assert!(rt;
        !numbered_may_be_linked(rt.alloc(), &[7, 8, 7])?,
        "component 7 twice"
    );
    assert!(rt; !odd_may_be_linked(rt.alloc())?, "code of one byte");
    Ok(())
}

/// A fault, its number and its words.
type Spoken = (LinkFault, u8, &'static str);

const SPOKEN: [Spoken; 9] = [
    (Flash(122_882), 1, "code and data have 122882 bytes"),
    (Ram(3586), 2, "data and bss have 3586 bytes"),
    (Symbols(1025), 3, "there are 1025 symbols"),
    (Relocations(8193), 4, "there are 8193 relocations"),
    (
        Duplicate(16, 0, 2),
        5,
        "components 0 and 2 define symbol 16",
    ),
    (
        Undefined(1, 2, 17),
        6,
        "relocation 2 of component 1 refers to symbol 17, which is undefined",
    ),
    (
        Range(1, 2, RangeFault::Odd),
        7,
        "relocation 2 of component 1: the value is odd",
    ),
    (
        Range(3, 4, RangeFault::TooFar(-4100)),
        7,
        "relocation 4 of component 3: the field has no room for -4100",
    ),
    (Memory, 8, "there is no memory"),
];

fn spoken() -> &'static [Spoken] {
    &SPOKEN
}

fn is_spoken(alloc: Global, row: &Spoken) -> Result<bool, AllocError> {
    let (fault, number, words) = *row;
    let shown = format!(in alloc; "{fault}")?;
    Ok(fault.number() == number && shown.as_str() == words)
}

// The first of these faults with another number or other words.
fn first_misspoken(alloc: Global, rows: &[Spoken]) -> Result<Option<usize>, AllocError> {
    for (i, row) in rows.iter().enumerate() {
        if !is_spoken(alloc, row)? {
            return Ok(Some(i));
        }
    }
    Ok(None)
}

#[test]
fn fault_numbers_and_words(rt: HostRuntime) -> Result<(), Fail> {
    assert_eq!(rt; first_misspoken(rt.alloc(), spoken())?, None);
    Ok(())
}
