//! Objects that are refused, and why: each is the sender with a few bytes changed.

use crate::commands::{Ask, NEW_KEY, comes_to, command_of, does, version_command};
use crate::objects::{Edits, Object, bytes_of_object, edited};
use component_package::Bytes;
use release_keeper::MemoryKeeper;
use release_rows::{Command, Rows, RowsFault};
use std::alloc::Global;
use std::test::Fail;

/// A file: how many bytes of the sender it has, with zeros behind its 962 where there are more, and what is written over them. Then the
/// refusal's number and what goes with it.
type Row = (usize, Edits, &'static [i64]);

/// Files that are no objects. The offset of what is at fault goes with the number, and of a section that isn't read its type.
const NO_OBJECTS: [Row; 43] = [
    // Nothing, a header that is cut, a section table that is cut.
    (0, &[], &[101, 0]),
    (51, &[], &[101, 51]),
    (52, &[], &[105, 32]),
    (961, &[], &[105, 32]),
    // The identification, by its first byte that differs.
    (962, &[(0, &[0xEE])], &[102, 0]),
    (962, &[(1, &[0xEE])], &[102, 1]),
    (962, &[(2, &[0xEE])], &[102, 2]),
    (962, &[(3, &[0xEE])], &[102, 3]),
    (962, &[(4, &[0xEE])], &[102, 4]),
    (962, &[(5, &[0xEE])], &[102, 5]),
    (962, &[(6, &[0xEE])], &[102, 6]),
    (962, &[(6, &[0xEE]), (2, &[0xEE])], &[102, 2]),
    // Another processor, another architecture, an executable file.
    (962, &[(18, &[82, 0])], &[103, 18]),
    (962, &[(36, &[6, 0, 0, 0])], &[103, 36]),
    (962, &[(16, &[2, 0])], &[104, 16]),
    // Section headers of another size, none, far away; names in a section that is not there; sections beyond the file.
    (962, &[(46, &[41, 0])], &[105, 46]),
    (962, &[(48, &[0, 0])], &[105, 48]),
    (962, &[(32, &[0xF0, 0xFF, 0xFF, 0xFF])], &[105, 32]),
    (962, &[(50, &[13, 0])], &[105, 50]),
    (962, &[(618, &[0xFF; 4])], &[105, 602]),
    (962, &[(498, &[0xC3, 3, 0, 0])], &[105, 482]),
    // Names that are no string table, a name beyond them, symbols without names.
    (962, &[(926, &[1, 0, 0, 0])], &[106, 922]),
    (962, &[(602, &[0xFF, 0xFF, 0, 0])], &[106, 602]),
    (962, &[(866, &[13, 0, 0, 0])], &[106, 842]),
    // Symbols of another size, and a second table of them; a symbol's name, binding, section and value.
    (962, &[(878, &[12, 0, 0, 0])], &[107, 842]),
    (962, &[(886, &[2, 0, 0, 0])], &[107, 882]),
    (962, &[(156, &[0xFF, 0xFF, 0xFF, 0])], &[107, 156]),
    (962, &[(168, &[0x30])], &[107, 156]),
    (962, &[(170, &[0, 0xFF])], &[107, 156]),
    (962, &[(192, &[13])], &[107, 188]),
    // Relocations of a section that is not there, of another size, of a section that has some; two beyond their section.
    (962, &[(670, &[13, 0, 0, 0])], &[108, 642]),
    (962, &[(678, &[8, 0, 0, 0])], &[108, 642]),
    (962, &[(830, &[4, 0, 0, 0])], &[108, 802]),
    (962, &[(67, &[0xFF, 0xFF, 0, 0])], &[108, 67]),
    (962, &[(103, &[12])], &[108, 103]),
    // Relocations to symbols that are not there.
    (962, &[(72, &[0xFF; 3])], &[109, 67]),
    (962, &[(84, &[8])], &[109, 79]),
    // A section of another kind, a group, and the greatest type.
    (962, &[(606, &[9, 0, 0, 0])], &[110, 602, 9]),
    (962, &[(646, &[17, 0, 0, 0])], &[110, 642, 17]),
    (962, &[(606, &[0xFF; 4])], &[110, 602, 4_294_967_295]),
    // As long as a file may be: the first fault is told, and offsets go to the end.
    (262_144, &[(0, &[0])], &[102, 0]),
    (262_144, &[(32, &[0xF8, 0xFD, 3])], &[106, 262_104]),
    (262_144, &[(32, &[0xF9, 0xFD, 3])], &[105, 32]),
];

/// Objects that can't be packed. With the number go a section; a symbol; a section, an entry of its relocations and its type; or a size.
const NOT_PACKED: [Row; 23] = [
    // An alignment, a name, and a symbol's section that is not in memory.
    (962, &[(634, &[4])], &[201, 4]),
    (962, &[(514, &[4]), (634, &[4])], &[201, 1]),
    (962, &[(366, b"init.")], &[201, 6]),
    (962, &[(170, &[8])], &[201, 8]),
    // Symbols that the linker is to make room for.
    (962, &[(202, &[0xF2, 0xFF])], &[202, 3]),
    (962, &[(266, &[0xF2, 0xFF])], &[202, 7]),
    // Types above 32.
    (962, &[(71, &[33])], &[203, 4, 0, 33]),
    (962, &[(107, &[255])], &[203, 4, 3, 255]),
    // Addends without room in 16 bits.
    (962, &[(75, &[0xFC, 0x7F])], &[204, 4, 0]),
    (962, &[(99, &[0, 0x80])], &[204, 4, 2]),
    // Fields beyond the section, at an odd offset, and over another one.
    (962, &[(67, &[11])], &[205, 4, 0]),
    (962, &[(103, &[9])], &[205, 4, 3]),
    (962, &[(79, &[0])], &[205, 4, 1]),
    // RAM of 65,536 bytes, a package of 9,986, and code of 65,536.
    (962, &[(582, &[0xFF, 0xFF])], &[206, 65_536]),
    (
        10_962,
        &[(698, &[0xC2, 3]), (702, &[0xA1, 0x26])],
        &[206, 9_986],
    ),
    (
        66_498,
        &[(698, &[0xC2, 3]), (702, &[0xF3, 0xFF])],
        &[206, 65_536],
    ),
    // Values above 65,535 that are no addresses.
    (962, &[(202, &[0xF1, 0xFF]), (194, &[1])], &[207, 3]),
    (962, &[(218, &[0xF1, 0xFF]), (210, &[1])], &[207, 4]),
    // Names of the linker's and of an earlier symbol.
    (962, &[(269, b"__stack\0")], &[208, 3]),
    (962, &[(204, &[1])], &[208, 4]),
    (962, &[(266, &[4]), (252, &[1])], &[208, 7]),
    // Of two faults the earlier one is told, and of a file that is no object that fault.
    (962, &[(204, &[1]), (71, &[33])], &[208, 4]),
    (962, &[(204, &[1]), (84, &[8])], &[109, 79]),
];

// How many symbols, components and versions of the first there are, and of the new key.
fn counts(keeper: &mut MemoryKeeper) -> Result<[u32; 4], RowsFault> {
    let symbols = keeper.symbol_count()?;
    let components = keeper.component_count()?;
    let versions = keeper.version_count(1)?;
    let key = keeper.key_row(NEW_KEY)?;
    Ok([symbols, components, versions, key.is_some() as u32])
}

// Whether the sender is refused with these bytes, nothing is changed by it, and the good command is then accepted under the same key.
fn is_refused(
    alloc: Global,
    keeper: &mut MemoryKeeper,
    object: Vec<u8>,
    wanted: &[i64],
    good: &Command,
) -> Result<bool, RowsFault> {
    let before = counts(keeper)?;
    let hostile = version_command(alloc, "sender", Bytes::of(object))?;
    if !comes_to(alloc, keeper, &hostile, wanted)? || counts(keeper)? != before {
        return Ok(false);
    }
    comes_to(alloc, keeper, good, &[201])
}

// The first of these rows that comes to something else.
fn first_wrong(
    alloc: Global,
    keeper: &mut MemoryKeeper,
    object: &[u8],
    rows: &[Row],
    good: &Command,
) -> Result<Option<usize>, RowsFault> {
    for (i, (length, edits, wanted)) in rows.iter().enumerate() {
        let hostile = edited(alloc, object, *length, edits)?;
        if !is_refused(alloc, keeper, hostile, wanted, good)? {
            return Ok(Some(i));
        }
    }
    Ok(None)
}

// The first of these rows that comes to something else over the keeper's tables.
fn first_wrong_of(
    alloc: Global,
    keeper: &mut MemoryKeeper,
    rows: &[Row],
) -> Result<Option<usize>, RowsFault> {
    let good = command_of(alloc, Ask::Version("sender", Object::Sender))?;
    first_wrong(alloc, keeper, bytes_of_object(Object::Sender), rows, &good)
}

fn keep_sender(alloc: Global, keeper: &mut MemoryKeeper) -> Result<bool, RowsFault> {
    let good = command_of(alloc, Ask::Version("sender", Object::Sender))?;
    does(alloc, keeper, "a", &good)
}

// Whether all of them come to what is wanted, over tables without a row and over those that have the sender.
fn all_come_to(alloc: Global, keeper: &mut MemoryKeeper, rows: &[Row]) -> Result<bool, RowsFault> {
    Ok(
        first_wrong_of(alloc, keeper, rows)?.is_none()
            && keep_sender(alloc, keeper)?
            && first_wrong_of(alloc, keeper, rows)?.is_none(),
    )
}

// A function for each table: a test that holds a keeper would carry all of it through its proof.

fn are_no_objects(alloc: Global, keeper: &mut MemoryKeeper) -> Result<bool, RowsFault> {
    all_come_to(alloc, keeper, &NO_OBJECTS)
}

fn are_not_packed(alloc: Global, keeper: &mut MemoryKeeper) -> Result<bool, RowsFault> {
    all_come_to(alloc, keeper, &NOT_PACKED)
}

#[test]
fn refuses_what_is_no_object(rt: HostRuntime) -> Result<(), Fail> {
    let mut keeper = MemoryKeeper::new(rt.alloc(), Vec::new(rt.alloc()));
    assert!(rt; are_no_objects(rt.alloc(), &mut keeper)?);
    Ok(())
}

#[test]
fn refuses_what_cannot_be_packed(rt: HostRuntime) -> Result<(), Fail> {
    let mut keeper = MemoryKeeper::new(rt.alloc(), Vec::new(rt.alloc()));
    assert!(rt; are_not_packed(rt.alloc(), &mut keeper)?);
    Ok(())
}
