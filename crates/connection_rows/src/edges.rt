//! What no clause says: that the ends have the memory that they ask for, and each call on its happy path and as its plan fails it.
use http_edges::{MemorySink, MemorySource, Sink, Source, write_all};
use std::alloc::Global;
use std::test::Fail;

// What a source holds.
const HELLO: &[u8; 5] = b"hello";

// How much a source gives at most, how much each read asks for, which read fails, 0 for none, and how much each gives, none where it fails.
type Plan = (usize, usize, u32, [Option<usize>; 5]);

const PLANS: [Plan; 6] = [
    (5, 8, 0, [Some(5), Some(0), Some(0), Some(0), Some(0)]),
    (9, 3, 0, [Some(3), Some(2), Some(0), Some(0), Some(0)]),
    (1, 8, 0, [Some(1), Some(1), Some(1), Some(1), Some(1)]),
    (2, 8, 1, [None, Some(2), Some(2), Some(1), Some(0)]),
    (4, 8, 3, [Some(4), Some(1), None, Some(0), Some(0)]),
    (4, 0, 0, [Some(0), Some(0), Some(0), Some(0), Some(0)]),
];

// Pieces, and how much of each is written, none where the write fails.
const WRITES: [(&[u8], Option<usize>); 4] = [
    (b"ab", Some(2)),
    (b"lost", None),
    (b"", Some(0)),
    (b"cdefg", None),
];

// Pieces that are written in as many calls as it takes, and whether all of each is written.
const WHOLE: [(&[u8], bool); 3] = [(b"cdef", true), (b"", true), (b"g", false)];

// Whether a read gives so much of what is left, or fails where the count is none.
fn gives(source: &mut MemorySource, size: usize, left: &[u8], count: Option<usize>) -> bool {
    let mut buffer = [0; 8];
    let answer = source.read(&mut buffer[..size.min(8)]);
    if answer.ok() != count {
        return false;
    }
    let given = count.unwrap_or(0).min(8);
    let got = &buffer[..given];
    got == &left[..given.min(left.len())]
}

// Whether all reads give so much, one after another.
fn all_give(source: &mut MemorySource, size: usize, counts: &[Option<usize>]) -> bool {
    let mut at: usize = 0;
    for count in counts {
        if !gives(source, size, &HELLO[at.min(5)..], *count) {
            return false;
        }
        at = at.saturating_add(count.unwrap_or(0));
    }
    true
}

// Whether a source goes by its plan.
fn goes(alloc: Global, plan: &Plan) -> Result<bool, Fail> {
    let (chunk, size, fail, counts) = plan;
    if *chunk == 0 {
        return Ok(false);
    }
    let fail = [*fail].to_vec(alloc)?;
    let mut source = MemorySource::new(HELLO.to_vec(alloc)?, *chunk, fail);
    Ok(all_give(&mut source, *size, counts))
}

// The first plan that a source doesn't go by.
fn first_wrong_plan(alloc: Global, plans: &[Plan]) -> Result<Option<usize>, Fail> {
    for (i, plan) in plans.iter().enumerate() {
        if !goes(alloc, plan)? {
            return Ok(Some(i));
        }
    }
    Ok(None)
}

// The first write that goes otherwise.
fn first_wrong_write(sink: &mut MemorySink, rows: &[(&[u8], Option<usize>)]) -> Option<usize> {
    for (i, (piece, count)) in rows.iter().enumerate() {
        if sink.write(piece).ok() != *count {
            return Some(i);
        }
    }
    None
}

// The first write of a whole piece that goes otherwise.
fn first_wrong_whole(sink: &mut MemorySink, rows: &[(&[u8], bool)]) -> Option<usize> {
    for (i, (piece, goes)) in rows.iter().enumerate() {
        if write_all(sink, piece).is_ok() != *goes {
            return Some(i);
        }
    }
    None
}

#[test]
fn reads_come_as_planned(rt: HostRuntime) -> Result<(), Fail> {
    assert_eq!(rt; first_wrong_plan(rt.alloc(), &PLANS)?, None);
    Ok(())
}

#[test]
fn writes_go_as_planned(rt: HostRuntime) -> Result<(), Fail> {
    let mut sink = MemorySink::new(rt.alloc(), 6, [2].to_vec(rt.alloc())?)?;
    assert_eq!(rt; first_wrong_write(&mut sink, &WRITES), None);
    assert_eq!(rt; first_wrong_whole(&mut sink, &WHOLE), None);
    assert_eq!(rt; sink.bytes(), b"abcdef".as_slice());
    Ok(())
}
