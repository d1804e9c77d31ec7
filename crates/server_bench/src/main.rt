//! Measures how many requests a release server answers in a second, over rows in memory with few releases and with many.
//!
//! It keeps one component and makes releases of it for one mote. At 100 releases and at 10,000 it makes some more, and asks each time
//! for the update from the release before the last. It prints what was answered. With the argument `--time` it also prints, to standard
//! error, how many releases and how many updates were answered in a second.
#![tactic(auto)]

use anyhow::{Result, bail};
use http_edges::{MemorySink, MemorySource};
use http_releases::{Served, serve_connection};
use release_keeper::MemoryKeeper;
use std::alloc::Global;
use std::env;
use std::time::Instant;

/// An object without code, as GNU's assembler could write it.
const OBJECT: &[u8] =
    b"\x7FELF\x01\x01\x01\x00\x00\x00\x00\x00\x00\x00\x00\x00\x01\x00S\x00\x01\x00\x00\x00\x00\x00\x00\x00\x00\x00\x00\x00@\x00\x00\x00\x05\x00\x00\x004\x00\x00\x00\x00\x00(\x00\x02\x00\x01\x00\x00.shstrtab\x00\x00\x00\x00\x00\x00\x00\x00\x00\x00\x00\x00\x00\x00\x00\x00\x00\x00\x00\x00\x00\x00\x00\x00\x00\x00\x00\x00\x00\x00\x00\x00\x00\x00\x00\x00\x00\x00\x00\x00\x00\x00\x01\x00\x00\x00\x03\x00\x00\x00\x00\x00\x00\x00\x00\x00\x00\x004\x00\x00\x00\x0B\x00\x00\x00\x00\x00\x00\x00\x00\x00\x00\x00\x01\x00\x00\x00\x00\x00\x00\x00";
/// How many releases there are when the requests are counted.
const SIZES: [u32; 2] = [100, 10_000];
/// How many releases, and how many updates, are asked for.
const TIMES: u32 = 100;

/// Sends one request and answers the reply's length in bytes.
fn ask(alloc: Global, keeper: &mut MemoryKeeper, request: &[u8], wanted: u16) -> Result<usize> {
    let input = request.to_vec(alloc)?;
    let mut source = MemorySource::new(input, 8192, Vec::new(alloc));
    let mut sink = MemorySink::new(alloc, 4096, Vec::new(alloc))?;
    let served = serve_connection(alloc, &mut source, &mut sink, keeper);
    if served != Served::Done(wanted) {
        bail!("a request was answered by {served:?}");
    }
    Ok(sink.bytes().len())
}

/// Keeps the object as the component's first version.
fn add_component(alloc: Global, keeper: &mut MemoryKeeper) -> Result<usize> {
    let mut request = format!(in alloc;
        "POST /components/bare/versions HTTP/1.1\r\nRequest-Key: object\r\nContent-Length: {}\r\n\r\n",
        OBJECT.len()
    )?
    .into_bytes();
    request.extend_from_slice(OBJECT)?;
    ask(alloc, keeper, &request, 201)
}

/// Makes this release, whose number is its key.
fn add_release(alloc: Global, keeper: &mut MemoryKeeper, number: u32) -> Result<usize> {
    let request = format!(in alloc;
        "POST /motes/m/releases HTTP/1.1\r\nRequest-Key: release-{number}\r\nContent-Length: 12\r\n\r\n[[\"bare\",1]]"
    )?;
    ask(alloc, keeper, request.as_bytes(), 201)
}

/// Asks for the update from this release.
fn update(alloc: Global, keeper: &mut MemoryKeeper, have: u32) -> Result<usize> {
    let request = format!(in alloc; "GET /motes/m/update?have={have} HTTP/1.1\r\n\r\n")?;
    ask(alloc, keeper, request.as_bytes(), 200)
}

/// Makes releases from the first number up to the second, which isn't made, and answers the last reply's length.
fn add_releases(alloc: Global, keeper: &mut MemoryKeeper, first: u32, end: u32) -> Result<usize> {
    let mut length = 0;
    for number in first..end {
        length = add_release(alloc, keeper, number)?;
    }
    Ok(length)
}

/// Asks for the same update again and again, and answers the reply's length.
fn updates(alloc: Global, keeper: &mut MemoryKeeper, have: u32) -> Result<usize> {
    let mut length = 0;
    for _ in 0..TIMES {
        length = update(alloc, keeper, have)?;
    }
    Ok(length)
}

/// Makes releases up to this many, then some that are timed, and times updates. The first number is that of the next release; it answers
/// the next one's.
fn measure(
    rt: &HostRuntime,
    keeper: &mut MemoryKeeper,
    first: u32,
    size: u32,
    timed: bool,
) -> Result<u32> {
    let begin = size.saturating_add(1);
    let end = begin.saturating_add(TIMES);
    add_releases(rt.alloc(), keeper, first, begin)?;
    let start = Instant::now(rt)?;
    let release = add_releases(rt.alloc(), keeper, begin, end)?;
    let made = start.elapsed(rt)?.as_secs_f64();
    let start = Instant::now(rt)?;
    let update = updates(rt.alloc(), keeper, size)?;
    let asked = start.elapsed(rt)?.as_secs_f64();
    println!(rt;
        "at {size} releases: a release is answered in {release} bytes, an update in {update}"
    )?;
    if timed {
        print_rates(rt, size, made, asked)?;
    }
    Ok(end)
}

fn print_rates(rt: &HostRuntime, size: u32, made: f64, asked: f64) -> Result<()> {
    eprintln!(rt;
        "at {size} releases: {:.0} releases and {:.0} updates a second",
        TIMES as f64 / made,
        TIMES as f64 / asked
    )?;
    Ok(())
}

fn main(rt: HostRuntime) -> Result<()> {
    let timed = env::args(&rt)?.any(|word| word.as_str() == "--time");
    let mut keeper = MemoryKeeper::new(rt.alloc(), Vec::new(rt.alloc()));
    add_component(rt.alloc(), &mut keeper)?;
    let next = measure(&rt, &mut keeper, 1, SIZES[0], timed)?;
    measure(&rt, &mut keeper, next, SIZES[1], timed)?;
    Ok(())
}
