//! Measures how many pages a mote reads and how long it takes to make an image on pages, beside the plain linker on the same set.
//!
//! For each set at the limits it prints what each step read, and compares the staged image with the linker's. With the argument `--time` it
//! also prints, to standard error, how long each step and the linker took.
#![tactic(auto)]

ghost use Rattle.std.specs.Prelude.{◌<◌};
ghost use Rattle.component_store.specs.Sets.{IsSet};
ghost use Rattle.symbol_merge.specs.Stored.{IsPlanOf};

mod sets;
mod steps;

use anyhow::{Result, bail, ensure};
use component_package::Bytes;
use component_package::areas::{IMAGE_PAGES, RELOCATION_PAGES, STAGED, SYMBOL_PAGES};
use component_store::StoredSet;
use counting_board::CountingBoard;
use full_linker::{link, may_be_linked};
use layout_plan::Plan;
use sets::{COMPONENTS, SHAPES, Shape, package};
use std::alloc::Global;
use std::env;
use std::time::Instant;
use steps::{STEPS, Step, manifest_of, opened, planned, store, takes};

/// How often each step and the linker are timed.
const TIMES: u32 = 20;

/// Room for a program of each page of the slots and of the three areas.
const PROGRAMS: u32 = 2048;

fn packages(alloc: Global, shape: &Shape) -> Result<Vec<Bytes>> {
    let mut packages = Vec::new(alloc);
    for k in 0..COMPONENTS {
        packages.push(Bytes::of(package(alloc, shape, k)?))?;
    }
    Ok(packages)
}

/// The pages of the packages and of the three areas.
fn pages_of(packages: &[Bytes]) -> u32 {
    let mut pages = SYMBOL_PAGES as u32 + RELOCATION_PAGES as u32 + IMAGE_PAGES as u32;
    for package in packages {
        let own = package.as_slice().len().div_ceil(256).min(256) as u32;
        pages = pages.saturating_add(own);
    }
    pages
}

/// A board whose first slots hold the packages.
fn stored(alloc: Global, packages: &[Bytes]) -> Result<CountingBoard> {
    let Ok(mut board) = CountingBoard::new(alloc, PROGRAMS, 0) else {
        bail!("no memory for a board");
    };
    let mut slot = 0u8;
    for package in packages {
        ensure!(
            store(&mut board, slot, package.as_slice()),
            "a package has no room in its slot"
        );
        slot = slot.wrapping_add(1);
    }
    Ok(board)
}

/// Takes a step, or says that it fails.
fn take(board: &mut CountingBoard, set: &StoredSet, plan: &Plan, step: Step) -> Result<()>
    requires set { IsSet set.now }
    requires plan { IsPlanOf set.now plan.now }
{
    if takes(board, set, plan, step) {
        Ok(())
    } else {
        bail!("{} fails", step.name())
    }
}

/// Takes each step once and prints what it read. It answers the reads of all steps together.
fn count_reads(
    rt: &HostRuntime,
    board: &mut CountingBoard,
    set: &StoredSet,
    plan: &Plan,
) -> Result<u32>
    requires set { IsSet set.now }
    requires plan { IsPlanOf set.now plan.now }
{
    let mut all = 0u32;
    for step in STEPS {
        board.forget();
        take(board, set, plan, step)?;
        let reads = board.reads();
        println!(rt; "  {}: {reads}", step.name())?;
        all = all.saturating_add(reads.total());
    }
    Ok(all)
}

/// Prints how many reads there were for each of these pages.
fn print_ratio(rt: &HostRuntime, reads: u32, pages: u32) -> Result<()> {
    let hundredths = (100 * reads as u64).checked_div(pages as u64).unwrap_or(0);
    let whole = hundredths / 100;
    let rest = hundredths % 100;
    println!(rt; "  all: {reads} reads of {pages} pages, {whole}.{rest:02} a page")?;
    Ok(())
}

/// The linker's image.
fn linked(alloc: Global, set: &[Bytes]) -> Result<Vec<u8>> {
    ensure!(may_be_linked(alloc, set)?, "the packages are no set");
    match link(alloc, set) {
        Ok(image) => Ok(image),
        Err(fault) => bail!("no image: {fault}"),
    }
}

/// A byte of the staged image.
fn staged_byte(board: &CountingBoard, at: u32) -> u8
    requires { at < 122880 }
{
    let page = board.ext_page(STAGED + (at / 256) as u16);
    page[(at % 256) as usize]
}

/// Whether the staged image is this one, with 0xFF behind it.
fn is_staged(board: &CountingBoard, image: &[u8]) -> bool {
    for at in 0..122_880u32 {
        let want = image.get(at as usize).copied().unwrap_or(0xFF);
        if staged_byte(board, at) != want {
            return false;
        }
    }
    true
}

/// Compares the staged image with the linker's.
fn compare(rt: &HostRuntime, board: &CountingBoard, packages: &[Bytes]) -> Result<()> {
    let image = linked(rt.alloc(), packages)?;
    ensure!(
        is_staged(board, &image),
        "the staged image isn't the linker's"
    );
    println!(rt; "  the image: {} bytes, as the linker's", image.len())?;
    Ok(())
}

/// How long a step takes, in seconds.
fn time_step(
    rt: &HostRuntime,
    board: &mut CountingBoard,
    set: &StoredSet,
    plan: &Plan,
    step: Step,
) -> Result<f64>
    requires set { IsSet set.now }
    requires plan { IsPlanOf set.now plan.now }
{
    let start = Instant::now(rt)?;
    for _ in 0..TIMES {
        take(board, set, plan, step)?;
    }
    let seconds = start.elapsed(rt)?.as_secs_f64() / TIMES as f64;
    Ok(seconds)
}

/// How long the linker takes, in seconds.
fn time_link(rt: &HostRuntime, packages: &[Bytes]) -> Result<f64> {
    ensure!(
        may_be_linked(rt.alloc(), packages)?,
        "the packages are no set"
    );
    let start = Instant::now(rt)?;
    for _ in 0..TIMES {
        ensure!(link(rt.alloc(), packages).is_ok(), "no image");
    }
    let seconds = start.elapsed(rt)?.as_secs_f64() / TIMES as f64;
    Ok(seconds)
}

/// Prints to standard error how long each step and the linker take.
fn print_times(
    rt: &HostRuntime,
    board: &mut CountingBoard,
    set: &StoredSet,
    plan: &Plan,
    packages: &[Bytes],
) -> Result<()>
    requires set { IsSet set.now }
    requires plan { IsPlanOf set.now plan.now }
{
    let mut all = 0.0;
    for step in STEPS {
        let seconds = time_step(rt, board, set, plan, step)?;
        eprintln!(rt; "  {}: {:.0} microseconds", step.name(), seconds * 1e6)?;
        all += seconds;
    }
    let link = time_link(rt, packages)?;
    eprintln!(rt; "  link: {:.0} microseconds", link * 1e6)?;
    eprintln!(rt; "  all steps: {:.1} times the linker's", all / link)?;
    Ok(())
}

/// Makes the image of the packages that the board's slots hold, and measures that.
fn make_image(
    rt: &HostRuntime,
    board: &mut CountingBoard,
    manifest: &[u8],
    packages: &[Bytes],
    timed: bool,
) -> Result<()> {
    let Some(set) = opened(board, manifest) else {
        bail!("the slots hold no set");
    };
    let Some(plan) = planned(&set) else {
        bail!("the set has no room");
    };
    let reads = count_reads(rt, board, &set, &plan)?;
    print_ratio(rt, reads, pages_of(packages))?;
    compare(rt, board, packages)?;
    if timed {
        print_times(rt, board, &set, &plan, packages)?;
    }
    Ok(())
}

fn measure(rt: &HostRuntime, shape: &Shape, timed: bool) -> Result<()> {
    println!(rt; "{}:", shape.name)?;
    let packages = packages(rt.alloc(), shape)?;
    let mut board = stored(rt.alloc(), &packages)?;
    let manifest = manifest_of(rt.alloc(), &packages)?;
    make_image(rt, &mut board, &manifest, &packages, timed)
}

fn main(rt: HostRuntime) -> Result<()> {
    let timed = env::args(&rt)?.any(|word| word.as_str() == "--time");
    for shape in SHAPES {
        measure(&rt, &shape, timed)?;
    }
    Ok(())
}
