//! Measures how many pages a mote of the second layout reads and how long it takes to make an image on pages, beside the plain linker on the same set.
//!
//! It prints two tables over sets at the limits. In the first all components come in over a mote that has none. In the second the set is installed,
//! and one component comes in anew: the code of the others is taken back from program flash. For each set it prints what each step read, and compares
//! the staged image with the linker's. With the argument `--time` it also prints, to standard error, how long each step and the linker took.
#![tactic(auto)]

ghost use Rattle.std.specs.Prelude.{◌<◌};
ghost use Rattle.kept_manifests.specs.Slots.{IsSlotManifest};
ghost use Rattle.kept_store.specs.Sets.{IsSet};
ghost use Rattle.kept_symbols.specs.Stored.{IsPlanOf};

mod board;
mod mote;
mod sets;
mod steps;

use anyhow::{Result, bail, ensure};
use board::BenchBoard;
use component_package::Bytes;
use component_package::areas::{IMAGE_PAGES, RELOCATION_PAGES, SYMBOL_PAGES};
use full_linker::{link, may_be_linked};
use kept_store::StoredSet;
use layout_plan::Plan;
use mote::{Releases, clear_areas, format, install, manifest_of, take_in};
use sets::{COMPONENTS, SHAPES, Shape, package};
use std::alloc::Global;
use std::env;
use std::time::Instant;
use steps::{STEPS, Step, opened, planned, takes};

/// How often each step and the linker are timed.
const TIMES: u32 = 20;

/// Room for the programs of two releases: inbox, tables, the three areas, and program flash.
const PROGRAMS: u32 = 8192;

/// The set's packages: component 0 in this version, the others in version 1.
fn packages(alloc: Global, shape: &Shape, version: u8) -> Result<Vec<Bytes>> {
    let mut packages = Vec::new(alloc);
    for k in 0..COMPONENTS {
        let version = if k == 0 { version } else { 1 };
        packages.push(Bytes::of(package(alloc, shape, k, version)?))?;
    }
    Ok(packages)
}

/// The pages of the packages and of the three areas.
fn pages_of(packages: &[Bytes]) -> u32 {
    let mut pages = SYMBOL_PAGES as u32 + RELOCATION_PAGES as u32 + IMAGE_PAGES as u32;
    for package in packages {
        let own = package.as_slice().len().div_ceil(256).min(256) as u32;
        pages = pages.saturating_add(own);
    }
    pages
}

/// A board on which nothing is installed.
fn formatted(alloc: Global) -> Result<BenchBoard> {
    let Ok(mut board) = BenchBoard::new(alloc, PROGRAMS) else {
        bail!("no memory for a board");
    };
    ensure!(format(&mut board), "the board can't be formatted");
    Ok(board)
}

/// Takes a step, or says that it fails.
fn take(board: &mut BenchBoard, set: &StoredSet, plan: &Plan, step: Step) -> Result<()>
    requires set { IsSet set.now }
    requires plan { IsPlanOf set.now plan.now }
{
    if takes(board, set, plan, step) {
        Ok(())
    } else {
        bail!("{} fails", step.name())
    }
}

/// Takes each step once and prints what it read. It answers the reads of all steps together.
fn count_reads(
    rt: &HostRuntime,
    board: &mut BenchBoard,
    set: &StoredSet,
    plan: &Plan,
) -> Result<u32>
    requires set { IsSet set.now }
    requires plan { IsPlanOf set.now plan.now }
{
    let mut all = 0u32;
    for step in STEPS {
        board.forget();
        take(board, set, plan, step)?;
        let reads = board.reads();
        println!(rt; "  {}: {reads}", step.name())?;
        all = all.saturating_add(reads.total());
    }
    Ok(all)
}

/// Prints how many reads there were for each of these pages.
fn print_ratio(rt: &HostRuntime, reads: u32, pages: u32) -> Result<()> {
    let hundredths = (100 * reads as u64).checked_div(pages as u64).unwrap_or(0);
    let whole = hundredths / 100;
    let rest = hundredths % 100;
    println!(rt;
        "  all behind the opening: {reads} reads of {pages} pages, {whole}.{rest:02} a page"
    )?;
    Ok(())
}

/// The linker's image.
fn linked(alloc: Global, set: &[Bytes]) -> Result<Vec<u8>> {
    ensure!(may_be_linked(alloc, set)?, "the packages are no set");
    match link(alloc, set) {
        Ok(image) => Ok(image),
        Err(fault) => bail!("no image: {fault}"),
    }
}

/// A byte of the staged image.
fn staged_byte(board: &BenchBoard, at: u32) -> u8
    requires { at < 122880 }
{
    let page = board.staged_page((at / 256) as u16);
    page[(at % 256) as usize]
}

/// Whether the staged image is this one, with 0xFF behind it.
fn is_staged(board: &BenchBoard, image: &[u8]) -> bool {
    for at in 0..122_880u32 {
        let want = image.get(at as usize).copied().unwrap_or(0xFF);
        if staged_byte(board, at) != want {
            return false;
        }
    }
    true
}

/// Compares the staged image with the linker's.
fn compare(rt: &HostRuntime, board: &BenchBoard, packages: &[Bytes]) -> Result<()> {
    let image = linked(rt.alloc(), packages)?;
    ensure!(
        is_staged(board, &image),
        "the staged image isn't the linker's"
    );
    println!(rt; "  the image: {} bytes, as the linker's", image.len())?;
    Ok(())
}

/// How long it takes to open the set, in seconds.
fn time_open(rt: &HostRuntime, board: &mut BenchBoard, releases: &Releases) -> Result<f64>
    requires current { IsSlotManifest releases.now.current }
    requires incoming { IsSlotManifest releases.now.incoming }
{
    let start = Instant::now(rt)?;
    for _ in 0..TIMES {
        ensure!(opened(board, releases).is_some(), "the mote holds no set");
    }
    let seconds = start.elapsed(rt)?.as_secs_f64() / TIMES as f64;
    Ok(seconds)
}

/// How long a step takes, in seconds.
fn time_step(
    rt: &HostRuntime,
    board: &mut BenchBoard,
    set: &StoredSet,
    plan: &Plan,
    step: Step,
) -> Result<f64>
    requires set { IsSet set.now }
    requires plan { IsPlanOf set.now plan.now }
{
    let start = Instant::now(rt)?;
    for _ in 0..TIMES {
        take(board, set, plan, step)?;
    }
    let seconds = start.elapsed(rt)?.as_secs_f64() / TIMES as f64;
    Ok(seconds)
}

/// How long the linker takes, in seconds.
fn time_link(rt: &HostRuntime, packages: &[Bytes]) -> Result<f64> {
    ensure!(
        may_be_linked(rt.alloc(), packages)?,
        "the packages are no set"
    );
    let start = Instant::now(rt)?;
    for _ in 0..TIMES {
        ensure!(link(rt.alloc(), packages).is_ok(), "no image");
    }
    let seconds = start.elapsed(rt)?.as_secs_f64() / TIMES as f64;
    Ok(seconds)
}

/// Prints to standard error how long it takes to open the set.
fn print_open_time(rt: &HostRuntime, board: &mut BenchBoard, releases: &Releases) -> Result<()>
    requires current { IsSlotManifest releases.now.current }
    requires incoming { IsSlotManifest releases.now.incoming }
{
    let seconds = time_open(rt, board, releases)?;
    eprintln!(rt;
        "  open_current and open_set: {:.0} microseconds",
        seconds * 1e6
    )?;
    Ok(())
}

/// Prints to standard error how long each step behind it and the linker take.
fn print_times(
    rt: &HostRuntime,
    board: &mut BenchBoard,
    set: &StoredSet,
    plan: &Plan,
    packages: &[Bytes],
) -> Result<()>
    requires set { IsSet set.now }
    requires plan { IsPlanOf set.now plan.now }
{
    let mut all = 0.0;
    for step in STEPS {
        let seconds = time_step(rt, board, set, plan, step)?;
        eprintln!(rt; "  {}: {:.0} microseconds", step.name(), seconds * 1e6)?;
        all += seconds;
    }
    let link = time_link(rt, packages)?;
    eprintln!(rt; "  link: {:.0} microseconds", link * 1e6)?;
    eprintln!(rt;
        "  all steps behind the opening: {:.1} times the linker's",
        all / link
    )?;
    Ok(())
}

/// Makes the image of a set that is opened, and measures that.
fn link_set(
    rt: &HostRuntime,
    board: &mut BenchBoard,
    set: &StoredSet,
    packages: &[Bytes],
    timed: bool,
) -> Result<()>
    requires { IsSet set.now }
{
    let Some(plan) = planned(set) else {
        bail!("the set has no room");
    };
    let reads = count_reads(rt, board, set, &plan)?;
    print_ratio(rt, reads, pages_of(packages))?;
    compare(rt, board, packages)?;
    if timed {
        print_times(rt, board, set, &plan, packages)?;
    }
    Ok(())
}

/// Opens the set that comes in, makes its image, and measures both.
fn make_image(
    rt: &HostRuntime,
    board: &mut BenchBoard,
    releases: &Releases,
    packages: &[Bytes],
    timed: bool,
) -> Result<()>
    requires current { IsSlotManifest releases.now.current }
    requires incoming { IsSlotManifest releases.now.incoming }
{
    board.forget();
    let Some(set) = opened(board, releases) else {
        bail!("the mote holds no set");
    };
    println!(rt; "  open_current and open_set: {}", board.reads())?;
    if timed {
        print_open_time(rt, board, releases)?;
    }
    link_set(rt, board, &set, packages, timed)
}

/// Takes in release 1, all of whose components are new, makes its image, and measures that.
fn measure_all(rt: &HostRuntime, shape: &Shape, timed: bool) -> Result<()> {
    println!(rt; "{}, all components new:", shape.name)?;
    let mut board = formatted(rt.alloc())?;
    let packages = packages(rt.alloc(), shape, 1)?;
    let manifest = manifest_of(rt.alloc(), 1, &packages)?;
    let Some(releases) = take_in(&mut board, &manifest, &packages) else {
        bail!("the release can't be taken in");
    };
    make_image(rt, &mut board, &releases, &packages, timed)
}

/// Makes the image of a set that is opened.
fn stage_set(board: &mut BenchBoard, set: &StoredSet) -> Result<()>
    requires { IsSet set.now }
{
    let Some(plan) = planned(set) else {
        bail!("the set has no room");
    };
    for step in STEPS {
        take(board, set, &plan, step)?;
    }
    Ok(())
}

/// A board on which release 1 of these packages is installed.
fn installed(alloc: Global, packages: &[Bytes]) -> Result<BenchBoard> {
    let mut board = formatted(alloc)?;
    let manifest = manifest_of(alloc, 1, packages)?;
    let Some(releases) = take_in(&mut board, &manifest, packages) else {
        bail!("the release can't be taken in");
    };
    let Some(set) = opened(&mut board, &releases) else {
        bail!("the mote holds no set");
    };
    stage_set(&mut board, &set)?;
    ensure!(install(&mut board, 1), "the release can't be installed");
    ensure!(clear_areas(&mut board), "the areas can't be cleared");
    Ok(board)
}

/// Takes in release 2, which has another version of one component of release 1, makes its image, and measures that.
fn measure_one(rt: &HostRuntime, shape: &Shape, timed: bool) -> Result<()> {
    println!(rt; "{}, one component new:", shape.name)?;
    let mut board = installed(rt.alloc(), &packages(rt.alloc(), shape, 1)?)?;
    let packages = packages(rt.alloc(), shape, 2)?;
    let manifest = manifest_of(rt.alloc(), 2, &packages)?;
    let Some(releases) = take_in(&mut board, &manifest, &packages) else {
        bail!("the release can't be taken in");
    };
    make_image(rt, &mut board, &releases, &packages, timed)
}

fn main(rt: HostRuntime) -> Result<()> {
    let timed = env::args(&rt)?.any(|word| word.as_str() == "--time");
    for shape in SHAPES {
        measure_all(&rt, &shape, timed)?;
    }
    for shape in SHAPES {
        measure_one(&rt, &shape, timed)?;
    }
    Ok(())
}
