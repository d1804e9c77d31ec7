//! What an update costs.

use crate::mote::{differing_pages, has_started, program_flash, session};
use crate::update::Update;
use anyhow::{Result, ensure};
use counting_board::{CountingBoard, Programs, Reads};
use std::alloc::Global;
use std::fmt;

/// What an update that was installed cost.
#[derive(Clone, Copy)]
pub(crate) struct Cost {
    release: u32,
    line_bytes: usize,
    package_bytes: usize,
    programs: Programs,
    /// The pages of program flash that the update changed.
    differing: u32,
    set_pages: usize,
    /// What the session of LINK read, the boot that it begins with too, which reads gates and manifests.
    link_reads: Reads,
}

impl fmt::Display for Cost {
    fn fmt<W: fmt::Write>(&self, f: &mut fmt::Formatter<W>) -> fmt::Result {
        write!(
            f,
            "bytes on the line {}, of packages {}, programs of external flash {}, of program flash {}, pages that differ {}, ",
            self.line_bytes,
            self.package_bytes,
            self.programs.external,
            self.programs.program,
            self.differing
        )?;
        write!(
            f,
            "pages of the set {}, page reads of LINK {} ({}; {} of gates and manifests), booted {}",
            self.set_pages,
            self.link_reads.total(),
            self.link_reads,
            self.link_reads.records,
            self.release
        )
    }
}

// The programs of both.
fn together(a: Programs, b: Programs) -> Programs {
    Programs {
        external: a.external.saturating_add(b.external),
        program: a.program.saturating_add(b.program),
    }
}

/// The mote takes the update and starts its release: the mote behind it, and the cost.
///
/// LINK has a session of its own, so that what it reads is counted alone; the last session boots.
pub(crate) fn install(
    alloc: Global,
    mote: CountingBoard,
    update: &Update<'_>,
) -> Result<(CountingBoard, Cost)> {
    let flash = program_flash(alloc, &mote)?;
    let mut mote = mote;
    mote.forget();
    let mut mote = session(alloc, mote, update.before)?;
    let earlier = mote.programs();
    mote.forget();
    let mote = session(alloc, mote, update.link)?;
    let link_reads = mote.reads();
    let mote = session(alloc, mote, update.behind)?;
    let mote = session(alloc, mote, &[])?;
    ensure!(
        has_started(&mote, update.release),
        "the mote doesn't start release {}",
        update.release
    );
    let cost = Cost {
        release: update.release,
        line_bytes: update.length(),
        package_bytes: update.package_bytes,
        programs: together(earlier, mote.programs()),
        differing: differing_pages(&mote, &flash),
        set_pages: update.set_pages,
        link_reads,
    };
    Ok((mote, cost))
}
