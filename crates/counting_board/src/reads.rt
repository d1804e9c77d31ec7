//! How many pages of external flash were read, by what they hold.

ghost use Rattle.std.specs.Prelude.{◌≡◌, ◌+◌, length};
ghost use Rattle.std.specs.List.{sum};
ghost use Rattle.counting_board.specs.Counting.{saturated};

use component_package::areas::{MANIFEST_A, RELOCATIONS, SLOTS, STAGED, SYMBOLS};
use std::fmt;

/// How many pages were read, by what they hold: each number is that of the reads, or as many as a count can hold.
///
/// It is shown without the reads of gates and manifests, which no step of a linker reads.
#[derive(Clone, Copy, Debug, PartialEq, Eq)]
pub struct Reads {
    /// The gates and the manifests of both sides.
    pub records: u32,
    /// The slots.
    pub packages: u32,
    /// The merged symbols.
    pub symbols: u32,
    /// The relocation list.
    pub relocations: u32,
    /// The staged image.
    pub staged: u32,
    /// The reads of the page that was read most.
    pub most: u32,
}

impl fmt::Display for Reads {
    fn fmt<W: fmt::Write>(&self, f: &mut fmt::Formatter<W>) -> fmt::Result {
        write!(
            f,
            "{} of packages, {} of symbols, {} of relocations, {} of the image; of one page {} at most",
            self.packages, self.symbols, self.relocations, self.staged, self.most
        )
    }
}

// All of these together, or as many as a count can hold.
fn sum_of(counts: &[u32]) -> u32
    ensures { result ≡ saturated (sum counts.now) }
{
    let mut all = 0u32;
    for count in counts {
        all = all.saturating_add(*count);
    }
    all
}

// The greatest of these, or 0 where there is none.
fn greatest_of(counts: &[u32]) -> u32 {
    let mut most = 0;
    for count in counts {
        most = most.max(*count);
    }
    most
}

impl Reads {
    /// The reads of the pages of external flash, from those of each page.
    pub(crate) fn of(pages: &[u32]) -> Reads
        requires { length pages.now ≡ 2048 }
    {
        Reads {
            records: sum_of(&pages[..SYMBOLS as usize]),
            packages: sum_of(&pages[SLOTS as usize..]),
            symbols: sum_of(&pages[SYMBOLS as usize..RELOCATIONS as usize]),
            relocations: sum_of(&pages[RELOCATIONS as usize..STAGED as usize]),
            staged: sum_of(&pages[STAGED as usize..SLOTS as usize]),
            most: greatest_of(pages),
        }
    }

    /// The reads of all pages, or as many as a count can hold.
    pub fn total(&self) -> u32
        ensures { result ≡ saturated (self.now.records + self.now.packages + self.now.symbols
            + self.now.relocations + self.now.staged) }
    {
        self.records
            .saturating_add(self.packages)
            .saturating_add(self.symbols)
            .saturating_add(self.relocations)
            .saturating_add(self.staged)
    }
}
