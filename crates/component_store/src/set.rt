//! A set in slots, and why there is none.

ghost use Rattle.std.specs.Prelude.{◌≡◌};

use component_package::{Header, PackageFault, SlotManifest};
use flash_pages::Failed;
use std::error::Error;
use std::fmt;

/// A release with the headers of its packages.
#[derive(Clone, Copy, Debug, PartialEq, Eq)]
pub struct StoredSet {
    /// The release and its slots.
    pub slots: SlotManifest,
    /// The header of each component's package; those from the count on mean nothing.
    pub headers: [Header; 16],
}

/// Why a call on a slot gives no answer.
#[derive(Clone, Copy, Debug, PartialEq, Eq)]
pub enum StoreFault {
    /// A call of the board failed.
    Fault,
    /// The package has no such page.
    Page,
    /// The piece isn't as long as the page's part of the package.
    PieceLength,
    /// The bytes are no package; this is their first fault.
    Package(PackageFault),
    /// The bytes are a package of another component or version.
    Identity,
}

/// The cause in words, with its values.
impl fmt::Display for StoreFault {
    fn fmt<W: fmt::Write>(&self, f: &mut fmt::Formatter<W>) -> fmt::Result {
        match self {
            StoreFault::Fault => write!(f, "a call of the board failed"),
            StoreFault::Page => write!(f, "the package has no such page"),
            StoreFault::PieceLength => write!(f, "the piece has another length than its page"),
            StoreFault::Package(fault) => write!(f, "the package is bad: {fault}"),
            StoreFault::Identity => { write!(f, "the package is of another component or version") }
        }
    }
}

impl Error for StoreFault {}

impl From<Failed> for StoreFault {
    ghost use Rattle.component_store.specs.declared.set.StoreFault.TheVariants.{Fault};

    ghost from_gives = { λ _ f. f ≡ Fault };

    fn from(_failed: Failed) -> StoreFault {
        StoreFault::Fault
    }
}

impl From<PackageFault> for StoreFault {
    ghost use Rattle.component_store.specs.declared.set.StoreFault.TheVariants.{Package};

    ghost from_gives = { λ fault f. f ≡ Package fault };

    fn from(fault: PackageFault) -> StoreFault {
        StoreFault::Package(fault)
    }
}

/// Why the slots hold no whole set. The entries are counted from 0.
#[derive(Clone, Copy, Debug, PartialEq, Eq)]
pub enum SetFault {
    /// A call of the board failed.
    Fault,
    /// The slot of this entry, the first such one, hasn't its digest.
    Missing(u8),
    /// All digests are right, and the package of this entry, the first such one, has a fault: its number, or 13 where the package is
    /// another component's or version's.
    BadPackage(u8, u8),
}

/// The cause in words, with its values.
impl fmt::Display for SetFault {
    fn fmt<W: fmt::Write>(&self, f: &mut fmt::Formatter<W>) -> fmt::Result {
        match self {
            SetFault::Fault => write!(f, "a call of the board failed"),
            SetFault::Missing(entry) => write!(f, "the package of entry {entry} is missing"),
            SetFault::BadPackage(entry, number) => {
                write!(f, "the package of entry {entry} has fault {number}")
            }
        }
    }
}

impl Error for SetFault {}

impl From<Failed> for SetFault {
    ghost use Rattle.component_store.specs.declared.set.SetFault.TheVariants.{Fault};

    ghost from_gives = { λ _ f. f ≡ Fault };

    fn from(_failed: Failed) -> SetFault {
        SetFault::Fault
    }
}
