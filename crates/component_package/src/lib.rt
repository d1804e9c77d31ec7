//! Packages of components, the frames that carry them, and what the definitions of the product speak of.
//!
//! The definitions in `specs/` are those that every crate above cites: the grammar of packages, the image of a set of components, the pages and areas that it is made in, frames and answers.
#![tactic(auto)]

ghost use Rattle.component_package.specs.Laws.{FramesAreOne, FaultlessBytesSpell, SpellingIsOne, StepsFindTheFault, FaultlessManifestsSpell, ManifestIsOne, StoredReleaseIsOne};

mod answer;
pub mod areas;
mod check;
mod fault;
pub mod frames;
mod header;
pub mod limits;
mod list;
mod manifest;
mod part;
mod read;
mod write;

pub use answer::Answer;
pub use check::{check_export, check_reloc, field_span};
pub use fault::PackageFault;
pub use header::read_header;
pub use list::{Bytes, Exports, NoMemory, Relocs, Text};
pub use manifest::{
    Entry, Manifest, ManifestFault, SlotManifest, read_manifest, read_slot_pages, slot_page,
    write_manifest,
};
pub use part::{Export, Header, Package, Place, Reloc, Site};
pub use read::{PackageView, read_package};
pub use write::write_package;

/// The bytes of a line are one list of frames and one rest. It does nothing: its contract is the law.
pub fn frames_are_one()
    ensures { FramesAreOne }
{}

/// Bytes have no fault exactly where they spell a component, which is the one that they say. It does nothing: its contract is the law.
pub fn faultless_bytes_spell()
    ensures { FaultlessBytesSpell }
{}

/// A component has one spelling, and bytes spell one component at most. It does nothing: its contract is the law.
pub fn spelling_is_one()
    ensures { SpellingIsOne }
{}

/// A package that is read piece by piece, by [`read_header`], [`check_export`] and [`check_reloc`], has the fault that it has as a whole.
/// It does nothing: its contract is the law.
pub fn steps_find_the_fault()
    ensures { StepsFindTheFault }
{}

/// Bytes have no fault of a manifest exactly where they spell a release, which is the one that they say. It does nothing: its contract is
/// the law.
pub fn faultless_manifests_spell()
    ensures { FaultlessManifestsSpell }
{}

/// A release has one spelling, and bytes spell one release at most. It does nothing: its contract is the law.
pub fn manifest_is_one()
    ensures { ManifestIsOne }
{}

/// A stored release has one form in bytes, and bytes are one stored release's at most. It does nothing: its contract is the law.
pub fn stored_release_is_one()
    ensures { StoredReleaseIsOne }
{}
