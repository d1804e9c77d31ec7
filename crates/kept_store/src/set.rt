//! A set of components that a board holds.

use component_package::{Entry, Header};
use kept_manifests::SlotManifest;

/// A release with the headers of its packages, and the places of those of its components that are installed.
#[derive(Clone, Copy, Debug, PartialEq, Eq)]
pub struct StoredSet {
    /// The release and its slots. The package of a fresh entry is in its inbox slot. Each other entry's component is installed: its run is in the table slot, and
    /// its code and data are in program flash.
    pub slots: SlotManifest,
    /// The header of each component's package; those from the count on mean nothing.
    pub headers: [Header; 16],
    /// The byte of program flash at which the code of each component begins that isn't fresh; the others mean nothing.
    pub code_at: [u32; 16],
    /// The same of its data.
    pub init_at: [u32; 16],
}

pub(crate) const NO_HEADER: Header = Header {
    component: 0,
    version: 0,
    code: 0,
    init: 0,
    bss: 0,
    exports: 0,
    relocs: 0,
};

pub(crate) const NO_ENTRY: Entry = Entry {
    component: 0,
    version: 0,
    length: 0,
    digest: [0; 32],
};
