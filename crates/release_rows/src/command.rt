//! Commands to a release server.

use crate::list::Parts;
use component_package::{Bytes, Text};

/// What a release server is asked to do.
#[derive(Debug, Drop)]
pub enum Command {
    /// Keep an object as the next version of a component.
    AddVersion {
        /// The component's name.
        component: Text,
        /// The object file.
        object: Bytes,
    },
    /// Make these components the next release for a mote.
    AddRelease {
        /// The mote's name.
        mote: Text,
        /// The components, in the order in which they are linked.
        parts: Parts,
    },
    /// Note that a mote runs a release.
    Acknowledge {
        /// The mote's name.
        mote: Text,
        /// The release's number.
        release: u32,
    },
}
