//! What an accepted command changes.

use crate::list::{NumberedParts, SymbolRows};
use crate::row::KeyRow;
use component_package::{Bytes, Text};

/// What a command adds to the tables, its key apart.
#[derive(Debug, Drop)]
pub enum Effect {
    /// A version of a component, which may be new.
    Version {
        /// The component's name.
        name: Text,
        /// The component's number.
        component: u16,
        /// The version.
        version: u16,
        /// The symbols that are new.
        symbols: SymbolRows,
        /// The package.
        package: Bytes,
    },
    /// A release for a mote.
    Release {
        /// The mote's name.
        mote: Text,
        /// The release's number.
        number: u32,
        /// Its components, in the order in which they are linked.
        parts: NumberedParts,
    },
    /// The release that a mote runs.
    Ack {
        /// The mote's name.
        mote: Text,
        /// The release's number.
        release: u32,
    },
}

/// All that an accepted command changes: its effect, and its key with the body that answers it.
#[derive(Debug, Drop)]
pub struct Change {
    /// What it adds.
    pub effect: Effect,
    /// Its key.
    pub key: KeyRow,
}
