//! Rows of the tables that are kept.

use crate::list::NumberedParts;
use component_package::{Bytes, Text};

/// A symbol's name and its number.
#[derive(Debug, Drop)]
pub struct SymbolRow {
    /// The number, from 16.
    pub number: u16,
    /// The name, as objects spell it.
    pub name: Bytes,
}

/// A component's name and its number.
#[derive(Debug, Drop)]
pub struct ComponentRow {
    /// The number, from 1.
    pub number: u16,
    /// The name.
    pub name: Text,
}

/// A version of a component.
#[derive(Debug, Drop)]
pub struct VersionRow {
    /// The component's number.
    pub component: u16,
    /// The version, from 1 for each component.
    pub version: u16,
    /// The package.
    pub bytes: Bytes,
}

/// A release for a mote.
#[derive(Debug, Drop)]
pub struct ReleaseRow {
    /// The mote's name.
    pub mote: Text,
    /// The release's number, from 1 for each mote.
    pub number: u32,
    /// Its components, in the order in which they are linked.
    pub parts: NumberedParts,
}

/// The release that a mote said it runs.
#[derive(Debug, Drop)]
pub struct AckRow {
    /// The mote's name.
    pub mote: Text,
    /// The release's number.
    pub number: u32,
}

/// A command that was accepted under its key.
#[derive(Debug, Drop)]
pub struct KeyRow {
    /// The key.
    pub key: Text,
    /// The SHA-256 digest of the command.
    pub digest: [u8; 32],
    /// The body that answered it.
    pub body: Text,
}
