//! A component of a release.

use component_package::Text;

/// A component of a release by its name, as a command names it.
#[derive(Debug, Drop)]
pub struct Part {
    /// The component's name.
    pub component: Text,
    /// The version, from 1 where there is one.
    pub version: u16,
}

/// A component of a release by its number, as rows keep it.
#[derive(Clone, Copy, Debug, PartialEq, Eq)]
pub struct Numbered {
    /// The component's number, from 1.
    pub component: u16,
    /// The version, from 1.
    pub version: u16,
}
