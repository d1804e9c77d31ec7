//! Messages.

use component_package::Manifest;

/// What nodes say to each other (our own format).
#[derive(Clone, Copy, Debug, PartialEq, Eq)]
pub enum Message {
    /// The sender has some components of a release whole.
    Advert {
        /// The number of the release; 0 where the sender knows of none.
        release: u32,
        /// The components, as bits: bit n is that of the manifest's entry n.
        whole: u16,
    },
    /// The sender asks for pages of a component, or for the release's manifest.
    Ask {
        /// The number of the release.
        release: u32,
        /// The component's place in the manifest, 0 to 15; 255 asks for the manifest.
        ordinal: u8,
        /// The pages, as bits.
        pages: u64,
    },
    /// A release's manifest.
    Offer(Manifest),
    /// A page of a component's package.
    Data {
        /// The number of the release.
        release: u32,
        /// The component's place in the manifest, 0 to 15.
        ordinal: u8,
        /// Which page, of 256 bytes each, 0 to 38.
        page: u8,
        /// How many of the bytes count, 1 to 256.
        length: u16,
        /// The page; what stands behind `length` means nothing.
        bytes: [u8; 256],
    },
    /// The node's own clock: no node sends it.
    Tick,
}
