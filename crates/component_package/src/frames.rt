//! The types of frames. Those from `LINK` on have no payload.

/// Announces a release: a manifest.
pub const MANIFEST: u8 = 1;
/// Stores a page of a package of the incoming release: the entry's ordinal, the page, and its bytes.
pub const PIECE: u8 = 2;
/// Links the incoming release and stages its image.
pub const LINK: u8 = 3;
/// Makes the linked release the one that boots.
pub const COMMIT: u8 = 4;
/// Boots: installs the release that a commit made current.
pub const BOOT: u8 = 5;
/// Asks which release boots, which one comes in, and how far it is.
pub const STATUS: u8 = 6;
/// Forgets the incoming release.
pub const ABORT: u8 = 7;
/// Ends the session.
pub const END: u8 = 8;
