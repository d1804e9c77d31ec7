//! What each frame does, one file each.

pub(crate) mod abort;
pub(crate) mod boot;
pub(crate) mod commit;
pub(crate) mod link;
pub(crate) mod manifest;
pub(crate) mod piece;
pub(crate) mod status;
