//! The frames of an update.

use anyhow::{Context, Result, bail};
use component_package::frames::{LINK, MANIFEST, PIECE};

/// How many bytes a manifest's entry has, and where in it the two bytes of the package's length stand.
const ENTRY_BYTES: usize = 38;

const LENGTH_AT: usize = 4;

/// What stands before the entries: the release's four bytes and the count of entries.
const HEAD_BYTES: usize = 5;

/// The frames of an update, and what they bring.
#[derive(Clone, Copy)]
pub(crate) struct Update<'a> {
    /// The frames in front of LINK.
    pub(crate) before: &'a [u8],
    /// The frame LINK.
    pub(crate) link: &'a [u8],
    /// The frames behind it.
    pub(crate) behind: &'a [u8],
    /// The release's number.
    pub(crate) release: u32,
    /// The bytes of packages in PIECE frames.
    pub(crate) package_bytes: usize,
    /// The pages of all packages of the release's set.
    pub(crate) set_pages: usize,
}

/// A frame at the front of bytes.
#[derive(Clone, Copy)]
struct Frame<'a> {
    kind: u8,
    payload: &'a [u8],
    /// How many bytes it has, those of its type and length among them.
    length: usize,
}

impl<'a> Frame<'a> {
    // The frame at the front of the bytes.
    fn first(bytes: &'a [u8]) -> Option<Frame<'a>> {
        let (Some(kind), Some(low), Some(high)) = (bytes.get(0), bytes.get(1), bytes.get(2)) else {
            return None;
        };
        let length = 3 + u16::from_le_bytes([*low, *high]) as usize;
        let Some(payload) = bytes.get(3..length) else {
            return None;
        };
        Some(Frame {
            kind: *kind,
            payload,
            length,
        })
    }
}

// The number of the manifest's release.
fn release_of(manifest: &[u8]) -> Option<u32> {
    match manifest {
        [a, b, c, d, ..] => Some(u32::from_le_bytes([*a, *b, *c, *d])),
        _ => None,
    }
}

// The pages of all packages of the manifest's set.
fn set_pages(manifest: &[u8]) -> usize {
    let mut pages = 0usize;
    for entry in manifest
        .get(HEAD_BYTES..)
        .unwrap_or(&[])
        .chunks_exact(ENTRY_BYTES)
    {
        if let (Some(low), Some(high)) = (entry.get(LENGTH_AT), entry.get(LENGTH_AT + 1)) {
            let length = u16::from_le_bytes([*low, *high]) as usize;
            pages = pages.saturating_add(length.div_ceil(256));
        }
    }
    pages
}

impl<'a> Update<'a> {
    /// The update of these bytes, or what they lack.
    pub(crate) fn read(bytes: &'a [u8]) -> Result<Update<'a>> {
        let mut manifest: &[u8] = &[];
        let mut package_bytes = 0usize;
        let mut at = 0usize;
        // No frame is empty, so there are no more of them than bytes.
        for _ in 0..bytes.len() {
            let rest = bytes.get(at..).unwrap_or(&[]);
            if rest.is_empty() {
                break;
            }
            let frame = Frame::first(rest).context("a frame is cut off")?;
            let end = at.saturating_add(frame.length);
            match frame.kind {
                MANIFEST => manifest = frame.payload,
                PIECE => {
                    package_bytes = package_bytes.saturating_add(
                        frame.payload.len().saturating_sub(2),
                    );
                }
                LINK => {
                    return Ok(Update {
                        before: bytes.get(..at).unwrap_or(&[]),
                        link: bytes.get(at..end).unwrap_or(&[]),
                        behind: bytes.get(end..).unwrap_or(&[]),
                        release: release_of(manifest).context("there is no manifest")?,
                        package_bytes,
                        set_pages: set_pages(manifest),
                    });
                }
                _ => {}
            }
            at = end;
        }
        bail!("there is no LINK")
    }

    /// How many bytes go over the line.
    pub(crate) fn length(&self) -> usize {
        self.before
            .len()
            .saturating_add(self.link.len())
            .saturating_add(self.behind.len())
    }
}
