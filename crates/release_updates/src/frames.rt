//! Frames behind others.

ghost use Rattle.std.specs.Prelude.{◌≡◌, ◌≤◌, ◌/◌, ◌%◌, ◌++◌, ◌∷◌, [], length, OnOk};
ghost use Rattle.component_package.specs.declared.frames.TheConstants.{LINK as LinkKind, COMMIT as CommitKind, END as EndKind};
ghost use Rattle.component_package.specs.packages.Manifest.{IsManifest, release_of};
ghost use Rattle.component_package.specs.mote.Frames.{frame_bytes, stream_of};
ghost use Rattle.update_laws.specs.Update.{bare_frame, manifest_frame, piece_frame};

use component_package::frames::{COMMIT, END, LINK, MANIFEST, PIECE};
use component_package::{Manifest, write_manifest};
use std::alloc::AllocError;

// The type of a frame and the length of its payload.
fn push_head(out: &mut Vec<u8>, kind: u8, payload: u16) -> Result<(), AllocError>
    ensures { OnOk result (out.new.items ≡ out.old.items ++ kind ∷ payload % 256 ∷ payload / 256 ∷ []) }
{
    let [low, high] = payload.to_le_bytes();
    out.extend_from_slice(&[kind, low, high])
}

/// MANIFEST.
pub(crate) fn push_manifest(out: &mut Vec<u8>, manifest: &Manifest) -> Result<(), AllocError>
    requires { IsManifest manifest.now }
    ensures { OnOk result (out.new.items ≡ out.old.items ++ frame_bytes (manifest_frame (release_of manifest.now))) }
{
    let mut bytes = [0; 613];
    let count = write_manifest(manifest, &mut bytes);
    push_head(out, MANIFEST, count)?;
    out.extend_from_slice(&bytes[..count as usize])?;
    Ok(())
}

/// A page of the package of component `ordinal`, which counts from 0: at most 256 bytes.
pub(crate) fn push_piece(
    out: &mut Vec<u8>,
    ordinal: u8,
    page: u8,
    bytes: &[u8],
) -> Result<(), AllocError>
    requires { length bytes.now ≤ 256 }
    ensures { OnOk result (out.new.items ≡ out.old.items ++ frame_bytes (piece_frame ordinal page bytes.now)) }
{
    push_head(out, PIECE, bytes.len() as u16 + 2)?;
    out.extend_from_slice(&[ordinal, page])?;
    out.extend_from_slice(bytes)?;
    Ok(())
}

/// END.
pub(crate) fn push_end(out: &mut Vec<u8>) -> Result<(), AllocError>
    ensures { OnOk result (out.new.items ≡ out.old.items ++ stream_of (bare_frame EndKind ∷ [])) }
{
    push_head(out, END, 0)
}

/// LINK, COMMIT and END.
pub(crate) fn push_last(out: &mut Vec<u8>) -> Result<(), AllocError>
    ensures { OnOk result (out.new.items ≡ out.old.items ++ stream_of (bare_frame LinkKind ∷ bare_frame CommitKind ∷ bare_frame EndKind ∷ [])) }
{
    push_head(out, LINK, 0)?;
    push_head(out, COMMIT, 0)?;
    push_head(out, END, 0)?;
    Ok(())
}
