//! What program flash is to hold: the image of a set as it is linked from scratch.

ghost use Rattle.std.specs.Prelude.{◌≡◌, ◌++◌, IfOk, map, replicate};
ghost use Rattle.component_package.specs.link.Pages.{padded};
ghost use Rattle.update_laws.specs.Update.{components_in};
ghost use Rattle.rehearsal.specs.Lines.{IsFlash};

use crate::stop::Stop;
use component_package::Bytes;
use component_package::limits::IMAGE_BYTES;
use drawn_releases::Delivered;
use full_linker::{LinkFault, link, may_be_linked};
use std::alloc::{AllocError, Global};

// Copies of the packages alone.
fn bytes_of(alloc: Global, packages: &[Delivered]) -> Result<Vec<Bytes>, AllocError>
    ensures { IfOk result (λ v. v.items ≡ map (λ d. d.bytes) packages.now) }
{
    let mut set = Vec::new(alloc);
    for delivered in packages {
        set.push(Bytes::of(delivered.bytes.as_slice().to_vec(alloc)?))?;
    }
    Ok(set)
}

// So many bytes of 0xFF.
fn blank(alloc: Global, count: usize) -> Result<Vec<u8>, AllocError>
    ensures { IfOk result (λ v. v.items ≡ replicate count 255) }
{
    let bytes = vec![in alloc; 255; count]?;
    Ok(bytes)
}

// The image, and 0xFF up to the end of program flash.
fn padded(alloc: Global, image: Vec<u8>) -> Result<Vec<u8>, AllocError>
    ensures { IfOk result (λ v. v.items ≡ padded image.items) }
{
    let rest = blank(alloc, (IMAGE_BYTES as usize).saturating_sub(image.len()))?;
    let mut bytes = image;
    bytes.extend_from_slice(&rest)?;
    Ok(bytes)
}

/// What program flash holds where a mote has started a set of packages.
pub(crate) fn flash_of(alloc: Global, packages: &[Delivered]) -> Result<Vec<u8>, Stop>
    ensures { IfOk result (λ v. IsFlash (components_in packages.now) v.items) }
{
    let set = bytes_of(alloc, packages)?;
    if !may_be_linked(alloc, &set)? {
        return Err(Stop::NotStarted);
    }
    match link(alloc, &set) {
        Ok(image) => Ok(padded(alloc, image)?),
        Err(LinkFault::Memory) => Err(Stop::NoMemory),
        Err(_) => Err(Stop::NotStarted),
    }
}
