//! The image of a release.

ghost use Rattle.std.specs.Prelude.{IfOk};
ghost use Rattle.release_rows.specs.View.{Told, Reads};
ghost use Rattle.release_judging.specs.Images.{packages_of_release, IsImageAnswer, IsCauseAlone};

use crate::release::{link_packages, read_packages};
use component_package::Bytes;
use full_linker::LinkFault;
use release_rows::{Rows, RowsFault};
use std::alloc::Global;

/// The image of a release, or why there is none.
#[derive(Debug, Drop)]
pub enum ImageAnswer {
    /// The image, from program address 0 on.
    Image(Bytes),
    /// The release, or a part of it, isn't there.
    NoRow,
    /// The packages have no image, and why; never for want of memory.
    Cause(LinkFault),
}

/// The image of a mote's release: its packages linked in their order. Rows are only read.
///
/// `Failed` comes only where a call on the rows failed, and `Memory` where there was none.
pub fn release_image<R: Rows>(
    alloc: Global,
    rows: &mut R,
    mote: &str,
    number: u32,
) -> Result<ImageAnswer, RowsFault>
    ensures image { IfOk result (λ a. Told (R.view rows.old) (λ t. IsImageAnswer (packages_of_release t mote.now number) a)) }
    ensures cause { IfOk result IsCauseAlone }
    ensures reads { Reads result (R.view rows.old) (R.view rows.new) }
{
    let Some(parts) = rows.release(mote, number)? else {
        return Ok(ImageAnswer::NoRow);
    };
    let Some(packages) = read_packages(alloc, rows, parts.as_slice())? else {
        return Ok(ImageAnswer::NoRow);
    };
    match link_packages(alloc, parts.as_slice(), &packages) {
        Ok(image) => Ok(ImageAnswer::Image(Bytes::of(image))),
        Err(LinkFault::Memory) => Err(RowsFault::Memory),
        Err(fault) => Ok(ImageAnswer::Cause(fault)),
    }
}
