//! Relocations in the order of their places.

ghost use Rattle.std.specs.Prelude.{◌≡◌, IfOk};
ghost use Rattle.object_packer.specs.Order.{sorted_by};
ghost use Rattle.object_packer.specs.Faults.{overlap_fault};

use crate::fault::PackFault;
use crate::kept::Kept;
use std::alloc::AllocError;

/// The relocations by part and offset; those at one place stay in their order.
pub(crate) fn in_order(kept: Vec<Kept>) -> Result<Vec<Kept>, AllocError>
    ensures { IfOk result (λ v. v.items ≡ sorted_by (λ x. x.position) kept.items) }
{
    let mut sorted = kept;
    sorted.sort_by_key(|x| x.position)?;
    Ok(sorted)
}

/// The first relocation whose field begins before the former one's end. The sum is of 128 bits, and so
/// it does not wrap.
pub(crate) fn overlap_fault(kept: &[Kept]) -> Option<PackFault>
    ensures { result ≡ overlap_fault 0 kept.now }
{
    let mut end: u128 = 0;
    for x in kept {
        let position = x.position as u128;
        if position < end {
            return Some(PackFault::Field(x.section, x.entry));
        }
        end = position + x.kind.width() as u128;
    }
    None
}
