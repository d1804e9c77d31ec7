//! Refusals of objects.

ghost use Rattle.std.specs.Prelude.{◌≡◌, ◌<◌, ◌+◌, ◌^◌, pos, [], ◌∷◌, Some, IfOk};
ghost use Rattle.avr_elf.specs.FaultNumber as elf;
ghost use Rattle.object_packer.specs.Faults as packing;
ghost use Rattle.release_judging.specs.declared.judged.Judged.{Judged};
ghost use Rattle.release_versions.specs.Faults.{elf_values, pack_values, IsFewBytes};

use avr_elf::ElfFault;
use object_packer::PackFault;
use release_judging::{Judged, refused};
use std::alloc::{AllocError, Global};

/// The refusal of a file that is no object.
pub(crate) fn elf_refusal(alloc: Global, fault: ElfFault) -> Result<Judged, AllocError>
    ensures { IfOk result (λ j. j ≡ Judged.Refused (100 + elf.number_of fault) (elf_values fault)) }
{
    let number = 100 + fault.number() as u16;
    let at = fault.offset() as i64;
    match fault {
        ElfFault::Unsupported(_, kind) => refused(alloc, number, &[at, kind as i64]),
        _ => refused(alloc, number, &[at]),
    }
}

/// The refusal of an object that can't be packed.
pub(crate) fn pack_refusal(alloc: Global, fault: PackFault) -> Result<Judged, AllocError>
    requires { IsFewBytes (Some fault) }
    ensures { IfOk result (λ j. j ≡ Judged.Refused (200 + packing.number_of fault) (pack_values fault)) }
{
    let number = 200 + fault.number() as u16;
    let refusal = match fault {
        PackFault::Section(section) => refused(alloc, number, &[section as i64])?,
        PackFault::Common(symbol) => refused(alloc, number, &[symbol as i64])?,
        PackFault::Absolute(symbol) => refused(alloc, number, &[symbol as i64])?,
        PackFault::NameTwice(symbol) => refused(alloc, number, &[symbol as i64])?,
        PackFault::Kind(section, entry, kind) => {
            refused(alloc, number, &[section as i64, entry as i64, kind as i64])?
        }
        PackFault::Addend(section, entry) => {
            refused(alloc, number, &[section as i64, entry as i64])?
        }
        PackFault::Field(section, entry) => {
            refused(alloc, number, &[section as i64, entry as i64])?
        }
        PackFault::Size(total) => size_refusal(alloc, number, total)?,
        PackFault::Memory => refused(alloc, number, &[])?,
    };
    Ok(refusal)
}

// The refusal of so many bytes.
fn size_refusal(alloc: Global, number: u16, total: u64) -> Result<Judged, AllocError>
    requires { total < 2 ^ 63 }
    ensures { IfOk result (λ j. j ≡ Judged.Refused number (pos total ∷ [])) }
{
    refused(alloc, number, &[total as i64])
}
