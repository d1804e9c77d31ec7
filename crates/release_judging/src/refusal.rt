//! Refusals, with their numbers.

ghost use Rattle.std.specs.Prelude.{◌≡◌, List, ℕ, pos, Option, IfOk};
ghost use Rattle.component_package.specs.link.Link.{Cause};
ghost use Rattle.component_package.specs.mote.Machine.{range_number};
ghost use Rattle.full_linker.specs.Faults.{Says as SaysLinking};
ghost use Rattle.release_rows.specs.declared.part.Numbered.{Numbered};
ghost use Rattle.release_rows.specs.Tables.{Tables};
ghost use Rattle.release_judging.specs.declared.judged.Judged.{Judged};
ghost use Rattle.release_judging.specs.Judging.{judged_set, IsSoundly};

use crate::judged::Judged;
use avr_reloc::RangeFault;
use component_package::NoMemory;
use full_linker::LinkFault;
use release_rows::Values;
use std::alloc::{AllocError, Global};

fn values_of(alloc: Global, numbers: &[i64]) -> Result<Values, AllocError>
    ensures { IfOk result (λ v. v ≡ numbers.now) }
{
    let mut values = Vec::new(alloc);
    values.extend_from_slice(numbers)?;
    Ok(Values::of(values))
}

/// A refusal with these numbers.
pub fn refused(alloc: Global, number: u16, numbers: &[i64]) -> Result<Judged, AllocError>
    ensures { IfOk result (λ j. j ≡ Judged.Refused number numbers.now) }
{
    let values = values_of(alloc, numbers)?;
    Ok(Judged::Refused { number, values })
}

fn value_of_range(fault: RangeFault) -> i64
    ensures { result ≡ pos (range_number fault) }
{
    match fault {
        RangeFault::Odd => 1,
        RangeFault::TooFar(_) => 2,
    }
}

/// The refusal of a set that has no image.
pub fn link_refusal(alloc: Global, fault: LinkFault) -> Result<Judged, NoMemory>
    ensures sound { IfOk result IsSoundly }
    ensures judged { IfOk result (λ j. (t : Tables) (mote : List ℕ) (parts : List Numbered) (found : Option Cause)
        → SaysLinking fault found → j ≡ judged_set t mote parts found) }
{
    let refusal = match fault {
        LinkFault::Flash(total) => refused(alloc, 301, &[total as i64])?,
        LinkFault::Ram(total) => refused(alloc, 302, &[total as i64])?,
        LinkFault::Symbols(count) => refused(alloc, 303, &[count as i64])?,
        LinkFault::Relocations(count) => refused(alloc, 304, &[count as i64])?,
        LinkFault::Duplicate(symbol, first, second) => {
            refused(alloc, 305, &[symbol as i64, first as i64, second as i64])?
        }
        LinkFault::Undefined(component, index, symbol) => {
            refused(alloc, 306, &[component as i64, index as i64, symbol as i64])?
        }
        LinkFault::Range(component, index, cause) => {
            refused(
                alloc,
                307,
                &[component as i64, index as i64, value_of_range(cause)],
            )?
        }
        LinkFault::Memory => return Err(NoMemory),
    };
    Ok(refusal)
}
