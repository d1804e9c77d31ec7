//! The sums.

ghost use Rattle.std.specs.Prelude.{◌≡◌, ◌+◌, ◌*◌, ◌≤◌, ◌<◌, ◌^◌, length, take, IfOk, Some, List};
ghost use Rattle.std.specs.List.{sum_by};
ghost use Rattle.std.specs.Result.{result_err};
ghost use Rattle.component_package.specs.link.Layout.{Room, linker_symbol};
ghost use Rattle.layout_plan.specs.Plan.{rooms, size_of, Begins, IsPlan, IsPlanned, plan_fault};

use crate::plan::{Part, Plan, PlanFault, Sizes};
use component_package::limits::{IMAGE_BYTES, RAM_BYTES};

/// The first address of data, 0x0100 of the device, as the AVR tools number it.
const DATA_START: u32 = 0x800100;

/// The last address of the device's RAM, as the AVR tools number it.
const STACK: u32 = 0x8010FF;

// Where this part of each component begins, from `start` on, and how long it is in all.
fn bases(sizes: &[Sizes], part: Part, start: u32) -> ([u32; 16], u32)
    requires few { length sizes.now ≤ 16 }
    requires start { start < 2 ^ 31 }
    ensures bases { Begins result.0 (length sizes.now) (λ i. start + sum_by (size_of part) (take i sizes.now)) }
    ensures total { result.1 ≡ sum_by (size_of part) sizes.now }
    ensures small { result.1 ≤ 65535 * length sizes.now }
{
    let mut bases = [0; 16];
    let mut sum = 0;
    for (i, s) in sizes.iter().enumerate() {
        bases[i] = start + sum;
        sum += s.part(part) as u32;
    }
    (bases, sum)
}

/// Where each component's parts stand: all code, then all data; in RAM all data, then all bss. `Flash` and `Ram` hold the sums that
/// are too great; `Flash` comes before `Ram`.
pub fn plan_of(sizes: &[Sizes]) -> Result<Plan, PlanFault>
    requires { length sizes.now ≤ 16 }
    ensures plan { IfOk result (IsPlan (rooms sizes.now)) }
    ensures fault { result_err result ≡ plan_fault (rooms sizes.now) }
    ensures planned { IfOk result IsPlanned }
{
    let (code, code_total) = bases(sizes, Part::Code, 0);
    let (load, init_total) = bases(sizes, Part::Init, code_total);
    let (ram, _) = bases(sizes, Part::Init, DATA_START);
    let (bss, bss_total) = bases(sizes, Part::Bss, DATA_START + init_total);
    if IMAGE_BYTES < code_total + init_total {
        return Err(PlanFault::Flash(code_total + init_total));
    }
    if RAM_BYTES < init_total + bss_total {
        return Err(PlanFault::Ram(init_total + bss_total));
    }
    Ok(Plan {
        count: sizes.len() as u8,
        code,
        load,
        ram,
        bss,
        code_total,
        init_total,
        bss_total,
    })
}

/// The value of a linker symbol, by its target, 3 to 10.
pub fn linker_symbol(p: &Plan, target: u16) -> u32
    requires plan { IsPlanned p.now }
    requires low { 3 ≤ target }
    requires high { target ≤ 10 }
    ensures { (rs : List Room) → IsPlan rs p.now → linker_symbol rs target ≡ Some result }
{
    let data_end = DATA_START + p.init_total;
    let bss_end = data_end + p.bss_total;
    match target {
        3 => DATA_START,
        4 | 6 => data_end,
        5 => p.code_total,
        7 | 8 => bss_end,
        9 => STACK,
        _ => 0,
    }
}
