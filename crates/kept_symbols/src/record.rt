//! Records of the area, and a page of them.

ghost use Rattle.std.specs.Prelude.{◌≡◌, ◌+◌, ◌<◌, List, [], ◌∷◌, ◌++◌, length, replicate};
ghost use Rattle.component_package.specs.packages.Component.{number_of_place};
ghost use Rattle.component_package.specs.link.Layout.{Room};
ghost use Rattle.component_package.specs.link.Areas.{MergedSymbol, symbol_bytes};
ghost use Rattle.layout_plan.specs.Plan.{IsPlan};
ghost use Rattle.kept_symbols.specs.Records.{base_in, IsSomePlan, records_in};

use component_package::{Export, Place};
use layout_plan::Plan;

fn number_of(place: Place) -> u8
    ensures { result ≡ number_of_place place }
{
    match place {
        Place::Code => 0,
        Place::Init => 1,
        Place::Bss => 2,
        Place::Absolute => 3,
    }
}

/// The address of an export of component `k`.
pub(crate) fn address(plan: &Plan, k: u8, export: &Export) -> u32
    requires plan { IsSomePlan plan.now }
    requires component { k < plan.now.count }
    ensures { (rooms : List Room) → IsPlan rooms plan.now →
        result ≡ base_in rooms k export.now.place + export.now.value }
{
    let base = match export.place {
        Place::Code => plan.code[k as usize],
        Place::Init => plan.ram[k as usize],
        Place::Bss => plan.bss[k as usize],
        Place::Absolute => 0,
    };
    base + export.value as u32
}

/// The eight bytes of the record of an export of component `k`.
pub(crate) fn record(k: u8, export: &Export, address: u32) -> [u8; 8]
    ensures { result ≡ symbol_bytes (record {
      symbol = export.now.symbol;
      exporter = k;
      place = export.now.place;
      address = address;
    }) }
{
    let [low, high] = export.symbol.to_le_bytes();
    let [first, second, third, fourth] = address.to_le_bytes();
    [
        low,
        high,
        k,
        number_of(export.place),
        first,
        second,
        third,
        fourth,
    ]
}

/// A page without records.
pub(crate) fn blank_page() -> [u8; 256]
    ensures { result ≡ records_in 256 [] }
{
    [0xFF; 256]
}

/// Puts a record behind the `i` records that a page has.
pub(crate) fn put(page: &mut [u8; 256], i: u16, bytes: &[u8; 8])
    requires { i < 32 }
    ensures { (records : List MergedSymbol) (more : MergedSymbol) → length records ≡ i →
        page.old ≡ records_in 256 records → bytes.now ≡ symbol_bytes more →
        page.new ≡ records_in 256 (records ++ more ∷ []) }
{
    let at = 8 * i as usize;
    page[at..at + 8].copy_from_slice(bytes);
}
