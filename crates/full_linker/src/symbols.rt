//! The symbols that a set exports, each in a slot of its own.

ghost use Rattle.std.specs.Prelude.{◌≡◌, ◌++◌, ◌∷◌, [], ◌≤◌, ◌+◌, ◌*◌, ℕ, List, length, map, None, OnOk, IfOk, IfErr};
ghost use Rattle.std.specs.List.{AllByRecursion};
ghost use Rattle.std.specs.BTreeMap.{btree_map_len};
ghost use Rattle.component_package.specs.declared.part.Export.{Export};
ghost use Rattle.component_package.specs.packages.Component.{Component};
ghost use Rattle.component_package.specs.packages.Grammar.{IsComponent};
ghost use Rattle.component_package.specs.link.Link.{exports_of, symbols_cause, duplicate_cause};
ghost use Rattle.full_linker.specs.Faults.{Says, Finds};
ghost use Rattle.full_linker.specs.Slots.{slot_of, twice_of, AreSlots};

use crate::fault::LinkFault;
use component_package::limits::SET_SYMBOLS;
use component_package::{Export, PackageView};
use std::alloc::{AllocError, Global};
use std::collections::BTreeMap;

/// What the components that were looked at export of one symbol, each export with its component.
#[derive(Clone, Copy, Debug, PartialEq, Eq)]
pub(crate) struct Slot {
    /// The first export of the symbol.
    pub first: Option<(u8, Export)>,
    /// The first that isn't weak.
    pub strong: Option<(u8, Export)>,
    /// The component of the second that isn't weak.
    pub second: Option<u8>,
}

/// The slots of the symbols that are exported at all, by symbol.
pub(crate) type Slots = BTreeMap<u16, Slot>;

impl Slot {
    // The slot after one export more of its symbol.
    fn with(self, component: u8, export: Export) -> Slot
        ensures { (xs : List (ℕ × Export)) (s : ℕ) → export.symbol ≡ s → self ≡ slot_of xs s
            → result ≡ slot_of (xs ++ (component, export) ∷ []) s }
    {
        let here = Some((component, export));
        let first = self.first.or(here);
        if export.weak {
            return Slot { first, ..self };
        }
        match self.strong {
            None => Slot {
                first,
                strong: here,
                second: self.second,
            },
            Some(_) => Slot {
                first,
                strong: self.strong,
                second: self.second.or(Some(component)),
            },
        }
    }

    // The first two components that export the symbol not weakly.
    fn twice(&self) -> Option<(u8, u8)>
        ensures { result ≡ twice_of self.now }
    {
        let (first, _) = self.strong?;
        Some((first, self.second?))
    }
}

// The slot of a symbol, with nothing in it where the symbol is new.
fn slot_in(slots: &Slots, symbol: u16) -> Slot
    ensures { (xs : List (ℕ × Export)) → AreSlots xs slots.now → result ≡ slot_of xs symbol }
{
    match slots.get(&symbol) {
        Some(slot) => *slot,
        None => Slot {
            first: None,
            strong: None,
            second: None,
        },
    }
}

// Puts one export more into its slot.
fn add(slots: &mut Slots, component: u8, export: Export) -> Result<(), AllocError>
    ensures slots { OnOk result ((xs : List (ℕ × Export)) → AreSlots xs slots.old
        → AreSlots (xs ++ (component, export) ∷ []) slots.new) }
    ensures small { OnOk result (btree_map_len slots.new ≤ btree_map_len slots.old + 1) }
{
    let slot = slot_in(slots, export.symbol);
    slots.insert(export.symbol, slot.with(component, export))?;
    Ok(())
}

// Puts all exports of a component into their slots.
fn add_all(slots: &mut Slots, component: u8, part: &PackageView<'_>) -> Result<(), AllocError>
    ensures slots { OnOk result ((xs : List (ℕ × Export)) → AreSlots xs slots.old
        → AreSlots (xs ++ map (λ e. (component, e)) part.now.exports) slots.new) }
    ensures small { OnOk result (btree_map_len slots.new ≤ btree_map_len slots.old + 65535) }
{
    for i in 0..part.header().exports {
        add(slots, component, part.export(i))?;
    }
    Ok(())
}

// The slots of a set.
fn collect(alloc: Global, set: &[PackageView<'_>]) -> Result<Slots, AllocError>
    requires { length set.now ≤ 16 }
    ensures slots { IfOk result (AreSlots (exports_of set.now)) }
    ensures small { IfOk result (λ m. btree_map_len m ≤ 65535 * 16) }
{
    let mut slots = BTreeMap::new(alloc);
    for (k, part) in set.iter().enumerate() {
        add_all(&mut slots, k as u8, part)?;
    }
    Ok(slots)
}

/// The slots of a set that doesn't export too many symbols.
pub(crate) fn symbols_of(alloc: Global, set: &[PackageView<'_>]) -> Result<Slots, LinkFault>
    requires { length set.now ≤ 16 }
    ensures slots { IfOk result (AreSlots (exports_of set.now)) }
    ensures few { IfOk result (λ _. symbols_cause set.now ≡ None) }
    ensures fault { IfErr result (λ f. Says f (symbols_cause set.now)) }
{
    let slots = collect(alloc, set)?;
    let count = slots.len() as u32;
    if SET_SYMBOLS < count {
        return Err(LinkFault::Symbols(count));
    }
    Ok(slots)
}

/// The least symbol that two components export not weakly.
pub(crate) fn duplicate(slots: &Slots) -> Option<LinkFault>
    ensures { (set : List Component) → AllByRecursion IsComponent set → AreSlots (exports_of set) slots.now
        → Finds result (duplicate_cause set) }
{
    for (symbol, slot) in slots {
        if let Some((first, second)) = slot.twice() {
            return Some(LinkFault::Duplicate(*symbol, first, second));
        }
    }
    None
}
