//! The relocations of a stored set by rising image offset.

ghost use Rattle.std.specs.Prelude.{◌≡◌, ◌<◌, ◌≤◌, ◌&&◌, ◌==◌, not, nat_le, false, IfOk, IfSome, OnOk, Some, List};
ghost use Rattle.flash_pages.specs.State.{State};
ghost use Rattle.flash_pages.specs.Board.{View, Reads, Told, FlashFaults};
ghost use Rattle.component_package.specs.packages.Component.{Component};
ghost use Rattle.component_package.specs.link.Pages.{in_image_order};
ghost use Rattle.component_package.specs.link.Link.{sites_of};
ghost use Rattle.kept_store.specs.declared.set.StoredSet.{StoredSet};
ghost use Rattle.external_flash.specs.Readers.{Keeps};
ghost use Rattle.kept_store.specs.Sets.{IsSet, HoldsSet};
ghost use Rattle.kept_relocs.specs.Order.{rest_of, IsWithin, IsNext, IsStep, steps_left};

use crate::arrays::rooms;
use component_package::Site;
use external_flash::PageReader;
use flash_pages::{Board, Failed};
use kept_store::{StoredSet, read_reloc};

/// Where the next relocation of a set is looked for: first all of the code's, by component, and then all of the data's. So their fields
/// rise in the image, since in each component relocations rise by part and offset.
#[derive(Clone, Copy)]
pub(crate) struct Cursor {
    pub(crate) in_init: bool,
    pub(crate) component: u8,
    pub(crate) index: u16,
}

impl Cursor {
    /// Before the first relocation.
    pub(crate) fn new() -> Cursor
        ensures rest { (set : List Component) → rest_of set result ≡ in_image_order (sites_of set) }
        ensures within { (set : StoredSet) → IsWithin set result }
    {
        Cursor {
            in_init: false,
            component: 0,
            index: 0,
        }
    }

    // Goes one place on: past a relocation, which is answered if its field lies in the part that is gone through, past a component, or
    // to the data.
    fn step<B: Board>(
        &mut self,
        board: &mut B,
        set: &StoredSet,
        table: &mut PageReader,
    ) -> Result<Option<Site>, Failed>
        requires set { IsSet set.now }
        requires within { IsWithin set.now self.old }
        requires more { (self.old.in_init && nat_le set.now.slots.manifest.count
            self.old.component) ≡ false }
        ensures site { IfOk result (λ o. Told (B.view board.old) (λ s. Keeps s table.old →
            (components : List Component) → HoldsSet s set.now components →
            IsStep o (rest_of components self.old) (rest_of components self.new))) }
        ensures known { IfOk result (λ o. IfSome o (λ x. x.component <
            set.now.slots.manifest.count)) }
        ensures within { OnOk result (IsWithin set.now self.new) }
        ensures fewer { OnOk result (steps_left self.new < steps_left self.old) }
        ensures keeps { Told (B.view board.old) (λ s. Keeps s table.old → Keeps s table.new) }
        ensures reads { Reads (B.view board.old) (B.view board.new) }
        ensures faults { FlashFaults result (B.view board.old) (B.view board.new) }
    {
        rooms(set);
        let k = self.component;
        if k >= set.slots.manifest.count {
            self.in_init = true;
            self.component = 0;
            self.index = 0;
            return Ok(None);
        }
        if self.index >= set.headers[k as usize].relocs {
            self.component += 1;
            self.index = 0;
            return Ok(None);
        }
        let index = self.index;
        let Ok(reloc) = read_reloc(board, set, table, k, index) else {
            return Err(Failed);
        };
        self.index += 1;
        if reloc.in_init != self.in_init {
            return Ok(None);
        }
        Ok(Some(Site {
            component: k,
            index,
            reloc,
        }))
    }

    // Whether no relocation is left.
    fn has_ended(&self, set: &StoredSet) -> bool
        ensures { result ≡ (self.now.in_init && nat_le set.now.slots.manifest.count
            self.now.component) }
    {
        self.in_init && set.slots.manifest.count <= self.component
    }

    /// The next relocation; `None` behind the last.
    pub(crate) fn next<B: Board>(
        &mut self,
        board: &mut B,
        set: &StoredSet,
        table: &mut PageReader,
    ) -> Result<Option<Site>, Failed>
        requires set { IsSet set.now }
        requires within { IsWithin set.now self.old }
        ensures within { OnOk result (IsWithin set.now self.new) }
        ensures site { IfOk result (λ o. Told (B.view board.old) (λ s. Keeps s table.old →
            (components : List Component) → HoldsSet s set.now components →
            IsNext o (rest_of components self.old) (rest_of components self.new))) }
        ensures known { IfOk result (λ o. IfSome o (λ x. x.component <
            set.now.slots.manifest.count)) }
        ensures keeps { Told (B.view board.old) (λ s. Keeps s table.old → Keeps s table.new) }
        ensures reads { Reads (B.view board.old) (B.view board.new) }
        ensures faults { FlashFaults result (B.view board.old) (B.view board.new) }
    {
        while !self.has_ended(set) {
            let Ok(found) = self.step(board, set, table) else {
                return Err(Failed);
            };
            if found.is_some() {
                return Ok(found);
            }
        }
        rooms(set);
        Ok(None)
    }
}
