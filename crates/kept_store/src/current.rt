//! Opening the installed set.

ghost use Rattle.std.specs.Prelude.{◌≡◌, ◌+◌, ◌<◌, ◌≤◌, ◌*◌, ℕ, IfOk, OnOk, Some, [], slice_index_or};
ghost use Rattle.flash_pages.specs.State.{State};
ghost use Rattle.flash_pages.specs.Board.{View, Told, Reads, FlashFaults};
ghost use Rattle.component_package.specs.packages.Reading.{header_of};
ghost use Rattle.kept_definitions.specs.Kept.{tables_of};
ghost use Rattle.kept_definitions.specs.Sides.{kept_set};
ghost use Rattle.kept_manifests.specs.Slots.{IsSlotManifest, stored_of};
ghost use Rattle.kept_store.specs.Sets.{IsSet, HoldsSet, HasInstalled, HasNoFresh, at_rest};
ghost use Rattle.kept_store.specs.Open.{HasTableHeaders};

use crate::places::installed_set;
use crate::set::{NO_HEADER, StoredSet};
use component_package::Header;
use component_package::areas::SLOT_PAGES;
use external_flash::read_bytes;
use flash_pages::{Board, Failed};
use kept_definitions::areas::TABLES;
use kept_manifests::SlotManifest;

// The header that a table slot begins with.
fn table_header<B: Board>(board: &mut B, slot: u8) -> Result<Header, Failed>
    requires { slot < 16 }
    ensures answer { IfOk result (λ h. Told (B.view board.old) (λ s. h ≡ header_of (slice_index_or (tables_of s.ext) slot []))) }
    ensures reads { Reads (B.view board.old) (B.view board.new) }
    ensures faults { FlashFaults result (B.view board.old) (B.view board.new) }
{
    let mut raw = [0; 32];
    read_bytes(board, TABLES + SLOT_PAGES * slot as u16, 0, &mut raw)?;
    Ok(Header::of_bytes(&raw))
}

// The headers of the runs in the table slots of a release.
fn table_headers<B: Board>(board: &mut B, m: &SlotManifest) -> Result<[Header; 16], Failed>
    requires { IsSlotManifest m.now }
    ensures answer { IfOk result (λ hs. Told (B.view board.old) (λ s. HasTableHeaders (tables_of s.ext) m.now m.now.manifest.count hs)) }
    ensures reads { Reads (B.view board.old) (B.view board.new) }
    ensures faults { FlashFaults result (B.view board.old) (B.view board.new) }
{
    let mut headers = [NO_HEADER; 16];
    for k in 0..m.manifest.count {
        let header = table_header(board, m.slots[k as usize])?;
        headers[k as usize] = header;
    }
    Ok(headers)
}

/// The installed set of a stored manifest, whatever its fresh marks say.
///
/// Where the manifest is the chosen one of a sound board with no open Go gate, it is the chosen set: none of its entries is marked fresh, and the places of its
/// components are those of the image. On every other board it is any set that meets the conditions of the calls that take one. `Failed` comes only where
/// flash faults rose. It reads a page or two of each table slot that the manifest names.
pub fn open_current<B: Board>(board: &mut B, m: &SlotManifest) -> Result<StoredSet, Failed>
    requires { IsSlotManifest m.now }
    // On every board it meets the conditions of the calls that take a set.
    ensures set { IfOk result IsSet }
    ensures rests { IfOk result HasNoFresh }
    ensures release { IfOk result (λ set. Told (B.view board.old) (λ s.
        HasInstalled s (stored_of m.now) → stored_of set.slots ≡ at_rest (stored_of m.now))) }
    ensures holds { IfOk result (λ set. Told (B.view board.old) (λ s. HasInstalled s (stored_of m.now) →
        HoldsSet s set (kept_set (tables_of s.ext) s.prog (stored_of m.now)))) }
    ensures reads { Reads (B.view board.old) (B.view board.new) }
    ensures faults { FlashFaults result (B.view board.old) (B.view board.new) }
{
    let headers = table_headers(board, m)?;
    Ok(installed_set(m, &headers))
}
