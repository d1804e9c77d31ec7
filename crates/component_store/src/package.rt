//! Checking the package in a slot.

ghost use Rattle.std.specs.Prelude.{◌≡◌, ◌↔◌, ◌≤◌, ◌<◌, ◌+◌, ◌*◌, true, false, IsTrue, IfOk, IfErr, OnErr, OnOk, take, Some};
ghost use Rattle.std.specs.Option.{option_map};
ghost use Rattle.sha2.specs.Sha256.{sha256};
ghost use Rattle.flash_pages.specs.State.{State};
ghost use Rattle.flash_pages.specs.Board.{View, Told, Reads, FlashFaults, FlashFaultsWhere};
ghost use Rattle.component_package.specs.packages.Reading.{header_of, header_fault, exports_fault, relocs_fault, has_even_lengths, total_of};
ghost use Rattle.component_store.specs.declared.set.StoreFault.TheVariants.{Package};
ghost use Rattle.component_store.specs.Pieces.{is_fault};
ghost use Rattle.component_store.specs.Packages.{is_of, package_answer, records_fault, is_of_package, FaultIs};
ghost use Rattle.component_store.specs.Reader.{Keeps, IsUnder, held_bytes, held_package};

use crate::reader::SlotReader;
use crate::records::{export_raw, field_raw, reloc_raw};
use crate::set::StoreFault;
use crate::slots::is_same;
use component_package::{Entry, Header, check_export, check_reloc, read_header};
use flash_pages::{Board, Failed};
use sha2::{Digest, Sha256};

/// Whether the slot's first `size` bytes have this SHA-256 digest. It reads each of their pages once.
pub fn check<B: Board>(
    board: &mut B,
    slot: u8,
    size: u16,
    digest: &[u8; 32],
) -> Result<bool, Failed>
    requires slot { slot < 32 }
    requires least { 32 ≤ size }
    requires most { size ≤ 9984 }
    ensures answer { IfOk result (λ b. Told (B.view board.old) (λ s. IsTrue b ↔
        (sha256 (held_bytes s slot size) ≡ digest.now))) }
    ensures reads { Reads (B.view board.old) (B.view board.new) }
    ensures faults { FlashFaults result (B.view board.old) (B.view board.new) }
{
    let mut hasher = Sha256::new();
    let mut page = [0; 256];
    let mut reader = SlotReader::new(slot);
    let whole = (size / 256) as u8;
    for i in 0..whole {
        reader.read(board, 256 * i as u32, &mut page)?;
        hasher.update(page.as_slice());
    }
    // The last page, of which the package has a part.
    let rest = &mut page[..(size % 256) as usize];
    reader.read(board, 256 * whole as u32, rest)?;
    hasher.update(&*rest);
    Ok(is_same(&hasher.finalize(), digest))
}

// The header of a package of `size` bytes in a slot, or what is wrong with it.
fn stored_header<B: Board>(
    board: &mut B,
    table: &mut SlotReader,
    size: u16,
) -> Result<Header, StoreFault>
    requires slot { table.old.slot < 32 }
    requires least { 32 ≤ size }
    requires most { size ≤ 9984 }
    ensures answer { is_fault result ≡ false → Told (B.view board.old) (λ s. Keeps s table.old →
        FaultIs result
        (option_map Package (header_fault (held_bytes s table.old.slot 32) size))) }
    ensures header { IfOk result (λ h. Told (B.view board.old) (λ s. Keeps s table.old → h ≡
        header_of (held_bytes s table.old.slot 32))) }
    ensures even { IfOk result (λ h. IsTrue (has_even_lengths h)) }
    ensures total { IfOk result (λ h. total_of h ≡ size) }
    ensures keeps { OnOk result (Told (B.view board.old) (λ s. Keeps s table.old →
        Keeps s table.new)) }
    ensures slot { table.new.slot ≡ table.old.slot }
    ensures kinds { IfErr result (λ f. is_of_package f ≡ true) }
    ensures reads { Reads (B.view board.old) (B.view board.new) }
    ensures faults { FlashFaultsWhere (is_fault result) (B.view board.old) (B.view board.new) }
{
    let mut raw = [0; 32];
    table.read(board, 0, &mut raw)?;
    let header = read_header(&raw, size as u32)?;
    Ok(header)
}

// What is wrong with the exports of a slot's package.
fn check_exports<B: Board>(
    board: &mut B,
    table: &mut SlotReader,
    h: &Header,
) -> Result<(), StoreFault>
    requires slot { table.old.slot < 32 }
    requires whole { total_of h.now ≤ 9984 }
    ensures answer { is_fault result ≡ false → Told (B.view board.old) (λ s.
        IsUnder s table.old h.now → FaultIs result
        (option_map Package (exports_fault (held_package s table.old.slot h.now)))) }
    ensures keeps { OnOk result (Told (B.view board.old) (λ s. IsUnder s table.old h.now →
        IsUnder s table.new h.now)) }
    ensures slot { table.new.slot ≡ table.old.slot }
    ensures kinds { IfErr result (λ f. is_of_package f ≡ true) }
    ensures reads { Reads (B.view board.old) (B.view board.new) }
    ensures faults { FlashFaultsWhere (is_fault result) (B.view board.old) (B.view board.new) }
{
    let mut before = None;
    for i in 0..h.exports {
        let raw = export_raw(board, table, h, i)?;
        let export = check_export(h, before, i, &raw)?;
        before = Some(export.symbol);
    }
    Ok(())
}

// What is wrong with the relocations of a slot's package.
fn check_relocs<B: Board>(
    board: &mut B,
    table: &mut SlotReader,
    h: &Header,
) -> Result<(), StoreFault>
    requires slot { table.old.slot < 32 }
    requires whole { total_of h.now ≤ 9984 }
    ensures answer { is_fault result ≡ false → Told (B.view board.old) (λ s.
        IsUnder s table.old h.now → FaultIs result
        (option_map Package (relocs_fault (held_package s table.old.slot h.now)))) }
    ensures kinds { IfErr result (λ f. is_of_package f ≡ true) }
    ensures reads { Reads (B.view board.old) (B.view board.new) }
    ensures faults { FlashFaultsWhere (is_fault result) (B.view board.old) (B.view board.new) }
{
    // The fields rise too, so they have a reader of their own.
    let mut fields = SlotReader::new(table.slot);
    let mut before = None;
    for i in 0..h.relocs {
        let raw = reloc_raw(board, table, h, i)?;
        let field = field_raw(board, &mut fields, h, &raw)?;
        let reloc = check_reloc(h, before.as_ref(), i, &raw, &field)?;
        before = Some(reloc);
    }
    Ok(())
}

// Whether a package with this header is of the entry's component and version.
fn is_of(e: &Entry, h: &Header) -> bool
    ensures { result ≡ is_of e.now h.now }
{
    h.component == e.component && h.version == e.version
}

// What is wrong with a package with this header, apart from its component and version.
fn check_records<B: Board>(
    board: &mut B,
    table: &mut SlotReader,
    h: &Header,
) -> Result<(), StoreFault>
    requires slot { table.old.slot < 32 }
    requires whole { total_of h.now ≤ 9984 }
    ensures answer { is_fault result ≡ false → Told (B.view board.old) (λ s.
        IsUnder s table.old h.now → FaultIs result
        (option_map Package (records_fault (held_package s table.old.slot h.now)))) }
    ensures kinds { IfErr result (λ f. is_of_package f ≡ true) }
    ensures reads { Reads (B.view board.old) (B.view board.new) }
    ensures faults { FlashFaultsWhere (is_fault result) (B.view board.old) (B.view board.new) }
{
    check_exports(board, table, h)?;
    check_relocs(board, table, h)?;
    Ok(())
}

/// The header of the entry's package in a slot, which is read where it lies, each of its pages three times at most.
///
/// `Package` comes exactly where the slot's first bytes, as many as the entry says, are no package, with their first fault. `Identity` comes
/// exactly where they are one and its component or version isn't the entry's. `Fault` comes only where flash faults rose.
pub fn check_package<B: Board>(board: &mut B, slot: u8, e: &Entry) -> Result<Header, StoreFault>
    requires slot { slot < 32 }
    requires least { 32 ≤ e.now.length }
    requires most { e.now.length ≤ 9984 }
    ensures answer { is_fault result ≡ false → Told (B.view board.old) (λ s.
        FaultIs result (package_answer e.now (held_bytes s slot e.now.length))) }
    ensures header { IfOk result (λ h. Told (B.view board.old) (λ s. h ≡
        header_of (held_bytes s slot e.now.length))) }
    ensures kinds { IfErr result (λ f. is_of_package f ≡ true) }
    // On every board, so that a set that is answered meets the conditions of the calls that take one.
    ensures even { IfOk result (λ h. IsTrue (has_even_lengths h)) }
    ensures total { IfOk result (λ h. total_of h ≡ e.now.length) }
    ensures reads { Reads (B.view board.old) (B.view board.new) }
    ensures faults { FlashFaultsWhere (is_fault result) (B.view board.old) (B.view board.new) }
{
    let mut table = SlotReader::new(slot);
    let header = stored_header(board, &mut table, e.length)?;
    check_records(board, &mut table, &header)?;
    if !is_of(e, &header) {
        return Err(StoreFault::Identity);
    }
    Ok(header)
}
