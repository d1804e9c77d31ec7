//! Manifests: what a release consists of, and where the mote keeps its packages.

ghost use Rattle.std.specs.Prelude.{All, ◌≡◌, ◌==◌, ◌↔◌, ◌+◌, ◌*◌, ◌<◌, ◌≤◌, ◌^◌, ◌++◌, ◌∷◌, [], is_none, is_some, is_err, IsTrue, IfOk, IfSome, IfNone, length, take, drop, replicate, slice_get, slice_range};
ghost use Rattle.std.specs.List.{concat, list_any};
ghost use Rattle.std.specs.Result.{result_err};
ghost use Rattle.avr_reloc.specs.Field.{AreBytes};
ghost use Rattle.component_package.specs.packages.Numbers.{u16_bytes, u32_at, u32_bytes};
ghost use Rattle.component_package.specs.packages.Manifest.{Release, StoredRelease, IsRelease, IsStored, IsManifest, IsSlotManifest, SpellsRelease, Stores, release_of, stored_of, released, release_in, stored_in, manifest_fault, manifest_bytes, manifest_entry_bytes, manifest_entry_at, stored_bytes, placed_bytes, placed_at};
ghost use Rattle.component_package.specs.declared.manifest.ManifestFault.TheVariants.{Short};
ghost use Rattle.component_package.specs.packages.ManifestSteps.{size_fault, fault_of_entry, is_place, place_fault, block_of};
ghost use Rattle.component_package.specs.packages.Reading.{first_fault, list_of};

use crate::header::u16_in;
use crate::limits::PACKAGE_BYTES;
use std::error::Error;
use std::fmt;

/// One component of a release.
#[derive(Clone, Copy, Debug, PartialEq, Eq)]
pub struct Entry {
    /// The component's number.
    pub component: u16,
    /// Its version.
    pub version: u16,
    /// The length of its package in bytes, 32 to 9,984.
    pub length: u16,
    /// The SHA-256 digest of its package.
    pub digest: [u8; 32],
}

/// What a release consists of: the first `count` entries, in the order in which they are linked.
#[derive(Clone, Copy, Debug, PartialEq, Eq)]
pub struct Manifest {
    /// The number of the release.
    pub release: u32,
    /// How many components it has, 1 to 16; the empty release that a formatted mote has is stored with 0.
    pub count: u8,
    /// The entries; those from `count` on mean nothing.
    pub entries: [Entry; 16],
}

/// A manifest with the slot of each entry, as a side of external flash keeps it.
#[derive(Clone, Copy, Debug, PartialEq, Eq)]
pub struct SlotManifest {
    /// The manifest.
    pub manifest: Manifest,
    /// The slot of each entry, below 32; those from the count on mean nothing.
    pub slots: [u8; 16],
}

/// The first fault of a manifest, in the order in which they are looked for.
#[derive(Clone, Copy, Debug, PartialEq, Eq)]
pub enum ManifestFault {
    /// So many bytes are fewer than 5, or aren't as many as the count asks for.
    Short(u32),
    /// The count is 0 or above 16.
    Count(u8),
    /// An earlier entry has this component.
    Repeated(u16),
    /// A length below 32 or above 9,984.
    Length(u16),
}

impl ManifestFault {
    ghost use Rattle.component_package.specs.packages.Manifest.{number_of_manifest_fault};

    /// The number of the fault, 1 to 4, as the line `bad manifest` says it.
    pub fn number(&self) -> u8
        ensures { result ≡ number_of_manifest_fault self.now }
    {
        match self {
            ManifestFault::Short(_) => 1,
            ManifestFault::Count(_) => 2,
            ManifestFault::Repeated(_) => 3,
            ManifestFault::Length(_) => 4,
        }
    }
}

/// What is wrong, in words, with the number at fault.
impl fmt::Display for ManifestFault {
    fn fmt<W: fmt::Write>(&self, f: &mut fmt::Formatter<W>) -> fmt::Result {
        match self {
            ManifestFault::Short(count) => write!(f, "{count} bytes are not a manifest's length"),
            ManifestFault::Count(count) => write!(f, "there are {count} components, not 1 to 16"),
            ManifestFault::Repeated(component) => write!(f, "component {component} stands twice"),
            ManifestFault::Length(count) => write!(f, "{count} bytes are not a package's length"),
        }
    }
}

impl Error for ManifestFault {}

const NO_ENTRY: Entry = Entry {
    component: 0,
    version: 0,
    length: 0,
    digest: [0; 32],
};

fn u32_in(bytes: &[u8], at: usize) -> u32
    requires { at + 3 < length bytes.now }
    ensures { result ≡ u32_at bytes.now at }
{
    u16_in(bytes, at) as u32 + 65536 * u16_in(bytes, at + 2) as u32
}

fn digest_in(bytes: &[u8], at: usize) -> [u8; 32]
    requires { at + 32 ≤ length bytes.now }
    ensures { result ≡ slice_range bytes.now at (at + 32) }
{
    let mut digest = [0; 32];
    digest.copy_from_slice(&bytes[at..at + 32]);
    digest
}

// The entry whose 38 bytes begin at a place.
fn entry_in(bytes: &[u8], at: usize) -> Entry
    requires { at + 38 ≤ length bytes.now }
    ensures { result ≡ manifest_entry_at bytes.now at }
{
    Entry {
        component: u16_in(bytes, at),
        version: u16_in(bytes, at + 2),
        length: u16_in(bytes, at + 4),
        digest: digest_in(bytes, at + 6),
    }
}

// So many bytes as a fault holds them: where they are 2^32 or more, the greatest number that it can hold.
fn short(count: usize) -> ManifestFault
    ensures { count < 2 ^ 32 → result ≡ Short count }
{
    if count > u32::MAX as usize {
        return ManifestFault::Short(u32::MAX);
    }
    ManifestFault::Short(count as u32)
}

// What is wrong with the count, or with how many bytes there are.
fn size_fault(bytes: &[u8]) -> Option<ManifestFault>
    ensures fault { length bytes.now < 2 ^ 32 → result ≡ size_fault bytes.now }
    ensures none { is_none result ≡ is_none (size_fault bytes.now) }
{
    if bytes.len() < 5 {
        return Some(short(bytes.len()));
    }
    let count = bytes[4];
    if count == 0 {
        return Some(ManifestFault::Count(count));
    }
    if 16 < count {
        return Some(ManifestFault::Count(count));
    }
    if bytes.len() != 5 + 38 * count as usize {
        return Some(short(bytes.len()));
    }
    None
}

fn has_component(entries: &[Entry], component: u16) -> bool
    ensures { result ≡ list_any (λ e. e.component == component) entries.now }
{
    entries.iter().any(|e| e.component == component)
}

// What is wrong with an entry behind these.
fn entry_fault(before: &[Entry], entry: &Entry) -> Option<ManifestFault>
    ensures { result ≡ fault_of_entry before.now entry.now }
{
    if has_component(before, entry.component) {
        return Some(ManifestFault::Repeated(entry.component));
    }
    if entry.length < 32 {
        return Some(ManifestFault::Length(entry.length));
    }
    if entry.length > PACKAGE_BYTES {
        return Some(ManifestFault::Length(entry.length));
    }
    None
}

/// Reads a manifest: release u32, count u8, and 38 bytes for each entry (component, version and length u16, digest), all
/// little-endian. Or answers its first fault; of 2^32 bytes or more, `Short` holds the greatest number that it can.
pub fn read_manifest(bytes: &[u8]) -> Result<Manifest, ManifestFault>
    ensures fault { length bytes.now < 2 ^ 32 → result_err result ≡ manifest_fault bytes.now }
    ensures refused { is_err result ≡ is_some (manifest_fault bytes.now) }
    ensures release { IfOk result (λ m. release_of m ≡ release_in bytes.now) }
    ensures spells { IfOk result (λ m. SpellsRelease bytes.now (release_of m)) }
    ensures count { IfOk result (λ m. m.count ≤ 16) }
{
    if let Some(fault) = size_fault(bytes) {
        return Err(fault);
    }
    let count = bytes[4];
    let mut entries = [NO_ENTRY; 16];
    for i in 0..count {
        let entry = entry_in(bytes, 5 + 38 * i as usize);
        if let Some(fault) = entry_fault(&entries[..i as usize], &entry) {
            return Err(fault);
        }
        entries[i as usize] = entry;
    }
    Ok(Manifest {
        release: u32_in(bytes, 0),
        count,
        entries,
    })
}

// The numbers of an entry.
fn numbers_array(component: u16, version: u16, length: u16) -> [u8; 6]
    ensures { result ≡ u16_bytes component ++ (u16_bytes version ++ u16_bytes length) }
{
    let [component_low, component_high] = component.to_le_bytes();
    let [version_low, version_high] = version.to_le_bytes();
    let [length_low, length_high] = length.to_le_bytes();
    [
        component_low,
        component_high,
        version_low,
        version_high,
        length_low,
        length_high,
    ]
}

// The 38 bytes of an entry.
fn entry_array(e: &Entry) -> [u8; 38]
    ensures { result ≡ manifest_entry_bytes e.now }
{
    let mut bytes = [0; 38];
    put(
        &mut bytes,
        0,
        &numbers_array(e.component, e.version, e.length),
    );
    put(&mut bytes, 6, &e.digest);
    bytes
}

// The release's number and how many entries it has.
fn front_array(m: &Manifest) -> [u8; 5]
    ensures { result ≡ u32_bytes m.now.release ++ m.now.count ∷ [] }
{
    let [first, second, third, fourth] = m.release.to_le_bytes();
    [first, second, third, fourth, m.count]
}

// Puts a piece over the bytes from a place on.
fn put(into: &mut [u8], at: usize, piece: &[u8])
    requires { at + length piece.now ≤ length into.old }
    ensures { into.new ≡ take at into.old ++ (piece.now ++ drop (at + length piece.now) into.old) }
{
    into[at..at + piece.len()].copy_from_slice(piece);
}

/// Writes the manifest's one spelling at the front of `into`, and says how many bytes it has: 5 and 38 for each entry, at most 613.
/// The bytes behind them stay as they are.
pub fn write_manifest(m: &Manifest, into: &mut [u8; 613]) -> u16
    requires { IsManifest m.now }
    ensures bytes { into.new ≡ manifest_bytes (release_of m.now) ++ drop result into.old }
    ensures count { result ≡ length (manifest_bytes (release_of m.now)) }
{
    put(into, 0, &front_array(m));
    for i in 0..m.count {
        put(
            into,
            5 + 38 * i as usize,
            &entry_array(&m.entries[i as usize]),
        );
    }
    5 + 38 * m.count as u16
}

// The 64 bytes of an entry with its slot.
fn placed_array(e: &Entry, slot: u8) -> [u8; 64]
    ensures { result ≡ placed_bytes (record { entry = e.now; slot = slot }) }
{
    let mut bytes = [0; 64];
    put(&mut bytes, 0, &entry_array(e));
    bytes[38] = slot;
    bytes
}

fn no_place() -> [u8; 64]
    ensures { result ≡ replicate 64 0 }
{
    [0; 64]
}

// What stands in place `i` of a side: an entry with its slot, or zeros.
fn block_array(m: &SlotManifest, i: u8) -> [u8; 64]
    requires { m.now.manifest.count ≤ 16 }
    ensures { result ≡ block_of (stored_of m.now) i }
{
    if i < m.manifest.count {
        return placed_array(&m.manifest.entries[i as usize], m.slots[i as usize]);
    }
    no_place()
}

/// A page of a stored manifest. Page 0 has release u32, count u8 and 251 zeros. Pages 1 to 4 have four entries each, one at every 64
/// bytes: the 38 bytes of a manifest, the slot and 25 zeros. Entries from the count on are zeros.
pub fn slot_page(m: &SlotManifest, page: u8) -> [u8; 256]
    requires manifest { IsSlotManifest m.now }
    requires page { page < 5 }
    ensures { result ≡ slice_range (stored_bytes (stored_of m.now)) (256 * page) (256 * page + 256) }
{
    let mut bytes = [0; 256];
    if page == 0 {
        put(&mut bytes, 0, &front_array(&m.manifest));
        return bytes;
    }
    for j in 0..4u8 {
        put(
            &mut bytes,
            64 * j as usize,
            &block_array(m, 4 * (page - 1) + j),
        );
    }
    bytes
}

// Whether an entry with its slot may stand behind these.
fn is_place(entries: &[Entry], slots: &[u8], entry: &Entry, slot: u8) -> bool
    ensures { result ≡ is_place entries.now slots.now entry.now slot }
{
    entry_fault(entries, entry).is_none() && slot < 32 && !slots.contains(&slot)
}

fn is_page(page: &[u8; 256])
    ensures size { length page.now ≡ 256 }
    ensures bytes { AreBytes page.now }
{
    let _first = page[0];
}

// Five pages have 256 bytes each.
fn are_pages(pages: &[[u8; 256]; 5])
    ensures count { length pages.now ≡ 5 }
    ensures sizes { All (λ p. length p ≡ 256) pages.now }
    ensures bytes { All AreBytes pages.now }
{
    for page in 0..5usize {
        is_page(&pages[page]);
    }
}

// The manifest whose entries the pages say, where each may stand behind those before it.
fn places_in(pages: &[[u8; 256]; 5], count: u8) -> Option<SlotManifest>
    requires count { count ≤ 16 }
    requires sizes { All (λ p. length p ≡ 256) pages.now }
    ensures fault { is_none result ≡ is_some (first_fault (place_fault (concat pages.now)) count) }
    ensures count { IfSome result (λ m. m.manifest.count ≡ count) }
    ensures number { IfSome result (λ m. m.manifest.release ≡ u32_at (concat pages.now) 0) }
    ensures placed { IfSome result (λ m. (stored_of m).placed ≡ list_of (placed_at (concat pages.now)) count) }
{
    let mut entries = [NO_ENTRY; 16];
    let mut slots = [0; 16];
    for i in 0..count {
        let page = &pages[1 + i as usize / 4];
        let at = 64 * (i as usize % 4);
        let entry = entry_in(page, at);
        let slot = page[at + 38];
        if !is_place(&entries[..i as usize], &slots[..i as usize], &entry, slot) {
            return None;
        }
        entries[i as usize] = entry;
        slots[i as usize] = slot;
    }
    let release = u32_in(&pages[0], 0);
    let manifest = Manifest {
        release,
        count,
        entries,
    };
    Some(SlotManifest { manifest, slots })
}

fn is_same(a: &[u8; 256], b: &[u8; 256]) -> bool
    ensures { IsTrue result ↔ (a.now ≡ b.now) }
{
    a == b
}

// Whether the pages are those of this manifest.
fn has_pages(m: &SlotManifest, pages: &[[u8; 256]; 5]) -> bool
    requires manifest { IsSlotManifest m.now }
    requires sizes { All (λ p. length p ≡ 256) pages.now }
    ensures { IsTrue result ↔ (concat pages.now ≡ stored_bytes (stored_of m.now)) }
{
    for page in 0..5u8 {
        if !is_same(&slot_page(m, page), &pages[page as usize]) {
            return false;
        }
    }
    true
}

/// The stored manifest whose five pages these are, or `None` where they are no stored manifest's.
pub fn read_slot_pages(pages: &[[u8; 256]; 5]) -> Option<SlotManifest>
    ensures some { IfSome result (λ m. Stores (concat pages.now) (stored_of m)) }
    ensures manifest { IfSome result IsSlotManifest }
    ensures none { IfNone result ((m : StoredRelease) → Stores (concat pages.now) m → ⊥) }
{
    are_pages(pages);
    let count = pages[0][4];
    if count > 16 {
        return None;
    }
    let m = places_in(pages, count)?;
    if has_pages(&m, pages) { Some(m) } else { None }
}
