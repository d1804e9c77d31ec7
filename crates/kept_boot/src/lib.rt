//! Starting the chosen release: a copy of the staged image into program flash, and of the runs of new components into their table slots, that
//! goes on after a power cut, wherever it came.
//!
//! A Go gate says that the copy is to be done, and is closed only when all is at its end. So a cut leaves the gate open, the staged image and
//! the inbox whole, and the next boot programs the pages that still differ and writes the runs anew. No call takes memory.
#![tactic(auto)]

ghost use Rattle.std.specs.Prelude.{◌≡◌, ◌<◌, ◌+◌, ◌↔◌, true, IsTrue, OnOk, OnErr, IfOk, Some};
ghost use Rattle.flash_pages.specs.State.{State, Prog, Ext, page_at, with_page};
ghost use Rattle.flash_pages.specs.Board.{View, Programs, Reads, UsesFlash, Told, FlashFaults, FlashFaultsWhere};
ghost use Rattle.kept_definitions.specs.Sides.{is_pending};
ghost use Rattle.kept_definitions.specs.Machine.{Mote};
ghost use Rattle.kept_journal.specs.Steps.{parts, Stands, Step, Takes, Becomes, Pends, any_mote, boots, stays, finished};
ghost use Rattle.kept_manifests.specs.Slots.{IsSlotManifest, place_of, stored_of};
ghost use Rattle.kept_boot.specs.Bringing.{KeepsOne, Brings};
ghost use Rattle.kept_boot.specs.Boots.{booted, boot_pages, boot_programs, HasStarted, Lags, IsBehind, WearsProgram, copied, one_run, with_runs, Installs, one_table, fresh_tables, installed_pages, program_pages, BootAnswers, is_fault, is_unformatted};

use component_package::areas::{IMAGE_PAGES, STAGED};
use flash_pages::{Board, Failed};
use kept_journal::{JournalFault, finish, read_state};
use kept_manifests::SlotManifest;
use kept_store::keep_tables;
use std::error::Error;
use std::fmt;

/// Why no release is started.
#[derive(Clone, Copy, Debug, PartialEq, Eq)]
pub enum BootFault {
    /// A call of the board failed.
    Fault,
    /// The board isn't formatted, or says of no side that it is to boot.
    Unformatted,
}

/// Why, in the words of the journal.
impl fmt::Display for BootFault {
    fn fmt<W: fmt::Write>(&self, f: &mut fmt::Formatter<W>) -> fmt::Result {
        match self {
            BootFault::Fault => write!(f, "{}", JournalFault::Fault),
            BootFault::Unformatted => write!(f, "{}", JournalFault::Unformatted),
        }
    }
}

impl Error for BootFault {}

fn is_same(a: &[u8; 256], b: &[u8; 256]) -> bool
    ensures { IsTrue result ↔ (a.now ≡ b.now) }
{
    a == b
}

// Brings a staged page into program flash where it differs.
fn copy_page<B: Board>(board: &mut B, page: u16) -> Result<(), Failed>
    requires { page < 480 }
    ensures ok { OnOk result (Told (B.view board.old) (λ s.
        (B.view board.new).state ≡ Some (with_page s (Prog page) (page_at s (Ext (306 + page)))))) }
    ensures programs { Programs (λ s.
        IsBehind (parts s) page) (Prog page) (B.view board.old) (B.view board.new) }
    ensures faults { FlashFaults result (B.view board.old) (B.view board.new) }
{
    let mut staged = [0; 256];
    board.ext_read(STAGED + page, &mut staged)?;
    let mut there = [0; 256];
    board.prog_read(page, &mut there)?;
    if !is_same(&there, &staged) {
        board.prog_program(page, &staged)?;
    }
    Ok(())
}

// Brings the staged image into program flash.
fn copy_staged<B: Board>(board: &mut B) -> Result<(), Failed>
    ensures ok { OnOk result (Told (B.view board.old) (λ s. (B.view board.new).state ≡ Some (copied s))) }
    ensures stands { OnOk result (Told (B.view board.old) (λ s.
        (t : Mote) → Stands s t → Pends t → Stands (copied s) t)) }
    ensures each { Told (B.view board.old) (λ s.
        Takes (Step Pends program_pages s) program_pages 480
        (B.view board.old) (B.view board.new)) }
    ensures wear { Told (B.view board.old) (λ s.
        WearsProgram (IsBehind (parts s)) (B.view board.old) (B.view board.new)) }
    ensures uses { UsesFlash (B.view board.old) (B.view board.new) }
    ensures faults { FlashFaults result (B.view board.old) (B.view board.new) }
{
    for page in 0..IMAGE_PAGES {
        copy_page(board, page)?;
    }
    Ok(())
}

// Brings the run of an entry into its table slot, where the entry is fresh.
fn keep_run<B: Board>(board: &mut B, m: &SlotManifest, k: u8) -> Result<(), Failed>
    requires manifest { IsSlotManifest m.now }
    requires entry { k < m.now.manifest.count }
    ensures ok { OnOk result (Told (B.view board.old) (λ s.
        (B.view board.new).state ≡ Some (one_run (place_of m.now k) s))) }
    ensures kept { OnOk result (Told (B.view board.old) (λ s. (t : Mote) → Stands s t →
        Installs (stored_of m.now) t →
        KeepsOne (place_of m.now k) t s (one_run (place_of m.now k) s))) }
    ensures each { Told (B.view board.old) (λ s.
        Takes (Step (Installs (stored_of m.now)) (one_table (place_of m.now k)) s)
        (one_table (place_of m.now k)) 39 (B.view board.old) (B.view board.new)) }
    ensures uses { UsesFlash (B.view board.old) (B.view board.new) }
    ensures faults { FlashFaults result (B.view board.old) (B.view board.new) }
{
    if m.fresh[k as usize] {
        keep_tables(board, m, k)?;
    }
    Ok(())
}

// Brings the runs of all fresh entries into their table slots.
fn keep_runs<B: Board>(board: &mut B, m: &SlotManifest) -> Result<(), Failed>
    requires { IsSlotManifest m.now }
    ensures ok { OnOk result (Told (B.view board.old) (λ s.
        (B.view board.new).state ≡ Some (with_runs (stored_of m.now).placed s))) }
    ensures kept { OnOk result (Told (B.view board.old) (λ s. (t : Mote) → Stands s t →
        Installs (stored_of m.now) t → Brings m.now m.now.manifest.count t s
        (with_runs (stored_of m.now).placed s))) }
    ensures each { Told (B.view board.old) (λ s.
        Takes (Step (Installs (stored_of m.now)) (fresh_tables (stored_of m.now).placed) s)
        (fresh_tables (stored_of m.now).placed) 624 (B.view board.old) (B.view board.new)) }
    ensures uses { UsesFlash (B.view board.old) (B.view board.new) }
    ensures faults { FlashFaults result (B.view board.old) (B.view board.new) }
{
    for k in 0..m.manifest.count {
        keep_run(board, m, k)?;
    }
    Ok(())
}

// Copies the staged image, brings the runs into the tables, and ends the installation.
fn install<B: Board>(board: &mut B, m: &SlotManifest) -> Result<(), Failed>
    requires { IsSlotManifest m.now }
    ensures ok { OnOk result (Told (B.view board.old) (λ s.
        Becomes (finished (parts (with_runs (stored_of m.now).placed (copied s))))
        (Installs (stored_of m.now)) boots s (B.view board.new))) }
    ensures each { Told (B.view board.old) (λ s.
        Takes (Step (Installs (stored_of m.now)) (installed_pages (stored_of m.now).placed) s)
        (installed_pages (stored_of m.now).placed) 1110
        (B.view board.old) (B.view board.new)) }
    ensures wear { Told (B.view board.old) (λ s.
        WearsProgram (IsBehind (parts s)) (B.view board.old) (B.view board.new)) }
    ensures uses { UsesFlash (B.view board.old) (B.view board.new) }
    ensures faults { FlashFaults result (B.view board.old) (B.view board.new) }
{
    copy_staged(board)?;
    keep_runs(board, m)?;
    finish(board)?;
    Ok(())
}

/// Starts the chosen release and answers its number. Where a commit stands, it programs each program page that differs from the staged one,
/// writes the run of each fresh entry of the release into its table slot, and ends the installation; where none stands it programs nothing.
///
/// From a sound board each state that a cut may leave is sound and boots the same release. `Unformatted` comes exactly where [`read_state`]
/// answers so, and changes nothing; `Fault` comes only where flash faults rose.
pub fn boot<B: Board>(board: &mut B) -> Result<u32, BootFault>
    ensures answer { Told (B.view board.old) (λ s. BootAnswers result (parts s)) }
    ensures ok { IfOk result (λ r. Told (B.view board.old) (λ s.
        Becomes (booted s) any_mote boots s (B.view board.new))) }
    ensures started { IfOk result (λ r. Told (B.view board.old) (λ s.
        (t : Mote) → Stands s t → HasStarted t r (B.view board.new))) }
    ensures each { Told (B.view board.old) (λ s.
        Takes (Step any_mote (boot_pages (parts s)) s) (boot_pages (parts s))
        (boot_programs (is_pending (parts s))) (B.view board.old) (B.view board.new)) }
    // Each program page is programmed once at most, and only where it differs from the staged page.
    ensures wear { Told (B.view board.old) (λ s.
        WearsProgram (Lags (parts s)) (B.view board.old) (B.view board.new)) }
    ensures refused { is_unformatted result ≡ true → Reads (B.view board.old) (B.view board.new) }
    ensures uses { UsesFlash (B.view board.old) (B.view board.new) }
    ensures faults { FlashFaultsWhere (is_fault result) (B.view board.old) (B.view board.new) }
{
    let standing = match read_state(board) {
        Err(JournalFault::Fault) => return Err(BootFault::Fault),
        Err(JournalFault::Unformatted) => return Err(BootFault::Unformatted),
        Ok(standing) => standing,
    };
    if standing.pending {
        let Ok(()) = install(board, &standing.current) else {
            return Err(BootFault::Fault);
        };
    }
    Ok(standing.current.manifest.release)
}
