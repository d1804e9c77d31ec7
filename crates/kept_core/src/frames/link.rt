//! LINK.

ghost use Rattle.std.specs.Prelude.{length, List, true, false, OnOk, ◌≡◌, ◌≤◌, IfOk, IfErr, IfSome, Some, None, Option};
ghost use Rattle.std.specs.Result.{is_ok};
ghost use Rattle.flash_pages.specs.State.{State};
ghost use Rattle.flash_pages.specs.Board.{Reads, UsesFlash, FlashFaults, FlashFaultsWhere, Told};
ghost use Rattle.component_package.specs.link.Link.{rooms_of, room_cause};
ghost use Rattle.kept_definitions.specs.Machine.{Mote};
ghost use Rattle.component_package.specs.mote.Sides.{sym, rel, img};
ghost use Rattle.component_package.specs.packages.Component.{Component};
ghost use Rattle.component_store.specs.Sets.{SetFaultIs, is_set_fault};
ghost use Rattle.kept_definitions.specs.Kept.{set_fault};
ghost use Rattle.kept_manifests.specs.Slots.{IsSlotManifest, stored_of};
ghost use Rattle.kept_store.specs.Sets.{IsSet, HoldsSet};
ghost use Rattle.kept_journal.specs.Steps.{parts};
ghost use Rattle.kept_journal.specs.Standing.{HasManifests};
ghost use Rattle.kept_symbols.specs.Stored.{IsPlanOf};
ghost use Rattle.kept_relocs.specs.List.{relocs_of};
ghost use Rattle.component_package.specs.mote.Machine.{range_number};
ghost use Rattle.kept_sessions.specs.Lines.{prints};
ghost use Rattle.kept_core.specs.Serving.{is_late_cause, StaysFormatted};
ghost use Rattle.kept_core.specs.Wear.{WearsRead, WorksIn, SparesList, SparesStaged};
ghost use Rattle.kept_core.specs.Frames.{link_frame, LeavesRead, DoesRead};
ghost use Rattle.kept_core.specs.Links.{comes_of, Opens, Counts, Flags, Links, site_answer, IsStagedFor, IsLinking, IsEarlyFree, Refuses, Goes, LeavesLink};

use avr_reloc::RangeFault;
use component_package::{Answer, Entry, Header};
use component_store::SetFault;
use flash_pages::{Board, Failed};
use kept_journal::{Stage, Standing, mark};
use kept_manifests::SlotManifest;
use kept_relocs::{BuildFault, build, check_relocs, count_relocs};
use kept_stage::stage;
use kept_store::{StoredSet, open_current, open_set};
use kept_symbols::{MergeFault, count_symbols, merge, plan_of_set};
use layout_plan::{Plan, PlanFault};

// Merges the symbols of the set, unless that was done. It answers the cause that it finds.
fn make_symbols<B: Board>(
    board: &mut B,
    is_made: bool,
    set: &StoredSet,
    plan: &Plan,
) -> Result<Option<Answer>, Failed>
    requires set { IsSet set.now }
    requires plan { IsPlanOf set.now plan.now }
    ensures goes { IfOk result (λ a. Told (B.view board.old) (λ s. (t : Mote) → IsLinking t set.now s → IsEarlyFree (comes_of t set.now) → is_made ≡ (parts s).gates sym →
        Goes t set.now true ((parts s).gates rel) a s (B.view board.new))) }
    ensures leaves { LeavesLink set.now (λ t s. IsEarlyFree (comes_of t set.now) × (is_made ≡ (parts s).gates sym)) 33 (B.view board.old) (B.view board.new) }
    ensures wears { Told (B.view board.old) (λ s. WorksIn 18 49 (is_ok result) s (B.view board.old) (B.view board.new)) }
    ensures line { IfOk result (λ a. IfSome a (λ b. prints b ≡ true)) }
    ensures uses { UsesFlash (B.view board.old) (B.view board.new) }
    ensures faults { FlashFaults result (B.view board.old) (B.view board.new) }
{
    if is_made {
        return Ok(None);
    }
    match merge(board, set, plan) {
        Ok(_) => {}
        Err(MergeFault::Duplicate(symbol, first, second)) => {
            return Ok(Some(Answer::Duplicate(symbol, first, second)));
        }
        Err(MergeFault::Symbols(count)) => return Ok(Some(Answer::Symbols(count))),
        Err(MergeFault::Fault) => return Err(Failed),
    }
    mark(board, Stage::Symbols)?;
    Ok(None)
}

// The number of a range fault, as the line `range` says it.
fn range_number(fault: RangeFault) -> u8
    ensures { result ≡ range_number fault }
{
    match fault {
        RangeFault::Odd => 1,
        RangeFault::TooFar(_) => 2,
    }
}

// The line of a cause that a relocation has, if the fault is one.
fn site_answer(fault: BuildFault) -> Option<Answer>
    ensures answer { result ≡ site_answer fault }
    ensures line { IfSome result (λ a. prints a ≡ true) }
{
    match fault {
        BuildFault::Undefined(k, r, symbol) => Some(Answer::Undefined(k, r, symbol)),
        BuildFault::Range(k, r, fault) => Some(Answer::Range(k, r, range_number(fault))),
        BuildFault::Relocations(_) | BuildFault::Fault => None,
    }
}

// Lists the relocations of the set, unless that was done. It answers the cause that it finds.
fn make_relocs<B: Board>(
    board: &mut B,
    is_made: bool,
    set: &StoredSet,
    plan: &Plan,
) -> Result<Option<Answer>, Failed>
    requires set { IsSet set.now }
    requires plan { IsPlanOf set.now plan.now }
    requires few { relocs_of set.now ≤ 8192 }
    ensures goes { IfOk result (λ a. Told (B.view board.old) (λ s. (t : Mote) → IsLinking t set.now s → (parts s).gates sym ≡ true → is_made ≡ (parts s).gates rel →
        Goes t set.now true true a s (B.view board.new))) }
    ensures leaves { LeavesLink set.now (λ t s. ((parts s).gates sym ≡ true) × (is_made ≡ (parts s).gates rel)) 257 (B.view board.old) (B.view board.new) }
    ensures wears { Told (B.view board.old) (λ s. WorksIn 50 305 (is_ok result) s (B.view board.old) (B.view board.new)) }
    ensures spares { Told (B.view board.old) (λ s. (t : Mote) → IsLinking t set.now s → (parts s).gates sym ≡ true →
        SparesList (comes_of t set.now) s (B.view board.old) (B.view board.new)) }
    ensures line { IfOk result (λ a. IfSome a (λ b. prints b ≡ true)) }
    ensures uses { UsesFlash (B.view board.old) (B.view board.new) }
    ensures faults { FlashFaults result (B.view board.old) (B.view board.new) }
{
    if is_made {
        return Ok(None);
    }
    match check_relocs(board, set, plan) {
        Ok(()) => {}
        Err(fault) => {
            let answer = site_answer(fault);
            if answer.is_none() {
                return Err(Failed);
            }
            return Ok(answer);
        }
    }
    build(board, set, plan)?;
    mark(board, Stage::Relocs)?;
    Ok(None)
}

// Stages the image of the set.
fn make_image<B: Board>(board: &mut B, set: &StoredSet, plan: &Plan) -> Result<(), Failed>
    requires set { IsSet set.now }
    requires plan { IsPlanOf set.now plan.now }
    ensures done { OnOk result (Told (B.view board.old) (λ s. (t : Mote) → IsLinking t set.now s → (parts s).gates rel ≡ true → (parts s).gates img ≡ false →
        IsStagedFor t set.now (B.view board.new))) }
    ensures leaves { LeavesLink set.now (λ t s. ((parts s).gates rel ≡ true) × ((parts s).gates img ≡ false)) 481 (B.view board.old) (B.view board.new) }
    ensures wears { Told (B.view board.old) (λ s. WorksIn 306 785 (is_ok result) s (B.view board.old) (B.view board.new)) }
    ensures spares { Told (B.view board.old) (λ s. (t : Mote) → IsLinking t set.now s → (parts s).gates rel ≡ true →
        SparesStaged (comes_of t set.now) s (B.view board.old) (B.view board.new)) }
    ensures uses { UsesFlash (B.view board.old) (B.view board.new) }
    ensures faults { FlashFaults result (B.view board.old) (B.view board.new) }
{
    stage(board, set, plan)?;
    mark(board, Stage::Image)?;
    Ok(())
}

// Contracts learn by it how long the lists of a set are.
fn room(entries: &[Entry; 16], slots: &[u8; 16], headers: &[Header; 16]) -> usize
    ensures entries { length entries.now ≡ 16 }
    ensures slots { length slots.now ≡ 16 }
    ensures headers { length headers.now ≡ 16 }
{
    entries.len().min(slots.len()).min(headers.len())
}

// The plan of a set, or the line of the cause that it has none.
fn plan_set(set: &StoredSet) -> Result<Plan, Answer>
    requires { IsSet set.now }
    ensures plan { IfOk result (IsPlanOf set.now) }
    ensures room { IfOk result (λ plan. (s : State) → (components : List Component) → HoldsSet s set.now components → room_cause (rooms_of components) ≡ None) }
    ensures refuses { IfErr result (λ a. (s : State) → (components : List Component) → HoldsSet s set.now components → Refuses components a) }
    ensures early { IfErr result (λ a. is_late_cause a ≡ false) }
    ensures line { IfErr result (λ a. prints a ≡ true) }
{
    let _ = room(&set.slots.manifest.entries, &set.slots.slots, &set.headers);
    match plan_of_set(set) {
        Ok(plan) => Ok(plan),
        Err(PlanFault::Flash(total)) => Err(Answer::Flash(total)),
        Err(PlanFault::Ram(total)) => Err(Answer::Ram(total)),
    }
}

// The line of the cause that a set that has room exports or relocates too much, if it does.
fn count_set<B: Board>(board: &mut B, set: &StoredSet) -> Result<Option<Answer>, Failed>
    requires { IsSet set.now }
    ensures counts { IfOk result (λ a. Told (B.view board.old) (λ s. (components : List Component) → HoldsSet s set.now components →
        room_cause (rooms_of components) ≡ None → Counts a components)) }
    ensures few { IfOk result (λ a. a ≡ None → relocs_of set.now ≤ 8192) }
    ensures line { IfOk result (λ a. IfSome a (λ b. prints b ≡ true)) }
    ensures reads { Reads (B.view board.old) (B.view board.new) }
    ensures faults { FlashFaults result (B.view board.old) (B.view board.new) }
{
    match count_symbols(board, set) {
        Ok(_) => {}
        Err(MergeFault::Symbols(count)) => return Ok(Some(Answer::Symbols(count))),
        Err(MergeFault::Duplicate(_, _, _)) => return Err(Failed),
        Err(MergeFault::Fault) => return Err(Failed),
    }
    match count_relocs(set) {
        Ok(_) => Ok(None),
        Err(BuildFault::Relocations(count)) => Ok(Some(Answer::Relocations(count))),
        Err(BuildFault::Undefined(_, _, _)) => Err(Failed),
        Err(BuildFault::Range(_, _, _)) => Err(Failed),
        Err(BuildFault::Fault) => Err(Failed),
    }
}

// Merges the symbols of the set and lists its relocations, each unless that was done. It answers the cause that it finds.
fn make_areas<B: Board>(
    board: &mut B,
    standing: &Standing,
    set: &StoredSet,
    plan: &Plan,
) -> Result<Option<Answer>, Failed>
    requires set { IsSet set.now }
    requires plan { IsPlanOf set.now plan.now }
    requires few { relocs_of set.now ≤ 8192 }
    ensures goes { IfOk result (λ a. Told (B.view board.old) (λ s. (t : Mote) → IsLinking t set.now s → IsEarlyFree (comes_of t set.now) → Flags standing.now.symbols standing.now.relocs s →
        Goes t set.now true true a s (B.view board.new))) }
    ensures leaves { LeavesLink set.now (λ t s. IsEarlyFree (comes_of t set.now) × Flags standing.now.symbols standing.now.relocs s) 290 (B.view board.old) (B.view board.new) }
    ensures wears { Told (B.view board.old) (λ s. WorksIn 18 305 (is_ok result) s (B.view board.old) (B.view board.new)) }
    ensures spares { Told (B.view board.old) (λ s. (t : Mote) → IsLinking t set.now s → IsEarlyFree (comes_of t set.now) → Flags standing.now.symbols standing.now.relocs s →
        SparesList (comes_of t set.now) s (B.view board.old) (B.view board.new)) }
    ensures line { IfOk result (λ a. IfSome a (λ b. prints b ≡ true)) }
    ensures uses { UsesFlash (B.view board.old) (B.view board.new) }
    ensures faults { FlashFaults result (B.view board.old) (B.view board.new) }
{
    match make_symbols(board, standing.symbols, set, plan) {
        Ok(None) => {}
        Ok(Some(answer)) => return Ok(Some(answer)),
        Err(_) => return Err(Failed),
    }
    match make_relocs(board, standing.relocs, set, plan) {
        Ok(answer) => Ok(answer),
        Err(_) => Err(Failed),
    }
}

// Links the set, from where it was left.
fn link_set<B: Board>(board: &mut B, standing: &Standing, set: &StoredSet) -> Result<Answer, Failed>
    requires { IsSet set.now }
    ensures links { IfOk result (λ a. Told (B.view board.old) (λ s. (t : Mote) → IsLinking t set.now s → Flags standing.now.symbols standing.now.relocs s →
        Links t set.now a s (B.view board.new))) }
    ensures leaves { LeavesLink set.now (λ t s. Flags standing.now.symbols standing.now.relocs s) 771 (B.view board.old) (B.view board.new) }
    ensures wears { Told (B.view board.old) (λ s. WorksIn 18 785 (is_ok result) s (B.view board.old) (B.view board.new)) }
    ensures list { Told (B.view board.old) (λ s. (t : Mote) → IsLinking t set.now s → Flags standing.now.symbols standing.now.relocs s →
        SparesList (comes_of t set.now) s (B.view board.old) (B.view board.new)) }
    ensures staged { Told (B.view board.old) (λ s. (t : Mote) → IsLinking t set.now s → Flags standing.now.symbols standing.now.relocs s →
        SparesStaged (comes_of t set.now) s (B.view board.old) (B.view board.new)) }
    ensures line { IfOk result (λ a. prints a ≡ true) }
    ensures uses { UsesFlash (B.view board.old) (B.view board.new) }
    ensures faults { FlashFaults result (B.view board.old) (B.view board.new) }
{
    let plan = match plan_set(set) {
        Ok(plan) => plan,
        Err(answer) => return Ok(answer),
    };
    match count_set(board, set) {
        Ok(None) => {}
        Ok(Some(answer)) => return Ok(answer),
        Err(_) => return Err(Failed),
    }
    match make_areas(board, standing, set, &plan) {
        Ok(None) => {}
        Ok(Some(answer)) => return Ok(answer),
        Err(_) => return Err(Failed),
    }
    match make_image(board, set, &plan) {
        Ok(()) => Ok(Answer::Linked(set.slots.manifest.release)),
        Err(_) => Err(Failed),
    }
}

// Opens what comes in over the installed set.
fn open_coming<B: Board>(
    board: &mut B,
    current: &SlotManifest,
    incoming: &SlotManifest,
) -> Result<StoredSet, SetFault>
    requires current { IsSlotManifest current.now }
    requires incoming { IsSlotManifest incoming.now }
    ensures answer { is_set_fault result ≡ false → Told (B.view board.old) (λ s. (t : Mote) → Opens t current.now incoming.now s →
        SetFaultIs result (set_fault t.inbox (stored_of incoming.now))) }
    ensures slots { IfOk result (λ set. set.slots ≡ incoming.now) }
    ensures set { IfOk result IsSet }
    ensures linking { IfOk result (λ set. Told (B.view board.old) (λ s. (t : Mote) → Opens t current.now incoming.now s → IsLinking t set s)) }
    ensures reads { Reads (B.view board.old) (B.view board.new) }
    ensures faults { FlashFaultsWhere (is_set_fault result) (B.view board.old) (B.view board.new) }
{
    let Ok(set) = open_current(board, current) else {
        return Err(SetFault::Fault);
    };
    match open_set(board, incoming, &set) {
        Ok(coming) => Ok(coming),
        Err(fault) => Err(fault),
    }
}

/// Links what comes in over the installed set, if it is whole: merges its symbols, lists its relocations and stages its image, each unless that was done.
pub(crate) fn serve_link<B: Board>(board: &mut B, standing: &Standing) -> Result<Answer, Failed>
    requires { HasManifests standing.now }
    ensures works { LeavesRead standing.now link_frame (B.view board.old) (B.view board.new) }
    ensures does { IfOk result (λ a. DoesRead standing.now link_frame (B.view board.old) (B.view board.new) a) }
    ensures wear { WearsRead (is_ok result) standing.now link_frame (B.view board.old) (B.view board.new) }
    ensures formatted { IfOk result (λ a. Told (B.view board.old) (λ z. StaysFormatted z (B.view board.new))) }
    ensures line { IfOk result (λ a. prints a ≡ true) }
    ensures uses { UsesFlash (B.view board.old) (B.view board.new) }
    ensures faults { FlashFaults result (B.view board.old) (B.view board.new) }
{
    if standing.pending {
        return Ok(Answer::Reboot(standing.current.manifest.release));
    }
    let Some(incoming) = &standing.incoming else {
        return Ok(Answer::NoManifest);
    };
    if standing.image {
        return Ok(Answer::Linked(incoming.manifest.release));
    }
    let set = match open_coming(board, &standing.current, incoming) {
        Ok(set) => set,
        Err(SetFault::Missing(k)) => return Ok(Answer::Missing(k)),
        Err(SetFault::BadPackage(k, fault)) => return Ok(Answer::BadPackage(k, fault)),
        Err(SetFault::Fault) => return Err(Failed),
    };
    match link_set(board, standing, &set) {
        Ok(answer) => Ok(answer),
        Err(_) => Err(Failed),
    }
}
