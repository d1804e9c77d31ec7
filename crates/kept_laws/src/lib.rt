//! Laws over the second layout of external flash: the sets that are taken back from an image, soundness and the mote machine.
//!
//! Each function does nothing: its contract is the law.
#![tactic(auto)]

ghost use Rattle.kept_laws.specs.Laws.{TakenBack, KeptIsTheSet, GoingIsTheSet, ComingIsOnItsWay, GoingIsKept};
ghost use Rattle.kept_laws.specs.Stored.{StoredReleaseIsOne};
ghost use Rattle.kept_laws.specs.Steps.{ClosingKeeps, WritingKeeps, OpeningKeeps, CommitIsWhole, SelectingKeeps, FinishingKeeps, RestIsFree};
ghost use Rattle.kept_laws.specs.Stands.{PartsStandForOne, RestingStepsStand, CutCommitIsWhole, StandingStepsStand};
ghost use Rattle.kept_laws.specs.Slots.{SlotIsFree, SlotsAreFound};
ghost use Rattle.kept_laws.specs.Programs.{EachPageIsInOnePart};
ghost use Rattle.kept_laws.specs.Formatted.{FormattedIsSound};
ghost use Rattle.kept_laws.specs.Runs.{RefusalsChangeNothing, MachineIsTotal, OnlyItsAnswerChanges, AnswersTellTheCurrent, RunsJoin, CommitsRise, CommitsAreWhole, OnlyCommitsChoose};
ghost use Rattle.kept_laws.specs.Store.{RunTells, PartsAreCleared, TablesAreFilled, ComingIsFaultless, SlotsAreInOneRow};
ghost use Rattle.kept_laws.specs.Words.{WordsSayWhatTheyMean, ImageIsTheChosens};
ghost use Rattle.kept_laws.specs.Standing.{SoundPartsTell, GatesStay};
ghost use Rattle.kept_laws.specs.Counts.{EachFieldCounts, EachImageCounts, EachGateCounts};
ghost use Rattle.kept_laws.specs.LinkedRow.{LinkedIsSound};
ghost use Rattle.kept_laws.specs.LineRows.{LinesCount};
ghost use Rattle.kept_laws.specs.Clearing.{ClearingGoesOn};
ghost use Rattle.kept_laws.specs.Held.{InstalledIsReadable};
ghost use Rattle.kept_laws.specs.Invariant.{MotesStayMotes, SoundIsAMote};

/// One stored release has one form in bytes, and one list of bytes is one stored release's at most.
pub fn stored_release_is_one()
    ensures { StoredReleaseIsOne }
{}

/// The packages of a set are taken back from the runs of its components and its pages.
pub fn taken_back()
    ensures { TakenBack }
{}

/// A set whose runs begin the table slots of its release is the one that its own pages give back, and what is found there begins the slots.
pub fn kept_is_the_set()
    ensures { KeptIsTheSet }
{}

/// So is a set that is being installed, whose fresh packages are in the inbox.
pub fn going_is_the_set()
    ensures { GoingIsTheSet }
{}

/// An incoming set over an installed one can be installed from its staged pages.
pub fn coming_is_on_its_way()
    ensures { ComingIsOnItsWay }
{}

/// What is being installed is kept, once the runs of its fresh entries are in their table slots.
pub fn going_is_kept()
    ensures { GoingIsKept }
{}

/// Closing Img, Rel, Sym and Man, in this order, keeps a mote sound and what it chooses.
pub fn closing_keeps()
    ensures { ClosingKeeps }
{}

/// Writing the other side, an area, the inbox, program flash or a fresh entry's table slot while the gates allow it keeps a mote sound and what it chooses.
pub fn writing_keeps()
    ensures { WritingKeeps }
{}

/// Opening Man, Sym, Rel or Img where what it vouches for holds keeps a mote sound and what it chooses.
pub fn opening_keeps()
    ensures { OpeningKeeps }
{}

/// Opening the other side's Go gate where Img is open leaves a sound mote, which chooses what it chose or the incoming set.
pub fn commit_is_whole()
    ensures { CommitIsWhole }
{}

/// Bringing Sel over while a Go gate is open keeps a mote sound and what it chooses.
pub fn selecting_keeps()
    ensures { SelectingKeeps }
{}

/// Closing the Go gate last, with all runs in the tables, keeps a mote sound and what it chooses.
pub fn finishing_keeps()
    ensures { FinishingKeeps }
{}

/// Sound parts stand for exactly one mote of the machine.
pub fn parts_stand_for_one()
    ensures { PartsStandForOne }
{}

/// The mote that the parts stand for after each step of the journal where no commit stands.
pub fn resting_steps_stand()
    ensures { RestingStepsStand }
{}

/// A cut in a commit leaves parts that stand for the mote after it or before it.
pub fn cut_commit_is_whole()
    ensures { CutCommitIsWhole }
{}

/// Nothing of a boot's steps is seen until the Go gate is closed, and then no commit stands.
pub fn standing_steps_stand()
    ensures { StandingStepsStand }
{}

/// What is in the inbox, and in a table slot behind its run, is free for the application where nothing is merged.
pub fn rest_is_free()
    ensures { RestIsFree }
{}

/// A slot is free where fewer than 16 are taken.
pub fn slot_is_free()
    ensures { SlotIsFree }
{}

/// Each entry of a release over a stored one has a slot of its own; what isn't held is fresh.
pub fn slots_are_found()
    ensures { SlotsAreFound }
{}

/// A page of external flash is one gate, or is in one area or one slot, and a program of it changes nothing else.
pub fn each_page_is_in_one_part()
    ensures { EachPageIsInOnePart }
{}

/// A formatted board is sound, and stands for the mote with the empty release.
pub fn formatted_is_sound()
    ensures { FormattedIsSound }
{}

/// A refusal changes nothing of what a mote holds.
pub fn refusals_change_nothing()
    ensures { RefusalsChangeNothing }
{}

/// The mote machine answers each frame.
pub fn machine_is_total()
    ensures { MachineIsTotal }
{}

/// What boots changes only at `committed`, what comes in only at `manifest`, `committed` and `aborted`, the inbox only at `piece`.
pub fn only_its_answer_changes()
    ensures { OnlyItsAnswerChanges }
{}

/// `committed` and `booted` name the current release.
pub fn answers_tell_the_current()
    ensures { AnswersTellTheCurrent }
{}

/// A run over frames and then more frames is the two runs, one behind the other.
pub fn runs_join()
    ensures { RunsJoin }
{}

/// The releases of a session's commits rise strictly from the one at entry.
pub fn commits_rise()
    ensures { CommitsRise }
{}

/// Nothing refuses a set that a session commits.
pub fn commits_are_whole()
    ensures { CommitsAreWhole }
{}

/// What boots changes where a commit comes to stand, and nowhere else.
pub fn only_commits_choose()
    ensures { OnlyCommitsChoose }
{}

/// A slot that begins with a run has its header, exports and relocations.
pub fn run_tells()
    ensures { RunTells }
{}

/// A byte of a part is program flash's with the value bits of its field cleared.
pub fn parts_are_cleared()
    ensures { PartsAreCleared }
{}

/// A fresh entry's table slot can be filled with its run, one after another.
pub fn tables_are_filled()
    ensures { TablesAreFilled }
{}

/// There is an incoming set exactly where nothing is missing and no package is bad.
pub fn coming_is_faultless()
    ensures { ComingIsFaultless }
{}

/// The fields of a component may be cleared one after another.
pub fn clearing_goes_on()
    ensures { ClearingGoesOn }
{}

/// The components of an installed set can be read at the bases of their code and data.
pub fn installed_is_readable()
    ensures { InstalledIsReadable }
{}

/// Whatever frames of bytes come, the current set is its release's, nothing refuses it, and what is linked is whole.
pub fn motes_stay_motes()
    ensures { MotesStayMotes }
{}

/// What sound parts stand for is such a mote, where their inbox slots are whole and hold bytes.
pub fn sound_is_a_mote()
    ensures { SoundIsAMote }
{}

/// Inbox slots and table slots stand in one row of places.
pub fn slots_are_in_one_row()
    ensures { SlotsAreInOneRow }
{}

/// Where the releases of the sides are known, each word of soundness says what it says of them.
pub fn words_say_what_they_mean()
    ensures { WordsSayWhatTheyMean }
{}

/// The chosen set's image is in program flash where no commit stands, and staged where one does; it is its release's, and nothing refuses it.
pub fn image_is_the_chosens()
    ensures { ImageIsTheChosens }
{}

/// Sound parts aren't unformatted, and what is read of their gates and sides is what their mote holds.
pub fn sound_parts_tell()
    ensures { SoundPartsTell }
{}

/// A gate that is set to what it is changes nothing.
pub fn gates_stay()
    ensures { GatesStay }
{}

/// Parts that aren't formatted, are installed twice, or whose chosen set is missing, refused or not in its pages aren't sound.
pub fn each_field_counts()
    ensures { EachFieldCounts }
{}

/// The image that a sound mote boots, or installs, is the only one of its set.
pub fn each_image_counts()
    ensures { EachImageCounts }
{}

/// An open gate with anything missing of what it vouches for isn't sound.
pub fn each_gate_counts()
    ensures { EachGateCounts }
{}

/// A mote with a linked release that isn't committed is sound, with five gates open, and so it is after the installation.
pub fn linked_is_sound()
    ensures { LinkedIsSound }
{}

/// What the headline says after `committed N` and after `booted N`.
pub fn lines_count()
    ensures { LinesCount }
{}
