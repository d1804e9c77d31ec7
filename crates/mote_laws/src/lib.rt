//! Laws over the definitions of sides, soundness and the mote machine, which the journal and the mote's core rest on.
//!
//! Each function does nothing: its contract is the law, and `specs/` says it in full. The lemmas in `proofs/` are for the crates above to cite.
#![tactic(auto)]

ghost use Rattle.mote_laws.specs.Steps.{ClosingKeeps, WritingKeeps, SlotWritingKeeps, OpeningKeeps, CommitIsWhole, SelectingKeeps, FinishingKeeps};
ghost use Rattle.mote_laws.specs.Programs.{EachPageIsInOnePart, JoinedPageIsPut};
ghost use Rattle.mote_laws.specs.Runs.{RefusalsChangeNothing, MachineIsTotal, OnlyItsAnswerChanges, CommitsRise, AnswersTellTheCurrent, RunsJoin, CommitsAreWhole};
ghost use Rattle.mote_laws.specs.Slots.{SlotIsFree, SlotsAreFound};
ghost use Rattle.mote_laws.specs.Motes.{PartsStandForOne};
ghost use Rattle.mote_laws.specs.Formatted.{FormattedIsSound};
ghost use Rattle.mote_laws.specs.Sets.{SetsAreFaultless, OtherSetsStay};
ghost use Rattle.mote_laws.specs.Stands.{ChoiceIsTheMotes, OnlyCommitsChoose, RestingStepsStand, CutCommitIsWhole, StandingStepsStand};
ghost use Rattle.mote_laws.specs.Words.{WordsSayWhatTheyMean, ImageIsTheChosens};
ghost use Rattle.mote_laws.specs.Standing.{SoundPartsTell, GatesStay};
ghost use Rattle.mote_laws.specs.Invariant.{FramesAreByteFrames, MotesStayMotes, SoundIsAMote};

/// Closing Img, Rel, Sym and Man, in this order, keeps a mote sound and what it chooses.
pub fn closing_keeps()
    ensures { ClosingKeeps }
{}

/// Writing a page of the other side, of an area or of program flash while its gate allows it keeps a mote sound and what it chooses.
pub fn writing_keeps()
    ensures { WritingKeeps }
{}

/// Writing a slot that the chosen release doesn't use keeps a mote sound and what it chooses.
pub fn slot_writing_keeps()
    ensures { SlotWritingKeeps }
{}

/// Opening Man, Sym, Rel or Img where what it vouches for holds keeps a mote sound and what it chooses.
pub fn opening_keeps()
    ensures { OpeningKeeps }
{}

/// Opening the other side's Go gate where Img is open leaves a sound mote, which chooses what it chose or the other side's release.
pub fn commit_is_whole()
    ensures { CommitIsWhole }
{}

/// Bringing Sel over while a Go gate is open keeps a mote sound and what it chooses.
pub fn selecting_keeps()
    ensures { SelectingKeeps }
{}

/// Closing the Go gate last keeps a mote sound and what it chooses.
pub fn finishing_keeps()
    ensures { FinishingKeeps }
{}

/// A page of external flash is one gate, or is in one area or one slot, and a program of it changes nothing else.
pub fn each_page_is_in_one_part()
    ensures { EachPageIsInOnePart }
{}

/// Whole pages joined, with one of them set, differ in its 256 bytes alone.
pub fn joined_page_is_put()
    ensures { JoinedPageIsPut }
{}

/// A refusal changes nothing of what a mote holds.
pub fn refusals_change_nothing()
    ensures { RefusalsChangeNothing }
{}

/// The mote machine answers each frame.
pub fn machine_is_total()
    ensures { MachineIsTotal }
{}

/// The release that boots changes only at `committed`, what comes in only at `manifest`, `committed` and `aborted`, the slots only at `piece`, and a commit stands until `booted`.
pub fn only_its_answer_changes()
    ensures { OnlyItsAnswerChanges }
{}

/// The releases of a session's commits rise strictly from the one at entry.
pub fn commits_rise()
    ensures { CommitsRise }
{}

/// `committed` and `booted` name the current release.
pub fn answers_tell_the_current()
    ensures { AnswersTellTheCurrent }
{}

/// A run over frames and then more frames is the two runs, one behind the other.
pub fn runs_join()
    ensures { RunsJoin }
{}

/// A mote is linked only where its incoming set is whole, and nothing refuses a set that a session commits.
pub fn commits_are_whole()
    ensures { CommitsAreWhole }
{}

/// A slot is free where fewer than 32 are taken.
pub fn slot_is_free()
    ensures { SlotIsFree }
{}

/// Each entry of a release over a stored one has a slot of its own: the held ones theirs, and the others one that the current release doesn't use.
pub fn slots_are_found()
    ensures { SlotsAreFound }
{}

/// Sound parts stand for exactly one mote of the machine, whose incoming release is above the current one.
pub fn parts_stand_for_one()
    ensures { PartsStandForOne }
{}

/// A formatted board is sound, and stands for the mote with the empty release.
pub fn formatted_is_sound()
    ensures { FormattedIsSound }
{}

/// Slots hold a release's set exactly where nothing is missing and no package is bad, and its components are then the grammar's.
pub fn sets_are_faultless()
    ensures { SetsAreFaultless }
{}

/// A slot that a release doesn't use may become anything: its set stays. An entry that isn't held has such a slot.
pub fn other_sets_stay()
    ensures { OtherSetsStay }
{}

/// Parts choose what their mote boots, and nothing else.
pub fn choice_is_the_motes()
    ensures { ChoiceIsTheMotes }
{}

/// What a sound mote boots changes where a commit comes to stand, and nowhere else.
pub fn only_commits_choose()
    ensures { OnlyCommitsChoose }
{}

/// The mote that the parts stand for after each step of the journal where no commit stands.
pub fn resting_steps_stand()
    ensures { RestingStepsStand }
{}

/// A cut in a commit leaves parts that stand for the mote after it or before it.
pub fn cut_commit_is_whole()
    ensures { CutCommitIsWhole }
{}

/// Nothing of a boot's steps is seen until the Go gate is closed, and then no commit stands.
pub fn standing_steps_stand()
    ensures { StandingStepsStand }
{}

/// Where a side's release is known, each word of soundness says what it says of that release.
pub fn words_say_what_they_mean()
    ensures { WordsSayWhatTheyMean }
{}

/// The chosen set's image is in program flash where no commit stands, and staged where one does.
pub fn image_is_the_chosens()
    ensures { ImageIsTheChosens }
{}

/// The payloads of the frames that a line gives are bytes.
pub fn frames_are_byte_frames()
    ensures { FramesAreByteFrames }
{}

/// Whatever frames of bytes come, the slots hold the set that boots, nothing refuses it, and it changes where a commit comes to stand alone.
pub fn motes_stay_motes()
    ensures { MotesStayMotes }
{}

/// What sound parts stand for is such a mote, where their slots hold bytes.
pub fn sound_is_a_mote()
    ensures { SoundIsAMote }
{}

/// Sound parts aren't unformatted, and what is read of their gates and sides is what their mote holds.
pub fn sound_parts_tell()
    ensures { SoundPartsTell }
{}

/// A gate that is set to what it is changes nothing.
pub fn gates_stay()
    ensures { GatesStay }
{}
