//! Laws on a session's lines and on what it keeps wherever power is cut, where external flash is in the second layout.
//!
//! Each function does nothing: its contract is the law, and `specs/` says it in full. The lemmas in `proofs/` are for the crates above to cite.
#![tactic(auto)]

ghost use Rattle.kept_sessions.specs.Lines.{AnswersHaveLines, LinesTellTheCurrent, LinesTellAnswers, FirstPartsTell};
ghost use Rattle.kept_sessions.specs.History.{NumbersRise, LinesTellTheMote, ChoicesAreInHistory};
ghost use Rattle.kept_sessions.specs.Kept.{FramesLeave, FramesAreKept};
ghost use Rattle.kept_sessions.specs.Chains.{SessionsChain};

/// A line has one line feed, at its end; `Ended` and `Unformatted` have no line.
pub fn answers_have_lines()
    ensures { AnswersHaveLines }
{}

/// The line of `committed` or `booted` is no other answer's, and tells its number.
pub fn lines_tell_the_current()
    ensures { LinesTellTheCurrent }
{}

/// Answers that have lines are told apart by them.
pub fn lines_tell_answers()
    ensures { LinesTellAnswers }
{}

/// In a first part of the lines of some answers a whole line `committed` or `booted` is that of one of them.
pub fn first_parts_tell()
    ensures { FirstPartsTell }
{}

/// The number of the release that boots never falls, and is at least that of each `committed`.
pub fn numbers_rise()
    ensures { NumbersRise }
{}

/// What was sent tells the release that boots: at least the last `committed`, and just the last `booted`.
pub fn lines_tell_the_mote()
    ensures { LinesTellTheMote }
{}

/// What boots after any first part of a run is in the run's history.
pub fn choices_are_in_history()
    ensures { ChoicesAreInHistory }
{}

/// What a cut may leave while a frame is served.
pub fn frames_leave()
    ensures { FramesLeave }
{}

/// Each state that a cut may leave is kept, frame by frame.
pub fn frames_are_kept()
    ensures { FramesAreKept }
{}

/// What the headline says of one session holds of any number of them, each started in what the former one, or a cut in it, left.
pub fn sessions_chain()
    ensures { SessionsChain }
{}
