//! Laws of the release machine. The laws speak of the definitions alone; each function does nothing, and its contract is the law.

ghost use Rattle.release_rules.specs.Laws.{AnswersAreOne, OnlyCommandsChange};

/// No question has two answers, and over tables in order each has one.
pub fn answers_are_one()
    ensures { AnswersAreOne }
{}

/// Nothing but an accepted command changes the tables.
pub fn only_commands_change()
    ensures { OnlyCommandsChange }
{}
