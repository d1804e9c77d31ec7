//! Laws of versions over kept tables. Each function does nothing, and its contract is the law.

ghost use Rattle.release_versions.specs.Laws.{KeptNumbersDiffer, RefusedForWant};

/// Over kept tables the numbers of an object's names are different, and none is below 16.
pub fn kept_numbers_differ()
    ensures { KeptNumbersDiffer }
{}

/// Over kept tables the refusal 51 comes only where there are too few numbers for an object's new names.
pub fn refused_for_want()
    ensures { RefusedForWant }
{}
