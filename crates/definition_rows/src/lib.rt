//! Rows and laws that pin the definitions of the product: if one of them said something else, a row here would fail.
//!
//! Each function does nothing, and its contract is the rows, which `specs/` says in full. Whole runs of the mote machine and images of sets are worked in `proofs/`, by computing.
#![tactic(auto)]

ghost use Rattle.definition_rows.specs.MachineRows.{MachineRows};
ghost use Rattle.definition_rows.specs.LinkRows.{LayoutRows, CausesInOrder, CauseRows, LateCauses};
ghost use Rattle.definition_rows.specs.SoundRows.{EachFieldCounts, EachImageCounts, EachGateCounts};
ghost use Rattle.definition_rows.specs.LinkedRow.{LinkedIsSound};
ghost use Rattle.definition_rows.specs.LineRows.{LinesCount};

/// Answers of the mote machine, each of which pins one test or which of two tests comes first.
pub fn machine_rows()
    ensures { MachineRows }
{}

/// Where the parts, symbols and fields of two components stand.
pub fn layout_rows()
    ensures { LayoutRows }
{}

/// The order of the causes that keep a set from having an image.
pub fn causes_in_order()
    ensures { CausesInOrder }
{}

/// Two sets with two causes each.
pub fn cause_rows()
    ensures { CauseRows }
{}

/// Symbols can be merged in spite of an undefined symbol or a field out of range, and of no other cause.
pub fn late_causes()
    ensures { LateCauses }
{}

/// Parts that aren't formatted, are installed twice, or whose chosen set is missing or refused aren't sound.
pub fn each_field_counts()
    ensures { EachFieldCounts }
{}

/// The image that a sound mote boots, or installs, is one: other pages aren't sound.
pub fn each_image_counts()
    ensures { EachImageCounts }
{}

/// An open gate with anything missing of what it vouches for isn't sound.
pub fn each_gate_counts()
    ensures { EachGateCounts }
{}

/// A mote with a linked release that isn't committed is sound: there is one with all five gates open.
pub fn linked_is_sound()
    ensures { LinkedIsSound }
{}

/// What the headline says after `committed N` and after `booted N`.
pub fn lines_count()
    ensures { LinesCount }
{}
