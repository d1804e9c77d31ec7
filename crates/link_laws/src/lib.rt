//! Laws about the images of sets of components, and about the tables, lists and pages that they are made from.
//!
//! The laws speak of the definitions alone. Each function does nothing, and its contract is the law.
#![tactic(auto)]

ghost use Rattle.link_laws.specs.Laws.{FieldsAreApart, ImageExistsOnce, TableExistsOnce, TableHasRoom, OwnTableTells};
ghost use Rattle.link_laws.specs.Laws.{ListRises, ListHasRoom, OwnListFits, FittingListHasPages, OwnListGivesPages};

/// No two fields of a set share a byte.
pub fn fields_are_apart()
    ensures { FieldsAreApart }
{}

/// A set has exactly one image where no cause refuses it, and none elsewhere.
pub fn image_exists_once()
    ensures { ImageExistsOnce }
{}

/// A set has exactly one table of merged symbols.
pub fn table_exists_once()
    ensures { TableExistsOnce }
{}

/// The numbers of a set's own table have room in the symbol area, if the set has room in flash and RAM.
pub fn table_has_room()
    ensures { TableHasRoom }
{}

/// The own table of a set that nothing refuses, but for an undefined symbol or a field out of range, is a symbol table, of at most 1,024 records.
pub fn own_table_tells()
    ensures { OwnTableTells }
{}

/// The relocation list made from a set and any table rises, and no field in it begins inside another.
pub fn list_rises()
    ensures { ListRises }
{}

/// The relocation list made from a set and any symbol table has room in its area, unless it is too long.
pub fn list_has_room()
    ensures { ListHasRoom }
{}

/// The relocation list of a set that nothing refuses, made from its own table, fits the set.
pub fn own_list_fits()
    ensures { OwnListFits }
{}

/// A relocation list that fits a set gives exactly one list of pages.
pub fn fitting_list_has_pages()
    ensures { FittingListHasPages }
{}

/// The pages patched from a set's own list are the pages of its image.
pub fn own_list_gives_pages()
    ensures { OwnListGivesPages }
{}
