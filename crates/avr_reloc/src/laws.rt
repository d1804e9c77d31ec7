//! Laws about the definitions alone. Each function does nothing, and its contract is the law.

ghost use Rattle.avr_reloc.specs.Laws.{NumbersMatch, ReadingDetermines, FieldIsDetermined, OlderIsAbsorbed};
ghost use Rattle.avr_reloc.specs.Laws.{ClearingRestores, PutIsDetermined, PutExists};

/// A number is a type's exactly where the type is the number's.
pub fn numbers_match()
    ensures { NumbersMatch }
{}

/// What a field reads, and its bits outside the value bits, determine its bytes.
pub fn reading_determines()
    ensures { ReadingDetermines }
{}

/// A value, and the package's bytes of a field, determine the bytes of the patched field.
pub fn field_is_determined()
    ensures { FieldIsDetermined }
{}

/// A field may be patched again with another value: a patch needs no clean field.
pub fn older_is_absorbed()
    ensures { OlderIsAbsorbed }
{}

/// A patched field whose value bits are cleared has the package's bytes again, if the value bits
/// were 0 there.
pub fn clearing_restores()
    ensures { ClearingRestores }
{}

/// At most one image of bytes has these fields patched over an image.
pub fn put_is_determined()
    ensures { PutIsDetermined }
{}

/// Such an image exists where the fields share no byte and each can hold its value.
pub fn put_exists()
    ensures { PutExists }
{}
