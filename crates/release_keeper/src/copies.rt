//! Copies of what rows hold.
ghost use Rattle.std.specs.Prelude.{◌≡◌, IfOk};

use component_package::{Bytes, NoMemory, Text};
use release_rows::{KeyRow, NumberedParts, SymbolRow};
use std::alloc::Global;

/// A name as this one.
pub(crate) fn copy_name(alloc: Global, name: &[u8]) -> Result<Vec<u8>, NoMemory>
    ensures { IfOk result (λ copy. copy.items ≡ name.now) }
{
    Ok(name.to_vec(alloc)?)
}

/// A text as this one.
pub(crate) fn copy_text(alloc: Global, text: &Text) -> Result<Text, NoMemory>
    ensures { IfOk result (λ copy. copy ≡ text.now) }
{
    Ok(Text::of(String::from_str(alloc, text.as_str())?))
}

/// Bytes as these.
pub(crate) fn copy_bytes(alloc: Global, bytes: &Bytes) -> Result<Bytes, NoMemory>
    ensures { IfOk result (λ copy. copy ≡ bytes.now) }
{
    Ok(Bytes::of(bytes.as_slice().to_vec(alloc)?))
}

/// Components of a release as these.
pub(crate) fn copy_parts(alloc: Global, parts: &NumberedParts) -> Result<NumberedParts, NoMemory>
    ensures { IfOk result (λ copy. copy ≡ parts.now) }
{
    Ok(NumberedParts::of(parts.as_slice().to_vec(alloc)?))
}

/// A symbol as this one.
pub(crate) fn copy_symbol(alloc: Global, row: &SymbolRow) -> Result<SymbolRow, NoMemory>
    ensures { IfOk result (λ copy. copy ≡ row.now) }
{
    Ok(SymbolRow {
        number: row.number,
        name: copy_bytes(alloc, &row.name)?,
    })
}

/// A key as this one.
pub(crate) fn copy_key(alloc: Global, row: &KeyRow) -> Result<KeyRow, NoMemory>
    ensures { IfOk result (λ copy. copy ≡ row.now) }
{
    Ok(KeyRow {
        key: copy_text(alloc, &row.key)?,
        digest: row.digest,
        body: copy_text(alloc, &row.body)?,
    })
}
