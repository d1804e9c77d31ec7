//! What the rows of an answer say. A value outside its type's range is a fault.

ghost use Rattle.std.specs.Prelude.{◌≡◌, ◌-◌, nat_lt, if◌then◌else◌, pos, length, IfOk, IfErr, Ok, Err, ◌≢◌};
ghost use Rattle.sqlite_value.specs.Order.{column};
ghost use Rattle.sqlite_value.specs.declared.value.Value.TheVariants.{Int, Text as SqlText, Blob};
ghost use Rattle.release_rows.specs.Change.{IsPackageOf, IsPartList};
ghost use Rattle.release_rows.specs.declared.rows.RowsFault.TheVariants.{Failed};
ghost use Rattle.sqlite_keeper.specs.Stored.{IsKeyIn, IsPartIn, ArePartsFrom};

use crate::checks::{is_package_of, is_part_list};
use crate::database::fault_of;
use component_package::{Bytes, Text};
use release_rows::{KeyRow, Numbered, NumberedParts, RowsFault};
use sqlite::Row;
use sqlite::types::FromSql;
use std::alloc::Global;

// The first number of a symbol.
const FIRST_SYMBOL: u16 = 16;

/// A row's value in this column.
pub(crate) fn value_in<T: FromSql>(row: &Row, at: usize) -> Result<T, RowsFault>
    ensures { IfOk result (T.FromSql.reads_as (column row.now at)) }
{
    match row.get(at) {
        Ok(value) => Ok(value),
        Err(error) => Err(fault_of(error)),
    }
}

/// A row's number of 16 bits in this column.
pub(crate) fn small_in(row: &Row, at: usize) -> Result<u16, RowsFault>
    ensures { IfOk result (λ n. column row.now at ≡ Int (pos n)) }
{
    let number: u32 = value_in(row, at)?;
    match u16::try_from(number) {
        Ok(small) => Ok(small),
        Err(_) => Err(RowsFault::Failed),
    }
}

/// A row's text in this column.
pub(crate) fn text_in(row: &Row, at: usize) -> Result<Text, RowsFault>
    ensures { IfOk result (λ t. column row.now at ≡ SqlText t) }
{
    let text: String = value_in(row, at)?;
    Ok(Text::of(text))
}

/// How many symbols there are up to this one's number.
pub(crate) fn symbols_up_to(number: u16) -> Result<u32, RowsFault>
    ensures { result ≡ (if nat_lt number 16 then Err Failed else Ok (number - 15)) }
{
    if number < FIRST_SYMBOL {
        Err(RowsFault::Failed)
    } else {
        Ok((number - FIRST_SYMBOL) as u32 + 1)
    }
}

fn digest_of(bytes: &[u8]) -> Result<[u8; 32], RowsFault>
    ensures ok { IfOk result (λ digest. digest ≡ bytes.now) }
    ensures err { IfErr result (λ _. length bytes.now ≢ 32) }
{
    if bytes.len() != 32 {
        return Err(RowsFault::Failed);
    }
    let mut digest = [0; 32];
    digest.copy_from_slice(bytes);
    Ok(digest)
}

/// The row of a key, from its digest and its body.
pub(crate) fn key_row_in(alloc: Global, key: &str, row: &Row) -> Result<KeyRow, RowsFault>
    ensures { IfOk result (IsKeyIn key.now row.now) }
{
    let digest: Vec<u8> = value_in(row, 0)?;
    Ok(KeyRow {
        key: Text::of(String::from_str(alloc, key)?),
        digest: digest_of(&digest)?,
        body: text_in(row, 1)?,
    })
}

/// The package in a row, which has to be one of this component in this version.
pub(crate) fn package_in(row: &Row, component: u16, version: u16) -> Result<Bytes, RowsFault>
    ensures stored { IfOk result (λ b. column row.now 0 ≡ Blob b) }
    ensures grammar { IfOk result (IsPackageOf component version) }
{
    let package: Vec<u8> = value_in(row, 0)?;
    if is_package_of(&package, component, version) {
        Ok(Bytes::of(package))
    } else {
        Err(RowsFault::Failed)
    }
}

// The part in a row, which has to be at this place in its release.
fn part_in(row: &Row, ordinal: usize) -> Result<Numbered, RowsFault>
    ensures { IfOk result (IsPartIn row.now ordinal) }
{
    let place: u32 = value_in(row, 0)?;
    if place as usize != ordinal {
        return Err(RowsFault::Failed);
    }
    Ok(Numbered {
        component: small_in(row, 1)?,
        version: small_in(row, 2)?,
    })
}

/// The parts in rows, which have to be the parts of a release in their order.
pub(crate) fn parts_in(alloc: Global, rows: &[Row]) -> Result<NumberedParts, RowsFault>
    ensures rows { IfOk result (ArePartsFrom 0 rows.now) }
    ensures parts { IfOk result IsPartList }
{
    let mut parts = Vec::new(alloc);
    for row in rows {
        let part = part_in(row, parts.len())?;
        parts.push(part)?;
    }
    if is_part_list(&parts) {
        Ok(NumberedParts::of(parts))
    } else {
        Err(RowsFault::Failed)
    }
}
