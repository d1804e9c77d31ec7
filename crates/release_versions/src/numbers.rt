//! Numbers of names.

ghost use Rattle.std.specs.Prelude.{◌≡◌, ◌+◌, ◌<◌, ◌≤◌, nat_le, length, map, IfOk};
ghost use Rattle.std.specs.List.{All, list_all};
ghost use Rattle.release_rows.specs.Tables.{symbol_number};
ghost use Rattle.release_rows.specs.View.{Told, Reads};
ghost use Rattle.release_judging.specs.Judging.{are_distinct as distinct_test};
ghost use Rattle.release_versions.specs.Numbers.{numbers_from, rows_from, new_count};
ghost use Rattle.release_versions.specs.Versions.{are_symbols as symbols_test};

use object_packer::Names;
use release_judging::bytes_of;
use release_rows::{Rows, RowsFault, SymbolRow, SymbolRows};
use std::alloc::{AllocError, Global};

/// The number of each name that has one, in the order of names: one look-up a name.
pub(crate) fn known_numbers<R: Rows>(
    alloc: Global,
    rows: &mut R,
    names: &Names<'_>,
) -> Result<Vec<Option<u16>>, RowsFault>
    ensures known { IfOk result (λ v. Told (R.view rows.old) (λ t. v.items ≡ map (symbol_number t) names.now)) }
    ensures count { IfOk result (λ v. length v.items ≡ length names.now) }
    ensures reads { Reads result (R.view rows.old) (R.view rows.new) }
{
    let mut known = Vec::new(alloc);
    for i in 0..names.len() {
        known.push(rows.symbol_number(names.name(i))?)?;
    }
    Ok(known)
}

/// How many names have no number.
pub(crate) fn new_count(known: &[Option<u16>]) -> usize
    ensures { result ≡ new_count known.now }
{
    let mut count = 0;
    for number in known {
        if number.is_none() {
            count += 1;
        }
    }
    count
}

/// A number for each name: its own where it has one, and from `first` on for the others.
pub(crate) fn numbers_from(
    alloc: Global,
    known: &[Option<u16>],
    first: u32,
) -> Result<Vec<u16>, AllocError>
    requires { first + new_count known.now ≤ 65536 }
    ensures { IfOk result (λ v. v.items ≡ numbers_from first known.now) }
{
    let mut numbers = Vec::new(alloc);
    let mut free = first;
    for number in known {
        match number {
            Some(number) => numbers.push(*number)?,
            None => {
                numbers.push(free as u16)?;
                free += 1;
            }
        }
    }
    Ok(numbers)
}

fn row_of(alloc: Global, number: u16, name: &[u8]) -> Result<SymbolRow, AllocError>
    ensures { IfOk result (λ row. row ≡ record { number = number; name = name.now }) }
{
    let name = bytes_of(alloc, name)?;
    Ok(SymbolRow { number, name })
}

/// Rows for the names that have no number, from `first` on.
pub(crate) fn rows_from(
    alloc: Global,
    names: &Names<'_>,
    known: &[Option<u16>],
    first: u32,
) -> Result<SymbolRows, AllocError>
    requires count { length known.now ≡ length names.now }
    requires room { first + new_count known.now ≤ 65536 }
    ensures { IfOk result (λ rows. rows ≡ rows_from first names.now known.now) }
{
    let mut rows = Vec::new(alloc);
    let mut free = first;
    for i in 0..known.len() {
        match known[i] {
            Some(_) => {}
            None => {
                rows.push(row_of(alloc, free as u16, names.name(i))?)?;
                free += 1;
            }
        }
    }
    Ok(SymbolRows::of(rows))
}

// Whether no two of these numbers below a bound are the same, in time that grows with the bound and with how many there are.
fn are_distinct(alloc: Global, numbers: &[u16], bound: usize) -> Result<bool, AllocError>
    requires { All (λ n. n < bound) numbers.now }
    ensures { IfOk result (λ b. b ≡ distinct_test numbers.now) }
{
    let mut seen = vec![in alloc; false; bound]?;
    for number in numbers {
        if seen[*number as usize] {
            return Ok(false);
        }
        seen[*number as usize] = true;
    }
    Ok(true)
}

fn are_high(numbers: &[u16]) -> bool
    ensures { result ≡ list_all (λ n. nat_le 16 n) numbers.now }
{
    numbers.iter().all(|n| 16 <= *n)
}

/// Whether these can be the numbers of different names: no two are the same, and none is below 16.
pub(crate) fn are_symbols(alloc: Global, numbers: &[u16]) -> Result<bool, AllocError>
    ensures { IfOk result (λ b. b ≡ symbols_test numbers.now) }
{
    if !are_distinct(alloc, numbers, 65_536)? {
        return Ok(false);
    }
    Ok(are_high(numbers))
}
