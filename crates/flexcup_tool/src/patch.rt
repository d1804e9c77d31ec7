//! `patch`: what a relocation makes of a field.
//!
//! Each line of standard input is `TYPE S_PLUS_A PLACE BYTES`: the type's number, S+A and the
//! field's address in decimal, and the bytes that the field has now in hex. For each, a line has
//! the patched bytes in hex, or `odd`, or `too far N`. Another line ends the program with a message
//! on standard error and status 1.

ghost use Rattle.std.specs.Prelude.{◌↔◌, IsTrue, IfOk};
ghost use Rattle.avr_reloc.specs.Field.{IsNear};

use anyhow::{Context, Result, bail, ensure};
use avr_reloc::{RangeFault, RelocType, patch_of};
use std::alloc::Global;
use std::process::ExitCode;

/// Whether a patch may be asked for with this number.
fn is_near(v: i64) -> bool
    ensures { IsTrue result ↔ IsNear v }
{
    -(1 << 40) <= v && v <= 1 << 40
}

fn number(text: &str) -> Result<i64>
    ensures { IfOk result IsNear }
{
    let v = text.parse::<i64>().context("a number in decimal")?;
    if is_near(v) {
        Ok(v)
    } else {
        bail!("{v} is not from -2^40 to 2^40")
    }
}

fn relocation_type(text: &str) -> Result<RelocType> {
    let number = text.parse::<u8>().context("a type's number")?;
    RelocType::of_number(number).context("a type from 1 to 29")
}

/// The bytes of a field, patched or why not.
fn shown(
    alloc: Global,
    kind: RelocType,
    s_plus_a: i64,
    place: i64,
    field: &mut [u8],
) -> Result<String>
    requires sum { IsNear s_plus_a }
    requires place { IsNear place }
{
    ensure!(
        field.len() == kind.width() as usize,
        "the field has {} bytes",
        kind.width()
    );
    match patch_of(kind, s_plus_a, place) {
        Ok(patch) => {
            for i in 0..patch.width {
                field[i as usize] = patch.byte(i, field[i as usize]);
            }
            Ok(hex::encode(alloc, &*field)?)
        }
        Err(RangeFault::Odd) => Ok(String::from_str(alloc, "odd")?),
        Err(RangeFault::TooFar(v)) => Ok(format!(in alloc; "too far {v}")?),
    }
}

fn answer(alloc: Global, line: &str) -> Result<String> {
    let mut words = line.split_whitespace();
    let kind = relocation_type(words.next().context("no type")?)?;
    let s_plus_a = number(words.next().context("no S+A")?)?;
    let place = number(words.next().context("no place")?)?;
    let mut field = hex::decode(alloc, words.next().context("no bytes")?)?;
    ensure!(words.next().is_none(), "more than four words");
    shown(alloc, kind, s_plus_a, place, &mut field)
}

/// Answers each line of standard input.
pub(crate) fn show_lines(rt: &HostRuntime) -> Result<ExitCode> {
    for line in rt.lines(rt.alloc()) {
        let answer = answer(rt.alloc(), line?.as_str())?;
        println!(rt; "{answer}")?;
    }
    Ok(ExitCode::SUCCESS)
}
