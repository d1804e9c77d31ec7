//! The rule of versions.

ghost use Rattle.std.specs.Prelude.{◌≡◌, ◌≤◌, true, None, IfOk, length};
ghost use Rattle.component_package.specs.packages.Component.{spelling};
ghost use Rattle.object_packer.specs.Faults.{pack_fault};
ghost use Rattle.object_packer.specs.Names.{names as names_of, number_in};
ghost use Rattle.object_packer.specs.Packed.{packed};
ghost use Rattle.release_rows.specs.declared.change.Effect.TheVariants as effects;
ghost use Rattle.release_rows.specs.View.{Told, Reads};
ghost use Rattle.release_judging.specs.declared.judged.Judged.{Judged};
ghost use Rattle.release_judging.specs.Judging.{IsSoundly};
ghost use Rattle.release_versions.specs.Faults.{IsFewBytes};
ghost use Rattle.release_versions.specs.Versions.{are_symbols as symbols_test, judged_names, judged_object, judged_version};

use crate::component::{component_for, version_for};
use crate::numbers::{are_symbols, known_numbers, new_count, numbers_from, rows_from};
use crate::refusal::{elf_refusal, pack_refusal};
use avr_elf::{ObjectView, read_object};
use component_package::{Bytes, NoMemory, write_package};
use object_packer::{Names, PackFault, names_of, pack};
use release_judging::{Judged, refused, text_of};
use release_rows::{Effect, Rows, RowsFault, SymbolRows};
use std::alloc::Global;

/// How many numbers of symbols there are.
const MAX_SYMBOLS: u64 = 65_520;
/// The number of the first symbol.
const FIRST_SYMBOL: u32 = 16;

// The version of a component with the package of an object whose names have these numbers.
fn keep_version<'a>(
    alloc: Global,
    name: &str,
    object: &'a ObjectView<'a>,
    component: u16,
    version: u16,
    numbers: &[u16],
    symbols: SymbolRows,
) -> Result<Judged, NoMemory>
    requires accepted { pack_fault object.now ≡ None }
    requires count { length numbers.now ≡ length (names_of object.now) }
    requires symbols { symbols_test numbers.now ≡ true }
    ensures judged { IfOk result (λ j. j ≡ Judged.Does (effects.Version name.now component version symbols (spelling (packed object.now component version (number_in (names_of object.now) numbers.now))))) }
    ensures sound { IfOk result IsSoundly }
{
    let package = pack(alloc, object, component, version, numbers)?;
    let bytes = write_package(alloc, &package)?;
    let name = text_of(alloc, name)?;
    Ok(Judged::Does(Effect::Version {
        name,
        component,
        version,
        symbols,
        package: Bytes::of(bytes),
    }))
}

// What the rules say of an object whose names are known, for a version of a component.
fn judge_names<'a, R: Rows>(
    alloc: Global,
    rows: &mut R,
    name: &str,
    object: &'a ObjectView<'a>,
    names: &Names<'a>,
    component: u16,
    version: u16,
) -> Result<Judged, RowsFault>
    requires accepted { pack_fault object.now ≡ None }
    requires names { names.now ≡ names_of object.now }
    ensures judged { IfOk result (λ j. Told (R.view rows.old) (λ t. j ≡ judged_names t name.now object.now component version)) }
    ensures sound { IfOk result IsSoundly }
    ensures reads { Reads result (R.view rows.old) (R.view rows.new) }
{
    let count = rows.symbol_count()?;
    let known = known_numbers(alloc, rows, names)?;
    if MAX_SYMBOLS < count as u64 + new_count(&known) as u64 {
        return Ok(refused(alloc, 51, &[])?);
    }
    let first = FIRST_SYMBOL + count;
    let numbers = numbers_from(alloc, &known, first)?;
    if !are_symbols(alloc, &numbers)? {
        return Ok(refused(alloc, 51, &[])?);
    }
    let symbols = rows_from(alloc, names, &known, first)?;
    Ok(keep_version(alloc, name, object, component, version, &numbers, symbols)?)
}

// What the rules say of an object that can be packed.
fn judge_packable<'a, R: Rows>(
    alloc: Global,
    rows: &mut R,
    name: &str,
    object: &'a ObjectView<'a>,
    names: &Names<'a>,
) -> Result<Judged, RowsFault>
    requires accepted { pack_fault object.now ≡ None }
    requires names { names.now ≡ names_of object.now }
    ensures judged { IfOk result (λ j. Told (R.view rows.old) (λ t. j ≡ judged_object t name.now object.now None)) }
    ensures sound { IfOk result IsSoundly }
    ensures reads { Reads result (R.view rows.old) (R.view rows.new) }
{
    let Some(component) = component_for(rows, name)? else {
        return Ok(refused(alloc, 52, &[])?);
    };
    let Some(version) = version_for(rows, component)? else {
        return Ok(refused(alloc, 53, &[])?);
    };
    judge_names(alloc, rows, name, object, names, component, version)
}

// What the rules say of an object.
fn judge_object<'a, R: Rows>(
    alloc: Global,
    rows: &mut R,
    name: &str,
    object: &'a ObjectView<'a>,
) -> Result<Judged, RowsFault>
    requires { IsFewBytes (pack_fault object.now) }
    ensures judged { IfOk result (λ j. Told (R.view rows.old) (λ t. j ≡ judged_object t name.now object.now (pack_fault object.now))) }
    ensures sound { IfOk result IsSoundly }
    ensures reads { Reads result (R.view rows.old) (R.view rows.new) }
{
    match names_of(alloc, object) {
        Ok(names) => judge_packable(alloc, rows, name, object, &names),
        Err(PackFault::Memory) => Err(RowsFault::Memory),
        Err(fault) => Ok(pack_refusal(alloc, fault)?),
    }
}

/// What the rules say of an object file of at most 262,144 bytes that is to be kept as the next version of a component.
///
/// `Failed` comes only where a call on the rows failed, and `Memory` where there was none. It looks up each of the object's names once.
pub fn judge_version<R: Rows>(
    alloc: Global,
    rows: &mut R,
    name: &str,
    object: &[u8],
) -> Result<Judged, RowsFault>
    requires { length object.now ≤ 262144 }
    ensures judged { IfOk result (λ j. Told (R.view rows.old) (λ t. j ≡ judged_version t name.now object.now)) }
    ensures sound { IfOk result IsSoundly }
    ensures reads { Reads result (R.view rows.old) (R.view rows.new) }
{
    match read_object(object) {
        Ok(view) => judge_object(alloc, rows, name, &view),
        Err(fault) => Ok(elf_refusal(alloc, fault)?),
    }
}
