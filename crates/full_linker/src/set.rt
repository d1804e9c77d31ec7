//! Whether packages may be linked.

ghost use Rattle.std.specs.Prelude.{◌≡◌, ◌↔◌, ◌==◌, None, map, IsTrue, IfOk};
ghost use Rattle.std.specs.List.{All, list_any};
ghost use Rattle.component_package.specs.packages.Reading.{package_fault};
ghost use Rattle.component_package.specs.packages.Manifest.{AreDistinct};
ghost use Rattle.full_linker.specs.Linkable.{AreLinkable};

use crate::parts::views_of;
use component_package::{Bytes, PackageView, read_package};
use std::alloc::{AllocError, Global};

fn is_package(bytes: &Bytes) -> bool
    ensures { IsTrue result ↔ (package_fault bytes.now ≡ None) }
{
    read_package(bytes.as_slice()).is_ok()
}

fn are_packages(set: &[Bytes]) -> bool
    ensures { IsTrue result ↔ All (λ b. package_fault b ≡ None) set.now }
{
    for bytes in set {
        if !is_package(bytes) {
            return false;
        }
    }
    true
}

fn occurs(numbers: &[u16], number: u16) -> bool
    ensures { result ≡ list_any (λ n. n == number) numbers.now }
{
    numbers.iter().any(|n| *n == number)
}

fn are_distinct(numbers: &[u16]) -> bool
    ensures { IsTrue result ↔ AreDistinct numbers.now }
{
    for i in 0..numbers.len() {
        if occurs(&numbers[i + 1..], numbers[i]) {
            return false;
        }
    }
    true
}

fn numbers_of(alloc: Global, views: &[PackageView<'_>]) -> Result<Vec<u16>, AllocError>
    ensures { IfOk result (λ v. v.items ≡ map (λ c. c.component) views.now) }
{
    let mut numbers = Vec::new(alloc);
    for view in views {
        numbers.push(view.header().component)?;
    }
    Ok(numbers)
}

/// Whether [`link`](crate::link) takes these: at most 16 packages without a fault, of different
/// components. `Err` is want of memory.
pub fn may_be_linked(alloc: Global, set: &[Bytes]) -> Result<bool, AllocError>
    ensures { IfOk result (λ b. IsTrue b ↔ AreLinkable set.now) }
{
    if 16 < set.len() {
        return Ok(false);
    }
    if !are_packages(set) {
        return Ok(false);
    }
    let views = views_of(alloc, set)?;
    let numbers = numbers_of(alloc, &views)?;
    Ok(are_distinct(&numbers))
}
