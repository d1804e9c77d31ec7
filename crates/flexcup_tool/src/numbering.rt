//! The numbers of names, as a file of names gives them: one name a line, and the first has number 16.

ghost use Rattle.std.specs.Prelude.{◌≡◌, ◌↔◌, ◌==◌, ◌≤◌, IsTrue, IfOk, length};
ghost use Rattle.std.specs.List.{All, list_any};
ghost use Rattle.component_package.specs.packages.Manifest.{AreDistinct};

use anyhow::{Context, Result, bail, ensure};
use object_packer::Names;
use std::alloc::Global;
use std::collections::BTreeMap;

/// The first number that a name may have; those below it are the parts and the linker's symbols.
const FIRST_NUMBER: usize = 16;

/// The names of a file, with their numbers, and those that were added behind them.
#[derive(Drop)]
pub(crate) struct Numbering<'a> {
    numbers: BTreeMap<&'a [u8], u16>,
    added: Vec<&'a [u8]>,
}

impl<'a> Numbering<'a> {
    /// The names of a file, by lines. A line that is empty or has an earlier line's name is refused.
    pub(crate) fn of(alloc: Global, text: &'a [u8]) -> Result<Numbering<'a>> {
        let mut names = Numbering {
            numbers: BTreeMap::new(alloc),
            added: Vec::new(alloc),
        };
        if text.is_empty() {
            return Ok(names);
        }
        let lines = text.strip_suffix(b"\n").unwrap_or(text);
        for line in lines.split(|b| *b == b'\n') {
            let place = names.numbers.len().saturating_add(1);
            ensure!(!line.is_empty(), "line {place} of the names is empty");
            ensure!(
                !names.numbers.contains_key(line),
                "line {place} of the names repeats a name"
            );
            names.insert(line)?;
        }
        Ok(names)
    }

    // Gives a name the next number.
    fn insert(&mut self, name: &'a [u8]) -> Result<u16> {
        let next = self.numbers.len().saturating_add(FIRST_NUMBER);
        let number = u16::try_from(next).context("a name has a number above 65535")?;
        self.numbers.insert(name, number)?;
        Ok(number)
    }

    // The number of a name; one that has none is added.
    fn number_of(&mut self, name: &'a [u8]) -> Result<u16> {
        if let Some(number) = self.numbers.get(name).copied() {
            return Ok(number);
        }
        ensure!(!name.is_empty(), "a symbol has no name");
        if name.contains(&b'\n') {
            bail!("a symbol's name has a newline");
        }
        let number = self.insert(name)?;
        self.added.push(name)?;
        Ok(number)
    }

    /// The numbers of an object's names, in their order. Those that have none are added.
    pub(crate) fn numbers_of(&mut self, alloc: Global, names: &Names<'a>) -> Result<Vec<u16>>
        ensures { IfOk result (λ v. length v.items ≡ length names.now) }
    {
        let mut numbers = Vec::new(alloc);
        for i in 0..names.len() {
            numbers.push(self.number_of(names.name(i))?)?;
        }
        Ok(numbers)
    }

    /// The lines of the names that were added.
    pub(crate) fn added_lines(&self, alloc: Global) -> Result<Vec<u8>> {
        let mut lines = Vec::new(alloc);
        for name in &self.added {
            lines.extend_from_slice(name)?;
            lines.push(b'\n')?;
        }
        Ok(lines)
    }
}

fn occurs(numbers: &[u16], number: u16) -> bool
    ensures { result ≡ list_any (λ n. n == number) numbers.now }
{
    numbers.iter().any(|n| *n == number)
}

/// Whether numbers are different.
pub(crate) fn are_distinct(numbers: &[u16]) -> bool
    ensures { IsTrue result ↔ AreDistinct numbers.now }
{
    for i in 0..numbers.len() {
        if occurs(&numbers[i + 1..], numbers[i]) {
            return false;
        }
    }
    true
}

/// Whether numbers are those of symbols.
pub(crate) fn are_symbols(numbers: &[u16]) -> bool
    ensures { IsTrue result ↔ All (λ n. 16 ≤ n) numbers.now }
{
    numbers.iter().all(|n| 16 <= *n)
}
