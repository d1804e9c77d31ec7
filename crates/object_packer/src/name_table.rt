//! Names in the order in which they came, each once, with a place for each.

ghost use Rattle.std.specs.Prelude.{◌≡◌, List, [], ℕ, map, bytes_eq, not, IfOk, OnOk, OnErr};
ghost use Rattle.std.specs.List.{list_any};
ghost use Rattle.object_packer.specs.NameTable.{with_name, place_of_name};

use std::alloc::{AllocError, Global};
use std::collections::BTreeMap;
use std::marker::Model;

/// Different names. Contracts see the list of them.
#[derive(Drop)]
pub(crate) struct NameTable<'a> {
    names: Vec<&'a [u8]>,
    places: BTreeMap<&'a [u8], usize>,
}

impl<'a> Model for NameTable<'a> {
    ghost use Rattle.std.specs.Prelude.{List, ℕ, map};
    ghost use Rattle.object_packer.specs.NameTable.{Finds};

    ghost Value = { List (List ℕ) };

    ghost view = { λ t. map (λ n. n.now) t.names.items };

    ghost invariant = { λ t. Finds t.places (map (λ n. n.now) t.names.items) };
}

impl<'a> NameTable<'a> {
    /// No names.
    pub(crate) fn new(alloc: Global) -> NameTable<'a>
        ensures { result ≡ [] }
    {
        NameTable {
            names: Vec::new(alloc),
            places: BTreeMap::new(alloc),
        }
    }

    /// The place of a name.
    pub(crate) fn find(&self, name: &'a [u8]) -> Option<usize>
        ensures { result ≡ place_of_name self.now name.now }
    {
        self.places.get(name).copied()
    }

    /// Puts a name behind the others unless it is there, and answers whether it was not.
    pub(crate) fn add(&mut self, name: &'a [u8]) -> Result<bool, AllocError>
        ensures names { OnOk result (self.new ≡ with_name self.old name.now) }
        ensures answer { IfOk result (λ new. new ≡ not (list_any (λ n. bytes_eq n name.now) self.old)) }
        ensures err { OnErr result (self.new ≡ self.old) }
    {
        if self.find(name).is_some() {
            return Ok(false);
        }
        self.names.reserve(1)?;
        let place = self.names.len();
        self.places.insert(name, place)?;
        self.names.push_reserved(name);
        Ok(true)
    }

    /// The names.
    pub(crate) fn into_names(self) -> Vec<&'a [u8]>
        ensures { map (λ n. n.now) result.items ≡ self.entry }
    {
        self.names
    }
}
