//! What keeps the rows of a release server, as it is read.
ghost use Rattle.std.specs.Prelude.{◌≡◌, IfOk, IfSome};
ghost use Rattle.release_rows.specs.Tables.{key_row, symbol_number, symbol_count, component_number, component_name, component_count, version_count, stored_package, release_count, stored_release, acknowledged};
ghost use Rattle.release_rows.specs.Change.{IsPackageOf, IsPartList};
ghost use Rattle.release_rows.specs.View.{View, Told, Reads};
ghost use Rattle.release_rows.specs.declared.rows.RowsFault.TheVariants.{Memory};

use crate::list::NumberedParts;
use crate::row::KeyRow;
use component_package::{Bytes, NoMemory, Text};
use std::alloc::{AllocError, AllocFailed};

/// Why rows were not answered.
#[derive(Clone, Copy, Debug, PartialEq, Eq)]
pub enum RowsFault {
    /// A call on what keeps the rows failed, and its count of faults rose.
    Failed,
    /// There was no memory; this says nothing of the rows.
    Memory,
}

impl From<AllocError> for RowsFault {
    ghost from_gives = { λ _ f. f ≡ Memory };

    fn from(_error: AllocError) -> RowsFault {
        RowsFault::Memory
    }
}

impl<T: Drop> From<AllocFailed<T>> for RowsFault {
    ghost from_gives = { λ _ f. f ≡ Memory };

    fn from(_error: AllocFailed<T>) -> RowsFault {
        RowsFault::Memory
    }
}

impl From<NoMemory> for RowsFault {
    ghost from_gives = { λ _ f. f ≡ Memory };

    fn from(_error: NoMemory) -> RowsFault {
        RowsFault::Memory
    }
}

/// What keeps rows. It may tell its tables, as one in memory does, or tell nothing, as one in a database file.
///
/// `view` is all that it shows of itself: its tables, or that it tells none, and its count of faults. What is promised of an answer's
/// rows holds where the tables are told. A package that is answered is one of its component and version, and a release has 1 to 16
/// different components, on everything that keeps rows. No call here changes a row, nor whether the tables are told.
pub trait Rows {
    ghost view: { Self → View };

    /// The row of a key.
    fn key_row(&mut self, key: &str) -> Result<Option<KeyRow>, RowsFault>
        ensures row { IfOk result (λ r. Told (view self.old) (λ t. r ≡ key_row t key.now)) }
        ensures reads { Reads result (view self.old) (view self.new) };

    /// The number of a symbol's name.
    fn symbol_number(&mut self, name: &[u8]) -> Result<Option<u16>, RowsFault>
        ensures row { IfOk result (λ r. Told (view self.old) (λ t. r ≡ symbol_number t name.now)) }
        ensures reads { Reads result (view self.old) (view self.new) };

    /// How many symbols have numbers.
    fn symbol_count(&mut self) -> Result<u32, RowsFault>
        ensures row { IfOk result (λ n. Told (view self.old) (λ t. n ≡ symbol_count t)) }
        ensures reads { Reads result (view self.old) (view self.new) };

    /// The number of a component's name.
    fn component_number(&mut self, name: &str) -> Result<Option<u16>, RowsFault>
        ensures row { IfOk result (λ r. Told (view self.old) (λ t. r ≡ component_number t name.now)) }
        ensures reads { Reads result (view self.old) (view self.new) };

    /// The name of a component's number.
    fn component_name(&mut self, number: u16) -> Result<Option<Text>, RowsFault>
        ensures row { IfOk result (λ r. Told (view self.old) (λ t. r ≡ component_name t number)) }
        ensures reads { Reads result (view self.old) (view self.new) };

    /// How many components there are.
    fn component_count(&mut self) -> Result<u32, RowsFault>
        ensures row { IfOk result (λ n. Told (view self.old) (λ t. n ≡ component_count t)) }
        ensures reads { Reads result (view self.old) (view self.new) };

    /// How many versions a component has.
    fn version_count(&mut self, component: u16) -> Result<u32, RowsFault>
        ensures row { IfOk result (λ n. Told (view self.old) (λ t. n ≡ version_count t component)) }
        ensures reads { Reads result (view self.old) (view self.new) };

    /// The package of a version.
    fn package(&mut self, component: u16, version: u16) -> Result<Option<Bytes>, RowsFault>
        ensures row { IfOk result (λ r. Told (view self.old) (λ t. r ≡ stored_package t component version)) }
        ensures grammar { IfOk result (λ r. IfSome r (IsPackageOf component version)) }
        ensures reads { Reads result (view self.old) (view self.new) };

    /// How many releases a mote has.
    fn release_count(&mut self, mote: &str) -> Result<u32, RowsFault>
        ensures row { IfOk result (λ n. Told (view self.old) (λ t. n ≡ release_count t mote.now)) }
        ensures reads { Reads result (view self.old) (view self.new) };

    /// The components of a release.
    fn release(&mut self, mote: &str, number: u32) -> Result<Option<NumberedParts>, RowsFault>
        ensures row { IfOk result (λ r. Told (view self.old) (λ t. r ≡ stored_release t mote.now number)) }
        ensures parts { IfOk result (λ r. IfSome r IsPartList) }
        ensures reads { Reads result (view self.old) (view self.new) };

    /// The release that a mote said it runs, 0 where it said none.
    fn acknowledged(&mut self, mote: &str) -> Result<u32, RowsFault>
        ensures row { IfOk result (λ n. Told (view self.old) (λ t. n ≡ acknowledged t mote.now)) }
        ensures reads { Reads result (view self.old) (view self.new) };
}
