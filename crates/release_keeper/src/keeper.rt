//! What keeps rows and takes changes of them.
ghost use Rattle.release_rows.specs.Change.{IsSound};
ghost use Rattle.release_keeper.specs.Keeper.{Applies};

use release_rows::{Change, Rows, RowsFault};

/// What keeps rows and takes changes of them.
pub trait Keeper: Rows {
    /// Makes a change, whole or not at all. A version's package has to be one of its component and version, and a release has 1 to 16
    /// different components; all else that a change says is taken as it is.
    fn apply(&mut self, change: &Change) -> Result<(), RowsFault>
        requires { IsSound change.now.effect }
        ensures { Applies change.now result (Self.view self.old) (Self.view self.new) };
}
