//! The component and the version that an object is to be kept as.

ghost use Rattle.std.specs.Prelude.{IfOk, ◌≡◌};
ghost use Rattle.release_rows.specs.View.{Told, Reads};
ghost use Rattle.release_versions.specs.Versions.{next_number, component_for, version_for};

use release_rows::{Rows, RowsFault};

/// The number of a component: its own where its name has one, else the next; none where there is no room for one more.
pub(crate) fn component_for<R: Rows>(rows: &mut R, name: &str) -> Result<Option<u16>, RowsFault>
    ensures component { IfOk result (λ r. Told (R.view rows.old) (λ t. r ≡ component_for t name.now)) }
    ensures reads { Reads result (R.view rows.old) (R.view rows.new) }
{
    if let Some(component) = rows.component_number(name)? {
        return Ok(Some(component));
    }
    let count = rows.component_count()?;
    Ok(next_number(count))
}

/// The next version of a component; none where it has as many as there can be.
pub(crate) fn version_for<R: Rows>(rows: &mut R, component: u16) -> Result<Option<u16>, RowsFault>
    ensures version { IfOk result (λ r. Told (R.view rows.old) (λ t. r ≡ version_for t component)) }
    ensures reads { Reads result (R.view rows.old) (R.view rows.new) }
{
    let count = rows.version_count(component)?;
    Ok(next_number(count))
}

// The number behind so many, where there is one.
fn next_number(count: u32) -> Option<u16>
    ensures { result ≡ next_number count }
{
    if 65_535 <= count {
        return None;
    }
    Some((count + 1) as u16)
}
