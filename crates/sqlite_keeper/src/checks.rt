//! Whether stored packages and releases are what they have to be.

ghost use Rattle.std.specs.Prelude.{◌≡◌, ◌↔◌, ◌==◌, IsTrue};
ghost use Rattle.std.specs.List.{list_any};
ghost use Rattle.release_rows.specs.Change.{IsPackageOf, IsPartList};

use component_package::read_package;
use release_rows::Numbered;

/// Whether bytes are a package without a fault, of this component in this version.
pub fn is_package_of(bytes: &[u8], component: u16, version: u16) -> bool
    ensures { IsTrue result ↔ IsPackageOf component version bytes.now }
{
    match read_package(bytes) {
        Ok(package) => {
            let header = package.header();
            header.component == component && header.version == version
        }
        Err(_) => false,
    }
}

// Whether a part of this component is among these.
fn has_component(parts: &[Numbered], component: u16) -> bool
    ensures { result ≡ list_any (λ p. p.component == component) parts.now }
{
    parts.iter().any(|p| p.component == component)
}

/// Whether these are 1 to 16 different components.
pub fn is_part_list(parts: &[Numbered]) -> bool
    ensures { IsTrue result ↔ IsPartList parts.now }
{
    if parts.is_empty() {
        return false;
    }
    if 16 < parts.len() {
        return false;
    }
    for at in 0..parts.len() {
        if has_component(&parts[at + 1..], parts[at].component) {
            return false;
        }
    }
    true
}
