//! Whole pages: what they are filled with, and whether two are the same.
ghost use Rattle.std.specs.Prelude.{◌≡◌, ◌≤◌, ◌↔◌, length, IsTrue};
ghost use Rattle.flash_pages.specs.Page.{blank_page, filled_page};

/// A page of 0xFF, as an erased page is.
pub fn blank() -> [u8; 256]
    ensures { result ≡ blank_page }
{
    [0xFF; 256]
}

/// These bytes, at most 256, and 0xFF up to 256.
pub fn filled(bytes: &[u8]) -> [u8; 256]
    requires { length bytes.now ≤ 256 }
    ensures { result ≡ filled_page bytes.now }
{
    let mut page = blank();
    page[..bytes.len()].copy_from_slice(bytes);
    page
}

/// Whether two pages hold the same bytes.
pub fn is_same(a: &[u8; 256], b: &[u8; 256]) -> bool
    ensures { IsTrue result ↔ (a.now ≡ b.now) }
{
    a == b
}
