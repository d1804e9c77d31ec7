//! Names of components and of motes.

ghost use Rattle.std.specs.Prelude.{◌≡◌};
ghost use Rattle.std.specs.List.{list_all};
ghost use Rattle.http_bodies.specs.Names.{is_name as name_test, is_name_byte as byte_test};

// `a` to `z`, `0` to `9` or `_`.
fn is_name_byte(b: u8) -> bool
    ensures { result ≡ byte_test b }
{
    b.is_ascii_lowercase() || b.is_ascii_digit() || b == b'_'
}

fn are_name_bytes(bytes: &[u8]) -> bool
    ensures { result ≡ list_all byte_test bytes.now }
{
    bytes.iter().all(|b| is_name_byte(*b))
}

/// Whether a text is a name of a component or a mote: 1 to 32 bytes of `a` to `z`, `0` to `9` and `_`.
pub fn is_name(text: &str) -> bool
    ensures { result ≡ name_test text.now }
{
    if text.is_empty() {
        return false;
    }
    if text.len() > 32 {
        return false;
    }
    are_name_bytes(text.as_bytes())
}
