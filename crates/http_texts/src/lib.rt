//! The short texts of a request: names of components and motes, keys of requests, and numbers.
#![tactic(auto)]

ghost use Rattle.std.specs.Prelude.{◌≡◌};
ghost use Rattle.std.specs.List.{list_all};
ghost use Rattle.http_texts.specs.Texts.{is_name_byte as name_byte_test, is_name as name_test, is_key_byte as key_byte_test, is_key as key_test};

mod numeral;

pub use numeral::{Numeral, read_number};

fn is_name_byte(byte: u8) -> bool
    ensures { result ≡ name_byte_test byte }
{
    byte.is_ascii_lowercase() || byte.is_ascii_digit() || byte == b'_'
}

fn are_name_bytes(text: &[u8]) -> bool
    ensures { result ≡ list_all name_byte_test text.now }
{
    text.iter().all(|byte| is_name_byte(*byte))
}

/// Whether a text is a name of a component or of a mote: 1 to 32 bytes of `a` to `z`, `0` to `9` and `_`.
pub fn is_name(text: &[u8]) -> bool
    ensures { result ≡ name_test text.now }
{
    if text.is_empty() || text.len() > 32 {
        return false;
    }
    are_name_bytes(text)
}

fn is_key_byte(byte: u8) -> bool
    ensures { result ≡ key_byte_test byte }
{
    byte.is_ascii_alphanumeric() || byte == b'_' || byte == b'-'
}

fn are_key_bytes(text: &[u8]) -> bool
    ensures { result ≡ list_all key_byte_test text.now }
{
    text.iter().all(|byte| is_key_byte(*byte))
}

/// Whether a text may be the key of a request: 1 to 64 letters, digits, `_` and `-`.
pub fn is_key(text: &[u8]) -> bool
    ensures { result ≡ key_test text.now }
{
    if text.is_empty() || text.len() > 64 {
        return false;
    }
    are_key_bytes(text)
}
