//! Names in string tables.

ghost use Rattle.std.specs.Prelude.{◌≡◌, ◌≤◌, ◌==◌, length};
ghost use Rattle.std.specs.List.{position, before_first};
ghost use Rattle.avr_elf.specs.Object.{name_in};

fn zero_in(bytes: &[u8]) -> Option<usize>
    ensures { result ≡ position (λ b. b == 0) bytes.now }
{
    bytes.iter().position(|b| *b == 0)
}

fn before_zero(bytes: &[u8]) -> &[u8]
    ensures { result.now ≡ before_first (λ b. b == 0) bytes.now }
{
    match zero_in(bytes) {
        Some(end) => &bytes[..end],
        None => bytes,
    }
}

/// The bytes of a string table from a place up to the next zero byte.
pub fn name_in(strings: &[u8], at: u32) -> &[u8]
    requires { at ≤ length strings.now }
    ensures { result.now ≡ name_in strings.now at }
{
    before_zero(&strings[at as usize..])
}
