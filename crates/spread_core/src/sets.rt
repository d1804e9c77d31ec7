//! Sets of small numbers, as the bits of a number.

ghost use Rattle.std.specs.Prelude.{◌≡◌, ◌<◌, ◌≤◌, true};
ghost use Rattle.spread_core.specs.Sets.{has, with_bit, set_of};

/// Whether a number is in a set.
pub fn has(set: u64, number: u8) -> bool
    requires { number < 64 }
    ensures { result ≡ has set number }
{
    (set >> number) & 1 == 1
}

/// The set with a number more.
pub fn with_bit(set: u64, number: u8) -> u64
    requires { number < 64 }
    ensures { result ≡ with_bit set number }
{
    set | (1 << number)
}

/// The set with a number more, of 16 numbers.
pub fn with_bit_16(set: u16, number: u8) -> u16
    requires { number < 16 }
    ensures { result ≡ with_bit set number }
{
    set | (1 << number)
}

/// The set of the first numbers.
pub fn first_numbers(count: u8) -> u16
    requires { count ≤ 16 }
    ensures { result ≡ set_of (λ k. true) count }
{
    let mut set = 0;
    for number in 0..count {
        set = with_bit_16(set, number);
    }
    set
}
