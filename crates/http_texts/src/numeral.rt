//! Numbers as a request writes them.
ghost use Rattle.std.specs.Prelude.{◌≡◌, true, IsTrue};
ghost use Rattle.std.specs.Char.{is_ascii_digit};
ghost use Rattle.std.specs.List.{list_all};
ghost use Rattle.http_texts.specs.Texts.{is_numeral as numeral_test};
ghost use Rattle.http_texts.specs.Numbers.{numeral_of, value_up_to as value_of_digits};

/// What a text says as a number, of which so much is allowed.
#[derive(Clone, Copy, Debug, PartialEq, Eq)]
pub enum Numeral {
    /// This number.
    Value(u32),

    /// A number above what is allowed.
    Above,

    /// No number.
    Other,
}

fn are_digits(text: &[u8]) -> bool
    ensures { result ≡ list_all is_ascii_digit text.now }
{
    text.iter().all(|byte| byte.is_ascii_digit())
}

// Whether a text is `0`, or digits of which the first isn't `0`.
fn is_numeral(text: &[u8]) -> bool
    ensures answer { result ≡ numeral_test text.now }
    ensures digits { result ≡ true → IsTrue (list_all is_ascii_digit text.now) }
{
    if text.is_empty() {
        return false;
    }
    if text.len() > 1 && text[0] == b'0' {
        return false;
    }
    are_digits(text)
}

// The number that digits write, if it is at most so much.
fn value_up_to(most: u32, digits: &[u8]) -> Numeral
    requires digits { IsTrue (list_all is_ascii_digit digits.now) }
    ensures { result ≡ value_of_digits most digits.now }
{
    let most = most as u64;
    let mut value: u64 = 0;
    for digit in digits {
        value = value * 10 + (*digit - b'0') as u64;
        if value > most {
            return Numeral::Above;
        }
    }
    Numeral::Value(value as u32)
}

/// The number that a text writes as `0` or as digits without a leading zero, if it is at most so much.
pub fn read_number(most: u32, text: &[u8]) -> Numeral
    ensures { result ≡ numeral_of most text.now }
{
    if is_numeral(text) {
        value_up_to(most, text)
    } else {
        Numeral::Other
    }
}
