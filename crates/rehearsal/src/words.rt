//! The words of a rehearsal.

ghost use Rattle.std.specs.Prelude.{◌≡◌, ◌≢◌, ◌<◌, ◌^◌, ℕ, IsTrue, ◌↔◌, decimal, IfSome};
ghost use Rattle.rehearsal.specs.Words.{IsNumber, IsRehearsal};

use component_package::Text;
use itoa::Buffer;

// Whether two texts are the same.
fn is_same(a: &str, b: &str) -> bool
    ensures { IsTrue result ↔ (a.now ≡ b.now) }
{
    a == b
}

// Whether a text is this number in decimal digits.
fn is_number(text: &str, number: u32) -> bool
    ensures { IsTrue result ↔ (decimal number ≡ text.now) }
{
    let mut buffer = Buffer::new();
    is_same(buffer.format(number), text)
}

// The number that a text says: `0`, or digits of which the first isn't `0`.
fn number_of(text: &str) -> Option<u32>
    ensures { IsNumber text.now result }
{
    let Ok(number) = u32::from_str_radix(text, 10) else {
        return None;
    };
    if !is_number(text, number) {
        return None;
    }
    Some(number)
}

/// The number that is rehearsed, where the words are `rehearse` and a number: `0`, or digits without a leading zero, at most 4,294,967,295.
pub fn rehearsal_number(words: &[Text]) -> Option<u32>
    ensures { IsRehearsal words.now result }
{
    if words.len() != 2 {
        return None;
    }
    if !is_same(words[0].as_str(), "rehearse") {
        return None;
    }
    number_of(words[1].as_str())
}
