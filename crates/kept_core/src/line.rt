//! The lines of answers.

ghost use Rattle.std.specs.Prelude.{◌≡◌, ◌+◌, ◌*◌, ◌≤◌, ◌++◌, ◌∷◌, take, length, decimal};
ghost use Rattle.component_package.specs.mote.Lines.{words_line, line_of, spaced};

use component_package::Answer;
use itoa::Buffer;

// Puts the bytes at this place, and says where they end.
fn put(into: &mut [u8; 64], at: usize, bytes: &[u8]) -> usize
    requires { at + length bytes.now ≤ 64 }
    ensures end { result ≡ at + length bytes.now }
    ensures bytes { take result into.new ≡ take at into.old ++ bytes.now }
{
    let end = at + bytes.len();
    into[at..end].copy_from_slice(bytes);
    end
}

// Puts a space and the number.
fn put_number(into: &mut [u8; 64], at: usize, n: u32) -> usize
    requires { at + 11 ≤ 64 }
    ensures end { result ≤ at + 11 }
    ensures bytes { take result into.new ≡ take at into.old ++ (32 ∷ decimal n) }
{
    let mut buffer = Buffer::new();
    let after = put(into, at, b" ");
    put(into, after, buffer.format(n).as_bytes())
}

// Puts the words, each number after a space, and a line feed.
fn put_line(into: &mut [u8; 64], words: &[u8], numbers: &[u32]) -> u8
    requires { length words.now + 11 * length numbers.now + 1 ≤ 64 }
    ensures end { result ≤ 64 }
    ensures bytes { take result into.new ≡ words_line words.now numbers.now }
{
    let mut at = put(into, 0, words);
    for n in numbers {
        at = put_number(into, at, *n);
    }
    put(into, at, b"\n") as u8
}

/// Writes the line of an answer, in ASCII with its line feed, and gives its length: 0 to 64 bytes, 0 for `Ended` and
/// `Unformatted` alone.
pub fn write_line(a: &Answer, into: &mut [u8; 64]) -> u8
    ensures end { result ≤ 64 }
    ensures bytes { take result into.new ≡ line_of a.now }
{
    match *a {
        Answer::BadFrame(t) => put_line(into, b"bad frame", &[t as u32]),
        Answer::Reboot(n) => put_line(into, b"reboot", &[n]),
        Answer::BadManifest(f) => put_line(into, b"bad manifest", &[f as u32]),
        Answer::Stale(c) => put_line(into, b"stale", &[c]),
        Answer::ManifestIs(n, h) => put_line(into, b"manifest", &[n, h as u32]),
        Answer::NoManifest => put_line(into, b"no manifest", &[]),
        Answer::BadPiece => put_line(into, b"bad piece", &[]),
        Answer::Held(k) => put_line(into, b"held", &[k as u32]),
        Answer::Piece(k, p) => put_line(into, b"piece", &[k as u32, p as u32]),
        Answer::Linked(n) => put_line(into, b"linked", &[n]),
        Answer::Missing(k) => put_line(into, b"missing", &[k as u32]),
        Answer::BadPackage(k, f) => put_line(into, b"bad package", &[k as u32, f as u32]),
        Answer::Flash(t) => put_line(into, b"flash", &[t]),
        Answer::Ram(t) => put_line(into, b"ram", &[t]),
        Answer::Symbols(n) => put_line(into, b"symbols", &[n]),
        Answer::Relocations(n) => put_line(into, b"relocations", &[n]),
        Answer::Duplicate(s, i, j) => {
            put_line(into, b"duplicate", &[s as u32, i as u32, j as u32])
        }
        Answer::Undefined(k, r, s) => {
            put_line(into, b"undefined", &[k as u32, r as u32, s as u32])
        }
        Answer::Range(k, r, c) => put_line(into, b"range", &[k as u32, r as u32, c as u32]),
        Answer::Committed(n) => put_line(into, b"committed", &[n]),
        Answer::NotLinked => put_line(into, b"not linked", &[]),
        Answer::Booted(n) => put_line(into, b"booted", &[n]),
        Answer::Status(c, n, s) => put_line(into, b"status", &[c, n, s as u32]),
        Answer::Aborted => put_line(into, b"aborted", &[]),
        Answer::Ended | Answer::Unformatted => 0,
    }
}
