//! Names, keys and numbers.

use http_texts::{Numeral, is_key, is_name, read_number};

const LONG: &[u8] = b"0123456789_abcdefghijklmnopqrstuvwxyzABCDEFGHIJKLMNOPQRSTUVWXYZ--";

/// A text, whether it is a name, and whether it is a key.
type Row<T> = (T, bool, bool);

const TEXTS: [Row<&[u8]>; 12] = [
    (b"", false, false),
    (b"m", true, true),
    (b"mote_7", true, true),
    (b"_", true, true),
    (b"Mote", false, true),
    (b"a-b", false, true),
    (b"a b", false, false),
    (b"a%20", false, false),
    (b"a/", false, false),
    (b"`", false, false),
    (b"{", false, false),
    (b"\xC3\xA4", false, false),
];

// The first of these rows whose text is something else.
fn first_other(rows: &[Row<&[u8]>]) -> Option<usize> {
    let mut i = 0usize;
    for (text, name, key) in rows {
        if is_name(text) != *name || is_key(text) != *key {
            return Some(i);
        }
        i = i.wrapping_add(1);
    }
    None
}

/// How much of LONG is read, whether it is a name, and whether it is a key.
const LENGTHS: [Row<usize>; 4] = [
    (32, true, true),
    (33, false, true),
    (64, false, true),
    (65, false, false),
];

// The first of these lengths whose text is something else, or isn't there.
fn first_other_length(text: &[u8], rows: &[Row<usize>]) -> Option<usize> {
    for (length, name, key) in rows {
        let Some(front) = text.get(..*length) else {
            return Some(*length);
        };
        if is_name(front) != *name || is_key(front) != *key {
            return Some(*length);
        }
    }
    None
}

#[test]
fn texts_are_what_they_are(rt: HostRuntime) {
    assert_eq!(rt; first_other(&TEXTS), None);
    assert_eq!(rt; first_other_length(LONG, &LENGTHS), None);
}

/// The greatest number that there may be, a text, and what it is.
type Number = (u32, &'static [u8], Numeral);

const NUMBERS: [Number; 14] = [
    (9, b"", Numeral::Other),
    (9, b"0", Numeral::Value(0)),
    (9, b"00", Numeral::Other),
    (9, b"01", Numeral::Other),
    (9, b"9", Numeral::Value(9)),
    (9, b"10", Numeral::Above),
    (9, b"+1", Numeral::Other),
    (9, b"-1", Numeral::Other),
    (9, b"1 ", Numeral::Other),
    (9, b"99x", Numeral::Other),
    (u32::MAX, b"4294967295", Numeral::Value(u32::MAX)),
    (u32::MAX, b"4294967296", Numeral::Above),
    (
        u32::MAX,
        b"99999999999999999999999999999999",
        Numeral::Above,
    ),
    (262_144, b"262144", Numeral::Value(262_144)),
];

// The first of these rows whose text is another number, or none.
fn first_misread(rows: &[Number]) -> Option<usize> {
    let mut i = 0usize;
    for (most, text, number) in rows {
        if read_number(*most, text) != *number {
            return Some(i);
        }
        i = i.wrapping_add(1);
    }
    None
}

#[test]
fn numbers_are_what_they_are(rt: HostRuntime) {
    assert_eq!(rt; first_misread(&NUMBERS), None);
}
