//! Frames that are messages, and frames that aren't.

ghost use Rattle.std.specs.Prelude.{IfSome};
ghost use Rattle.component_package.specs.packages.Manifest.{IsManifest};
ghost use Rattle.spread_core.specs.MessageFrames.{IsMessage};

use component_package::Manifest;
use spread_core::{Message, read_message, write_message};

/// The manifest that these bytes offer.
pub fn manifest_of(bytes: &[u8]) -> Option<Manifest>
    ensures { IfSome result IsManifest }
{
    if bytes.len() > 613 {
        return None;
    }
    match read_message(18, bytes) {
        Some(Message::Offer(m)) => Some(m),
        _ => None,
    }
}

/// Whether a message's frame begins with these bytes and then has those, with nothing written behind them.
pub fn is_written_as(m: &Message, front: &[u8], payload: &[u8]) -> bool
    requires { IsMessage m.now }
{
    let mut into = [0xEE; 616];
    let count = write_message(m, &mut into) as usize;
    let Some((frame, rest)) = into.as_slice().split_at_checked(count) else {
        return false;
    };
    frame.strip_prefix(front) == Some(payload) && rest.iter().all(|byte| *byte == 0xEE)
}

/// The type of a frame, how many bytes of payload, and whether that is a message.
type Row = (u8, usize, bool);

const ROWS: [Row; 15] = [
    (15, 6, false),
    (16, 5, false),
    (16, 6, true),
    (16, 7, false),
    (17, 12, false),
    (17, 13, true),
    (17, 14, false),
    (18, 81, false),
    (19, 6, false),
    (19, 7, true),
    (19, 262, true),
    (19, 263, false),
    (20, 0, true),
    (20, 1, false),
    (21, 0, false),
];

const ZEROS: [u8; 263] = [0; 263];

fn is_judged(row: &Row) -> bool {
    let (kind, size, want) = *row;
    let Some(payload) = ZEROS.get(..size) else {
        return false;
    };
    read_message(kind, payload).is_some() == want
}

// The first of these rows whose frame is judged otherwise.
fn first_other(rows: &[Row]) -> Option<usize> {
    for (i, row) in rows.iter().enumerate() {
        if !is_judged(row) {
            return Some(i);
        }
    }
    None
}

#[test]
fn frames_that_are_no_messages(rt: HostRuntime) {
    assert_eq!(rt; first_other(&ROWS), None);
}
