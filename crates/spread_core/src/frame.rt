//! Messages as frames on the line.

ghost use Rattle.std.specs.Prelude.{◌≡◌, ◌==◌, ◌&&◌, ◌<◌, ◌≤◌, ◌^◌, ◌+◌, ◌*◌, ◌++◌, ◌∷◌, [], IfSome, is_none, is_some, nat_le, length, take, drop};
ghost use Rattle.component_package.specs.packages.Numbers.{u16_at, u16_bytes, u32_at, u32_bytes};
ghost use Rattle.component_package.specs.mote.Frames.{frame_bytes};
ghost use Rattle.component_package.specs.packages.Manifest.{IsManifest, manifest_fault, release_of, manifest_bytes};
ghost use Rattle.spread_core.specs.Hearing.{OffersRelease};
ghost use Rattle.spread_core.specs.MessageFrames.{u64_bytes, frame_of, IsMessage, is_message};

use crate::message::Message;
use component_package::{Manifest, read_manifest, write_manifest};

// The types of the frames (our own format).
const ADVERT: u8 = 16;

const ASK: u8 = 17;

const OFFER: u8 = 18;

const DATA: u8 = 19;

const TICK: u8 = 20;

fn u16_in(bytes: &[u8], at: usize) -> u16
    requires { at + 1 < length bytes.now }
    ensures { result ≡ u16_at bytes.now at }
{
    u16::from_le_bytes([bytes[at], bytes[at + 1]])
}

fn u32_in(bytes: &[u8], at: usize) -> u32
    requires { at + 3 < length bytes.now }
    ensures { result ≡ u32_at bytes.now at }
{
    u16_in(bytes, at) as u32 + 65536 * u16_in(bytes, at + 2) as u32
}

fn u64_in(bytes: &[u8], at: usize) -> u64
    requires { at + 7 < length bytes.now }
    ensures { result ≡ u32_at bytes.now at + 4294967296 * u32_at bytes.now (at + 4) }
{
    u32_in(bytes, at) as u64 + 4294967296 * u32_in(bytes, at + 4) as u64
}

// Puts a piece over the bytes from a place on.
fn put(into: &mut [u8], at: usize, piece: &[u8])
    requires { at + length piece.now ≤ length into.old }
    ensures { into.new ≡ take at into.old ++ (piece.now ++ drop (at + length piece.now) into.old) }
{
    into[at..at + piece.len()].copy_from_slice(piece);
}

fn read_advert(payload: &[u8]) -> Option<Message>
    ensures spells { IfSome result (λ m. frame_of m ≡ record { kind = 16; payload = payload.now }) }
    ensures message { IfSome result IsMessage }
    ensures offered { IfSome result OffersRelease }
    ensures exactly { is_some result ≡ (length payload.now == 6) }
{
    if payload.len() != 6 {
        return None;
    }
    Some(Message::Advert {
        release: u32_in(payload, 0),
        whole: u16_in(payload, 4),
    })
}

fn read_ask(payload: &[u8]) -> Option<Message>
    ensures spells { IfSome result (λ m. frame_of m ≡ record { kind = 17; payload = payload.now }) }
    ensures message { IfSome result IsMessage }
    ensures offered { IfSome result OffersRelease }
    ensures exactly { is_some result ≡ (length payload.now == 13) }
{
    if payload.len() != 13 {
        return None;
    }
    Some(Message::Ask {
        release: u32_in(payload, 0),
        ordinal: payload[4],
        pages: u64_in(payload, 5),
    })
}

fn read_offer(payload: &[u8]) -> Option<Message>
    requires { length payload.now < 2 ^ 32 }
    ensures spells { IfSome result (λ m. frame_of m ≡ record { kind = 18; payload = payload.now }) }
    ensures message { IfSome result IsMessage }
    ensures offered { IfSome result OffersRelease }
    ensures exactly { is_some result ≡ is_none (manifest_fault payload.now) }
{
    match read_manifest(payload) {
        Ok(m) => Some(Message::Offer(m)),
        Err(_) => None,
    }
}

// A page, with room behind it.
fn filled(bytes: &[u8]) -> [u8; 256]
    requires { length bytes.now ≤ 256 }
    ensures { take (length bytes.now) result ≡ bytes.now }
{
    let mut filled = [0; 256];
    put(&mut filled, 0, bytes);
    filled
}

fn read_data(payload: &[u8]) -> Option<Message>
    ensures spells { IfSome result (λ m. frame_of m ≡ record { kind = 19; payload = payload.now }) }
    ensures message { IfSome result IsMessage }
    ensures offered { IfSome result OffersRelease }
    ensures exactly { is_some result ≡ (nat_le 7 (length payload.now) && nat_le (length payload.now) 262) }
{
    if payload.len() < 7 {
        return None;
    }
    if payload.len() > 262 {
        return None;
    }
    Some(Message::Data {
        release: u32_in(payload, 0),
        ordinal: payload[4],
        page: payload[5],
        length: (payload.len() - 6) as u16,
        bytes: filled(&payload[6..]),
    })
}

fn read_tick(payload: &[u8]) -> Option<Message>
    ensures spells { IfSome result (λ m. frame_of m ≡ record { kind = 20; payload = payload.now }) }
    ensures message { IfSome result IsMessage }
    ensures offered { IfSome result OffersRelease }
    ensures exactly { is_some result ≡ (length payload.now == 0) }
{
    if payload.is_empty() {
        Some(Message::Tick)
    } else {
        None
    }
}

/// The message of a frame of this type and payload (at most 1,024 bytes on the line), or `None` exactly where the frame is no message.
/// The message may be heard, and be written again as the same frame.
pub fn read_message(kind: u8, payload: &[u8]) -> Option<Message>
    requires { length payload.now < 2 ^ 32 }
    ensures spells { IfSome result (λ m. frame_of m ≡ record { kind = kind; payload = payload.now }) }
    ensures message { IfSome result IsMessage }
    ensures offered { IfSome result OffersRelease }
    ensures exactly { is_some result ≡ is_message kind payload.now }
{
    if kind == ADVERT {
        return read_advert(payload);
    }
    if kind == ASK {
        return read_ask(payload);
    }
    if kind == OFFER {
        return read_offer(payload);
    }
    if kind == DATA {
        return read_data(payload);
    }
    if kind == TICK {
        return read_tick(payload);
    }
    None
}

fn advert_array(release: u32, whole: u16) -> [u8; 9]
    ensures { result ≡ 16 ∷ 6 ∷ 0 ∷ (u32_bytes release ++ u16_bytes whole) }
{
    let [first, second, third, fourth] = release.to_le_bytes();
    let [low, high] = whole.to_le_bytes();
    [ADVERT, 6, 0, first, second, third, fourth, low, high]
}

fn pages_array(pages: u64) -> [u8; 8]
    ensures { result ≡ u64_bytes pages }
{
    let [first, second, third, fourth] = ((pages % 4294967296) as u32).to_le_bytes();
    let [fifth, sixth, seventh, eighth] = ((pages / 4294967296) as u32).to_le_bytes();
    [first, second, third, fourth, fifth, sixth, seventh, eighth]
}

fn ask_array(release: u32, ordinal: u8) -> [u8; 8]
    ensures { result ≡ 17 ∷ 13 ∷ 0 ∷ (u32_bytes release ++ ordinal ∷ []) }
{
    let [first, second, third, fourth] = release.to_le_bytes();
    [ASK, 13, 0, first, second, third, fourth, ordinal]
}

// The type and the length of a frame.
fn head_array(kind: u8, length: u16) -> [u8; 3]
    ensures { result ≡ kind ∷ u16_bytes length }
{
    let [low, high] = length.to_le_bytes();
    [kind, low, high]
}

// What stands before the page.
fn page_array(release: u32, ordinal: u8, page: u8) -> [u8; 6]
    ensures { result ≡ u32_bytes release ++ ordinal ∷ page ∷ [] }
{
    let [first, second, third, fourth] = release.to_le_bytes();
    [first, second, third, fourth, ordinal, page]
}

fn write_ask(release: u32, ordinal: u8, pages: u64, into: &mut [u8; 616]) -> u16
    ensures bytes { into.new ≡ frame_bytes (frame_of (Message.Ask release ordinal pages)) ++ drop result into.old }
    ensures count { result ≡ 16 }
{
    put(into, 0, &ask_array(release, ordinal));
    put(into, 8, &pages_array(pages));
    16
}

fn write_offer(m: &Manifest, into: &mut [u8; 616]) -> u16
    requires { IsManifest m.now }
    ensures bytes { into.new ≡ frame_bytes (frame_of (Message.Offer m.now)) ++ drop result into.old }
    ensures count { result ≡ 3 + length (manifest_bytes (release_of m.now)) }
{
    let mut manifest = [0; 613];
    let n = write_manifest(m, &mut manifest);
    put(into, 0, &head_array(OFFER, n));
    put(into, 3, &manifest[..n as usize]);
    3 + n
}

fn write_data(release: u32, ordinal: u8, page: u8, bytes: &[u8], into: &mut [u8; 616]) -> u16
    requires { length bytes.now ≤ 256 }
    ensures bytes { into.new ≡ (19 ∷ u16_bytes (6 + length bytes.now) ++ (u32_bytes release ++ ordinal ∷ page ∷ bytes.now))
        ++ drop result into.old }
    ensures count { result ≡ 9 + length bytes.now }
{
    put(into, 0, &head_array(DATA, 6 + bytes.len() as u16));
    put(into, 3, &page_array(release, ordinal, page));
    put(into, 9, bytes);
    9 + bytes.len() as u16
}

/// Writes the frame of a message at the front of `into`, and says how many bytes it has: 3 and the payload, at most 616. The bytes
/// behind them stay as they are.
pub fn write_message(m: &Message, into: &mut [u8; 616]) -> u16
    requires { IsMessage m.now }
    ensures bytes { into.new ≡ frame_bytes (frame_of m.now) ++ drop result into.old }
    ensures count { result ≡ length (frame_bytes (frame_of m.now)) }
{
    match m {
        Message::Advert { release, whole } => {
            put(into, 0, &advert_array(*release, *whole));
            9
        }
        Message::Ask {
            release,
            ordinal,
            pages,
        } => write_ask(*release, *ordinal, *pages, into),
        Message::Offer(manifest) => write_offer(manifest, into),
        Message::Data {
            release,
            ordinal,
            page,
            length,
            bytes,
        } => write_data(*release, *ordinal, *page, &bytes[..*length as usize], into),
        Message::Tick => {
            put(into, 0, &head_array(TICK, 0));
            3
        }
    }
}
