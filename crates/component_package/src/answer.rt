//! What a frame is answered.

/// The answer to a frame. Each but `Ended` and `Unformatted` stands for a line; its fields are the line's numbers, in their order. N is
/// the incoming or committed release, C the current one, K a component's ordinal from 0.
#[derive(Clone, Copy, Debug, PartialEq, Eq)]
pub enum Answer {
    /// `bad frame T`: a type that there isn't, or a payload where none belongs.
    BadFrame(u8),
    /// `reboot N`: release N is committed and isn't booted yet.
    Reboot(u32),
    /// `bad manifest F`: the manifest has fault F.
    BadManifest(u8),
    /// `stale C`: the manifest's release isn't above the current one.
    Stale(u32),
    /// `manifest N H`: release N comes in, and H of its components are held.
    ManifestIs(u32, u8),
    /// `no manifest`: no release comes in.
    NoManifest,
    /// `bad piece`: a payload that is no piece of the incoming release.
    BadPiece,
    /// `held K`: component K is held, and its slot isn't written.
    Held(u8),
    /// `piece K P`: page P of component K is stored.
    Piece(u8, u8),
    /// `linked N`: release N is linked and staged.
    Linked(u32),
    /// `missing K`: the slot of component K hasn't its digest.
    Missing(u8),
    /// `bad package K F`: the stored package of component K has fault F, 13 where it is another component's or version's.
    BadPackage(u8, u8),
    /// `flash T`: code and data have T bytes, which is too much.
    Flash(u32),
    /// `ram T`: data and bss have T bytes, which is too much.
    Ram(u32),
    /// `symbols N`: there are N different symbols, which is too many.
    Symbols(u32),
    /// `relocations N`: there are N relocations, which is too many.
    Relocations(u32),
    /// `duplicate S I J`: components I and J both define symbol S.
    Duplicate(u16, u8, u8),
    /// `undefined K R S`: relocation R of component K refers to symbol S, which no component defines.
    Undefined(u8, u16, u16),
    /// `range K R C`: relocation R of component K has no place for its value; C is 1 for an odd one, 2 for one too far.
    Range(u8, u16, u8),
    /// `committed N`: the next boot installs release N.
    Committed(u32),
    /// `not linked`: the incoming release isn't linked.
    NotLinked,
    /// `booted N`: program flash is release N.
    Booted(u32),
    /// `status C N S`.
    Status(u32, u32, u8),
    /// `aborted`: no release comes in any more.
    Aborted,
    /// The session ends; there is no line.
    Ended,
    /// External flash isn't formatted, and the session ends; there is no line.
    Unformatted,
}
