//! The order in which a mote's gates open and close, so that wherever power is cut the mote is sound: it boots one whole set of components.
//!
//! Gates are flags on pages of their own (`external_flash`). Man vouches for the incoming manifest, Sym for the merged symbols, Rel for the
//! relocation list, Img for the staged image; each rests on the one before it. A Go gate says that the staged image of its side is to be copied
//! into program flash. They are closed from Img upward before what they vouch for changes, and opened once it holds. No call takes memory.
//!
//! What a call needs of the board's contents is a premise of what it promises and never a condition: on any board each call is safe and returns.
#![tactic(auto)]

mod gates;
mod manifest;
mod standing;

pub use gates::{Stage, abandon, finish, go, mark, unlink};
pub use manifest::put_manifest;
pub use standing::{JournalFault, Standing, read_state};
