//! The JSON of the release server: bodies of requests are read, bodies of replies are written.
//!
//! A body means what `serde_json` reads: an object that has a key twice has the last value of it, and a number is whole where it
//! is written with no fraction and no exponent.
#![tactic(auto)]

mod acknowledgement;
mod fault;
mod json;
mod name;
mod part;
mod parts;
mod reply;

pub use acknowledgement::read_acknowledgement;
pub use fault::BodyFault;
pub use name::is_name;
pub use part::{Name, Part, Parts};
pub use parts::{parts_of, read_parts};
pub use reply::{
    acknowledgement_body, key_taken_body, mote_body, refusal_body, release_body, version_body,
};
