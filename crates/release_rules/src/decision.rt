//! What is decided of a command.

use component_package::Text;
use release_rows::{Change, Values};

/// What is decided of a command that came under a key.
#[derive(Debug, Drop)]
pub enum Decision {
    /// It is to be done: this change, with the body that answers it kept under the key.
    Accepted(Change),
    /// It was accepted before under this key, and this body answers it again.
    Repeated(Text),
    /// The key is another command's, whose SHA-256 digest this is.
    KeyTaken([u8; 32]),
    /// It names something that isn't there.
    NoRow,
    /// A rule refuses it, with the refusal's number and what goes with it.
    Refused {
        /// The number.
        number: u16,
        /// The numbers that go with it, in their order.
        values: Values,
    },
}
