//! What the rules say of a command, its key apart.

use release_rows::{Effect, Values};

/// What the rules say of a command, its key apart.
#[derive(Debug, Drop)]
pub enum Judged {
    /// It does this.
    Does(Effect),
    /// It names something that isn't there.
    NoRow,
    /// It is refused, with the refusal's number and what goes with it.
    Refused {
        /// The number.
        number: u16,
        /// The numbers that go with it, in their order.
        values: Values,
    },
}
