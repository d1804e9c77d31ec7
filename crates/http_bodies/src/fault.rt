//! Why a body of a request gave nothing.

ghost use Rattle.std.specs.Prelude.{◌≡◌};
ghost use Rattle.http_bodies.specs.declared.fault.BodyFault.TheVariants.{Memory};

use std::alloc::AllocError;
use std::error::Error;
use std::fmt;

/// Why a body of a request gave nothing.
#[derive(Clone, Copy, Debug, PartialEq, Eq)]
pub enum BodyFault {
    /// The body is no JSON of the shape that was asked for.
    Bad,
    /// There was no memory; this says nothing of the body.
    Memory,
}

impl From<AllocError> for BodyFault {
    ghost from_gives = { λ _ f. f ≡ Memory };

    fn from(_error: AllocError) -> BodyFault {
        BodyFault::Memory
    }
}

impl fmt::Display for BodyFault {
    fn fmt<W: fmt::Write>(&self, f: &mut fmt::Formatter<W>) -> fmt::Result {
        match self {
            BodyFault::Bad => write!(f, "the body is not the JSON that is wanted here"),
            BodyFault::Memory => write!(f, "there is no memory"),
        }
    }
}

impl Error for BodyFault {}
