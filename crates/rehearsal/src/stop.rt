//! Why a rehearsal stops.

use std::alloc::AllocError;

/// Why no line was made.
#[derive(Drop)]
pub(crate) enum Stop {
    /// There was no memory.
    NoMemory,
    /// A drawn set has no image, or the mote has not started a release, byte for byte as it is linked from scratch.
    NotStarted,
}

impl From<AllocError> for Stop {
    fn from(_error: AllocError) -> Stop {
        Stop::NoMemory
    }
}

impl From<component_package::NoMemory> for Stop {
    fn from(_error: component_package::NoMemory) -> Stop {
        Stop::NoMemory
    }
}

impl From<flash_pages::NoMemory> for Stop {
    fn from(_error: flash_pages::NoMemory) -> Stop {
        Stop::NoMemory
    }
}
