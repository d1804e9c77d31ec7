//! How a command ends.

ghost use Rattle.std.specs.Prelude.{◌≡◌};

/// How a command ended, as the exit status of the top call says it.
#[derive(Clone, Copy, Debug, PartialEq, Eq)]
pub enum Status {
    /// The command was done; or END was read, or the input ended between frames.
    Ended,
    /// The input ended inside a frame.
    CutFrame,
    /// The length of a frame is above 1,024; nothing more is read.
    TooLong,
    /// A call on a flash failed.
    FlashFault,
    /// A call on the line failed.
    LineFault,
    /// The board isn't formatted, or says of no side that it is to boot.
    Unformatted,
    /// 1,000,000 frames were served, and another byte came.
    Budget,
    /// The words are no command.
    NoCommand,
}

impl Status {
    ghost use Rattle.kept_core.specs.Commands.{code_of};

    /// The exit status: 0, 2 to 7 or 64.
    pub fn code(self) -> u8
        ensures { result ≡ code_of self }
    {
        match self {
            Status::Ended => 0,
            Status::CutFrame => 2,
            Status::TooLong => 3,
            Status::FlashFault => 4,
            Status::LineFault => 5,
            Status::Unformatted => 6,
            Status::Budget => 7,
            Status::NoCommand => 64,
        }
    }
}
