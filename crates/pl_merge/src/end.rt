//! How a file that is merged ends.
ghost use Rattle.std.specs.Prelude.{◌≡◌, ◌≤◌, ◌⊎◌};
ghost use Rattle.pl_merge.specs.Lawful as spec;
ghost use Rattle.pl_merge.specs.Closing.{halt_status};
ghost use Rattle.pl_merge.specs.Output.{status_of};

use pl_base::Stop;
use pl_status::{
    CLEAN, FALLEN_TIME, LIMIT, MALFORMED, READ_FAULT, UNSUPPORTED, WRITE_FAULT, WRONG_DIRECTION,
};

/// What comes behind the last lawful item of a file.
#[derive(Clone, Copy, Debug, PartialEq, Eq)]
pub(crate) enum End {
    /// The file is lawful to its end.
    Ended,
    /// A packet that travels in the direction of the other file.
    WrongDirection,
    /// An item whose time is less than that of the item before it.
    FallenTime,
    /// A record or the header is malformed, or the end is missing.
    Malformed,
    /// A form that isn't read.
    Unsupported,
    /// More bytes than are read.
    TooLong,
}

/// Why no more is merged.
#[derive(Clone, Copy, Debug, PartialEq, Eq)]
pub(crate) enum Halt {
    /// A file isn't lawful to its end.
    Stops(End),
    /// A file couldn't be opened or read.
    ReadFault,
    /// The output couldn't be written.
    WriteFault,
}

impl End {
    /// The exit status, where this decides.
    pub(crate) fn status(self) -> u8
        ensures { result ≡ status_of self }
    {
        match self {
            End::Ended => CLEAN,
            End::WrongDirection => WRONG_DIRECTION,
            End::FallenTime => FALLEN_TIME,
            End::Malformed => MALFORMED,
            End::Unsupported => UNSUPPORTED,
            End::TooLong => LIMIT,
        }
    }
}

impl Halt {
    /// The exit status.
    pub(crate) fn status(self) -> u8
        ensures { result ≡ halt_status self }
    {
        match self {
            Halt::Stops(end) => end.status(),
            Halt::ReadFault => READ_FAULT,
            Halt::WriteFault => WRITE_FAULT,
        }
    }
}

/// The end of a file that its reader refuses. A reader refuses nothing for want of room.
pub(crate) fn end_by(stop: Stop) -> End
    ensures { result ≡ spec.end_by stop }
{
    match stop {
        Stop::Unsupported(..) => End::Unsupported,
        Stop::Malformed(..) | Stop::Outstanding(..) | Stop::Unacknowledged(..) | Stop::Memory => {
            End::Malformed
        }
    }
}
