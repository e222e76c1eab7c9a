//! The ways in which a run ends, and their statuses.
ghost use Rattle.std.specs.Prelude.{◌≡◌};
ghost use Rattle.serial_core.specs.Answer.{status_of};

use mlr_event::{Fault, InputName, Refusal, Target};

/// How a run ended.
#[derive(Debug, PartialEq, Eq, Drop)]
pub enum Ended {
    /// All was read and written.
    Done,
    /// The command line isn't accepted. Nothing was read.
    Refused(Refusal),
    /// The data has this fault, and all that comes before it was written.
    Data(Fault),
    /// This input can't be opened or read.
    Read(InputName),
    /// This output can't be written.
    Written(Target),
    /// 2^60 bytes of input were taken.
    TooLong,
    /// There was no memory.
    NoMemory,
}

impl Ended {
    /// The exit status of the program.
    pub fn status(&self) -> u8
        ensures { result ≡ status_of self.now }
    {
        match self {
            Ended::Done => 0,
            Ended::Refused(_)
            | Ended::Data(_)
            | Ended::Read(_)
            | Ended::Written(_)
            | Ended::TooLong => 1,
            Ended::NoMemory => 3,
        }
    }
}
