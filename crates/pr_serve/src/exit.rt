ghost use Rattle.std.specs.Prelude.{◌≡◌};
ghost use Rattle.pr_serve.specs.Statuses.{status_of, fault_of};

use pr_core::OpenFault;
use thiserror::Error;

/// How a run of a target that serves ends.
#[derive(Clone, Copy, Debug, PartialEq, Eq)]
pub enum ServeExit {
    /// As many connections as were asked for were taken, and all have ended.
    Done,
    /// The door failed. All connections that were taken have ended.
    DoorFault,
    /// The registrations' file wasn't opened. No connection was taken.
    OpenFault(OpenFault),
    /// The number of turns couldn't be written.
    WriteFault,
    /// There was no memory for what a run needs.
    NoMemory,
    /// The target gives no more turns. All connections that were taken have ended.
    Spent {
        /// The turn that it didn't give.
        ticket: u64,
    },
}

/// What a run that isn't done tells its user, as one line.
#[derive(Clone, Copy, Debug, PartialEq, Eq, Error)]
pub enum ServeFault {
    /// The door failed.
    #[error("no more connections come in at the address")]
    Door,
    /// What stands on the disk isn't a registrations' file.
    #[error("the registrations' file breaks its grammar at byte {place}")]
    File {
        /// Where the first field begins that is wrong.
        place: u64,
    },
    /// The disk failed when its file was opened.
    #[error("the registrations' file couldn't be read")]
    Disk,
    /// The number of turns couldn't be written.
    #[error("the number of turns couldn't be written")]
    Write,
    /// There was no memory for what a run needs.
    #[error("no memory for the run")]
    Memory,
    /// The target gives no more turns.
    #[error("the target has done all the turns that there can be")]
    Turns,
}

impl ServeExit {
    /// The exit status of the process.
    pub fn status(self) -> u8
        ensures { result ≡ status_of self }
    {
        match self {
            ServeExit::Done => 0,
            ServeExit::DoorFault => 3,
            ServeExit::WriteFault => 4,
            ServeExit::OpenFault(OpenFault::BadFile { .. }) => 6,
            ServeExit::OpenFault(OpenFault::OutOfMemory) | ServeExit::NoMemory => 7,
            ServeExit::OpenFault(OpenFault::DiskFault) => 8,
            ServeExit::Spent { .. } => 9,
        }
    }

    /// What to tell the user, and None where all was done.
    pub fn fault(self) -> Option<ServeFault>
        ensures { result ≡ fault_of self }
    {
        match self {
            ServeExit::Done => None,
            ServeExit::DoorFault => Some(ServeFault::Door),
            ServeExit::OpenFault(OpenFault::BadFile { place }) => Some(ServeFault::File { place }),
            ServeExit::OpenFault(OpenFault::DiskFault) => Some(ServeFault::Disk),
            ServeExit::OpenFault(OpenFault::OutOfMemory) | ServeExit::NoMemory => {
                Some(ServeFault::Memory)
            }
            ServeExit::WriteFault => Some(ServeFault::Write),
            ServeExit::Spent { .. } => Some(ServeFault::Turns),
        }
    }
}
