ghost use Rattle.std.specs.Prelude.{◌≡◌};
ghost use Rattle.pr_tool.specs.Statuses.{status_of, fault_of};

use thiserror::Error;

/// How a run of a command ends.
#[derive(Clone, Copy, Debug, PartialEq, Eq)]
pub enum Exit {
    /// All was done.
    Done,
    /// The words of the command line make no command.
    BadWords,
    /// The input failed.
    ReadFault,
    /// The output failed.
    WriteFault,
    /// The schedule breaks its grammar.
    BadSchedule {
        /// How many bytes of whole records stand before the fault.
        place: u64,
    },
    /// What stands on the disk isn't a registrations' file.
    BadFile {
        /// Where the first field begins that is wrong.
        place: u64,
    },
    /// There was no memory for what a run needs.
    NoMemory,
    /// The disk failed when its file was opened.
    DiskFault,
    /// The input has more bytes than are looked at.
    TooLong,
}

/// What a run that isn't done tells its user, as one line.
#[derive(Clone, Copy, Debug, PartialEq, Eq, Error)]
pub enum Fault {
    /// The words of the command line make no command.
    #[error("the words are neither `show`, `persist`, `fence`, `serve` nor `replay` with 1 to 64 lanes")]
    Words,
    /// The input failed.
    #[error("the input couldn't be read")]
    Read,
    /// The output failed.
    #[error("the output couldn't be written")]
    Write,
    /// The schedule breaks its grammar.
    #[error("the schedule breaks its grammar at byte {place}")]
    Schedule {
        /// How many bytes of whole records stand before the fault.
        place: u64,
    },
    /// What stands on the disk isn't a registrations' file.
    #[error("the registrations' file breaks its grammar at byte {place}")]
    File {
        /// Where the first field begins that is wrong.
        place: u64,
    },
    /// There was no memory for what a run needs.
    #[error("no memory for the run")]
    Memory,
    /// The disk failed when its file was opened.
    #[error("the registrations' file couldn't be read")]
    Disk,
    /// The input has more bytes than are looked at.
    #[error("the input is longer than 4294967296 bytes")]
    Length,
}

impl Exit {
    /// The exit status of the process.
    pub fn status(self) -> u8
        ensures { result ≡ status_of self }
    {
        match self {
            Exit::Done => 0,
            Exit::BadWords => 2,
            Exit::ReadFault => 3,
            Exit::WriteFault => 4,
            Exit::BadSchedule { .. } => 5,
            Exit::BadFile { .. } => 6,
            Exit::NoMemory => 7,
            Exit::DiskFault => 8,
            Exit::TooLong => 9,
        }
    }

    /// What to tell the user, and None where all was done.
    pub fn fault(self) -> Option<Fault>
        ensures { result ≡ fault_of self }
    {
        match self {
            Exit::Done => None,
            Exit::BadWords => Some(Fault::Words),
            Exit::ReadFault => Some(Fault::Read),
            Exit::WriteFault => Some(Fault::Write),
            Exit::BadSchedule { place } => Some(Fault::Schedule { place }),
            Exit::BadFile { place } => Some(Fault::File { place }),
            Exit::NoMemory => Some(Fault::Memory),
            Exit::DiskFault => Some(Fault::Disk),
            Exit::TooLong => Some(Fault::Length),
        }
    }
}
