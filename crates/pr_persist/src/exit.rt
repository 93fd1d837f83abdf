ghost use Rattle.std.specs.Prelude.{◌≡◌};
ghost use Rattle.pr_persist.specs.Exits.{link_status as spec_status, status_of};

use crate::asked::Asked;
use pr_initiator::{LinkFault, Meaning};
use pr_words::Code;
use std::fmt;

/// How a run of `persist` ends.
#[derive(Clone, Copy, Debug, PartialEq, Eq)]
pub enum PersistExit {
    /// All was done.
    Done,
    /// The words make no command.
    BadWords,
    /// The target gave no answer that counts.
    Link {
        /// What was asked.
        asked: Asked,
        /// Why no answer counts.
        fault: LinkFault,
    },
    /// The output failed.
    WriteFault,
    /// There was no memory for a run, and nothing was dialled.
    NoMemory,
    /// The last answer was RESERVATION CONFLICT.
    Conflict {
        /// What was asked.
        asked: Asked,
    },
    /// The last answer was CHECK CONDITION.
    Check {
        /// What was asked.
        asked: Asked,
        /// The code of the sense data.
        code: Code,
    },
    /// The last answer had a status that is none of the others.
    OddStatus {
        /// What was asked.
        asked: Asked,
        /// The status byte (SAM-5).
        status: u8,
    },
    /// The data of an answer that was GOOD break their grammar at this place, or the sense data of a
    /// CHECK CONDITION can't be read.
    BadData {
        /// What was asked.
        asked: Asked,
        /// The number of bytes before the fault.
        place: u64,
    },
}

/// The exit status where the target gave no answer that counts.
fn link_status(fault: LinkFault) -> u8
    ensures { result ≡ spec_status fault }
{
    match fault {
        LinkFault::Down => 3,
        LinkFault::Ended { .. } | LinkFault::BadReply { .. } | LinkFault::Rejected { .. } => 5,
        LinkFault::Refused { .. } => 10,
        LinkFault::Attention(_) => 13,
    }
}

impl PersistExit {
    /// The exit status of the process.
    pub fn status(self) -> u8
        ensures { result ≡ status_of self }
    {
        match self {
            PersistExit::Done => 0,
            PersistExit::BadWords => 2,
            PersistExit::Link { fault, .. } => link_status(fault),
            PersistExit::WriteFault => 4,
            PersistExit::NoMemory => 7,
            PersistExit::Conflict { .. } => 11,
            PersistExit::Check { .. } => 12,
            PersistExit::BadData { .. } => 14,
            PersistExit::OddStatus { .. } => 15,
        }
    }
}

/// The name of a status (SAM-5). None where it isn't one.
fn status_name(status: u8) -> Option<&'static str> {
    match status {
        0x04 => Some("CONDITION MET"),
        0x08 => Some("BUSY"),
        0x28 => Some("TASK SET FULL"),
        0x30 => Some("ACA ACTIVE"),
        0x40 => Some("TASK ABORTED"),
        _ => None,
    }
}

/// What was asked, what came and where, as a user reads it.
impl fmt::Display for PersistExit {
    fn fmt<W: fmt::Write>(&self, f: &mut fmt::Formatter<W>) -> fmt::Result {
        match *self {
            PersistExit::Done => f.write_str("all was done"),
            PersistExit::BadWords => f.write_str("the words make no command"),
            PersistExit::Link { asked, fault } => write!(f, "{asked}: {fault}"),
            PersistExit::WriteFault => f.write_str("the output couldn't be written"),
            PersistExit::NoMemory => f.write_str("no memory for the run"),
            PersistExit::Conflict { asked } => {
                write!(f, "{asked}: the target answered RESERVATION CONFLICT")
            }
            PersistExit::Check { asked, code } => write!(
                f,
                "{asked}: the target answered CHECK CONDITION, {}",
                Meaning(code)
            ),
            PersistExit::OddStatus { asked, status } => match status_name(status) {
                Some(name) => write!(f, "{asked}: the target answered {name}"),
                None => write!(
                    f,
                    "{asked}: the target answered no status, but {status:02X}h"
                ),
            },
            PersistExit::BadData { asked, place } => write!(
                f,
                "{asked}: what the target answered breaks its format at byte {place}"
            ),
        }
    }
}
