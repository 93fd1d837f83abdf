use crate::asked::Asked;
use pr_initiator::{LinkFault, Meaning};
use pr_words::Code;
use std::fmt;

/// Why the work on one device ended early.
#[derive(Clone, Copy, Debug, PartialEq, Eq)]
pub enum FenceFault {
    /// The target gave no answer that counts.
    Link {
        /// What was asked.
        asked: Asked,
        /// Why no answer counts.
        fault: LinkFault,
    },
    /// The last answer was RESERVATION CONFLICT.
    Conflict {
        /// What was asked.
        asked: Asked,
    },
    /// The last answer was CHECK CONDITION.
    Check {
        /// What was asked.
        asked: Asked,
        /// The code of the sense data.
        code: Code,
    },
    /// The last answer had a status that is none of the others.
    OddStatus {
        /// What was asked.
        asked: Asked,
        /// The status byte (SAM-5).
        status: u8,
    },
    /// The data of an answer that was GOOD break their grammar at this place, or the sense data of
    /// a CHECK CONDITION can't be read.
    BadData {
        /// What was asked.
        asked: Asked,
        /// The number of bytes before the fault.
        place: u64,
    },
    /// The victim's key is registered still.
    StillThere,
}

/// What was asked, what came and where, as a user reads it.
impl fmt::Display for FenceFault {
    fn fmt<W: fmt::Write>(&self, f: &mut fmt::Formatter<W>) -> fmt::Result {
        match *self {
            FenceFault::Link { asked, fault } => write!(f, "{asked}: {fault}"),
            FenceFault::Conflict { asked } => {
                write!(f, "{asked}: the target answered RESERVATION CONFLICT")
            }
            FenceFault::Check { asked, code } => write!(
                f,
                "{asked}: the target answered CHECK CONDITION, {}",
                Meaning(code)
            ),
            FenceFault::OddStatus { asked, status } => {
                write!(f, "{asked}: the target answered with status {status:02X}h")
            }
            FenceFault::BadData { asked, place } => write!(
                f,
                "{asked}: what the target answered breaks its format at byte {place}"
            ),
            FenceFault::StillThere => f.write_str("the key is registered still"),
        }
    }
}
