ghost use Rattle.std.specs.Prelude.{◌≡◌, IfSome};
ghost use Rattle.pr_fence.specs.Exits.{link_status as spec_status, status_of, exit_at as spec_at, ended as spec_ended};

use crate::asked::Asked;
use crate::fence_fault::FenceFault;
use crate::plan::Errand;
use pr_initiator::LinkFault;
use pr_words::Code;
use std::fmt;

/// How a run of `fence` ends. A device has the number of its address among those given, from 0 on.
#[derive(Clone, Copy, Debug, PartialEq, Eq)]
pub enum FenceExit {
    /// All was done.
    Done,
    /// The key is registered on at least one device.
    Present,
    /// The key is registered on no device.
    Absent,
    /// The words make no command.
    BadWords,
    /// The node would fence itself off.
    SelfFence,
    /// The victim's key is registered still on this device.
    StillThere {
        /// The device.
        device: usize,
    },
    /// The target gave no answer that counts.
    Link {
        /// The device.
        device: usize,
        /// What was asked.
        asked: Asked,
        /// Why no answer counts.
        fault: LinkFault,
    },
    /// The output failed.
    WriteFault,
    /// There was no memory for a run, and nothing was dialled.
    NoMemory,
    /// The last answer was RESERVATION CONFLICT.
    Conflict {
        /// The device.
        device: usize,
        /// What was asked.
        asked: Asked,
    },
    /// The last answer was CHECK CONDITION.
    Check {
        /// The device.
        device: usize,
        /// What was asked.
        asked: Asked,
        /// The code of the sense data.
        code: Code,
    },
    /// The last answer had a status that is none of the others.
    OddStatus {
        /// The device.
        device: usize,
        /// What was asked.
        asked: Asked,
        /// The status byte (SAM-5).
        status: u8,
    },
    /// The data of an answer that was GOOD break their grammar at this place, or the sense data of
    /// a CHECK CONDITION can't be read.
    BadData {
        /// The device.
        device: usize,
        /// What was asked.
        asked: Asked,
        /// The number of bytes before the fault.
        place: u64,
    },
}

/// The exit of a run that ended early on this device.
pub(crate) fn exit_at(device: usize, fault: FenceFault) -> FenceExit
    ensures { result ≡ spec_at device fault }
{
    match fault {
        FenceFault::Link { asked, fault } => FenceExit::Link {
            device,
            asked,
            fault,
        },
        FenceFault::Conflict { asked } => FenceExit::Conflict { device, asked },
        FenceFault::Check { asked, code } => FenceExit::Check {
            device,
            asked,
            code,
        },
        FenceFault::OddStatus { asked, status } => FenceExit::OddStatus {
            device,
            asked,
            status,
        },
        FenceFault::BadData { asked, place } => FenceExit::BadData {
            device,
            asked,
            place,
        },
        FenceFault::StillThere => FenceExit::StillThere { device },
    }
}

/// The exit of a run that went through every device, by whether the key was found on one.
pub(crate) fn ended(errand: Errand, found: bool) -> FenceExit
    ensures { result ≡ spec_ended errand found }
{
    match errand {
        Errand::On | Errand::Off { .. } => FenceExit::Done,
        Errand::Status { .. } => {
            if found {
                FenceExit::Present
            } else {
                FenceExit::Absent
            }
        }
    }
}

/// The exit status where the target gave no answer that counts.
fn link_status(fault: LinkFault) -> u8
    ensures { result ≡ spec_status fault }
{
    match fault {
        LinkFault::Down => 3,
        LinkFault::Ended { .. } | LinkFault::BadReply { .. } | LinkFault::Rejected { .. } => 5,
        LinkFault::Refused { .. } => 10,
        LinkFault::Attention(_) => 13,
    }
}

impl FenceExit {
    /// The exit status of the process.
    pub fn status(self) -> u8
        ensures { result ≡ status_of self }
    {
        match self {
            FenceExit::Done | FenceExit::Present => 0,
            FenceExit::BadWords => 1,
            FenceExit::Absent => 2,
            FenceExit::Link { fault, .. } => link_status(fault),
            FenceExit::WriteFault => 4,
            FenceExit::NoMemory => 7,
            FenceExit::SelfFence => 9,
            FenceExit::Conflict { .. } => 11,
            FenceExit::Check { .. } => 12,
            FenceExit::BadData { .. } => 14,
            FenceExit::OddStatus { .. } => 15,
            FenceExit::StillThere { .. } => 16,
        }
    }

    /// On which device the run ended early, and why. None where it didn't.
    pub fn fault(self) -> Option<(usize, FenceFault)>
        ensures { IfSome result (λ f. self ≡ spec_at f.0 f.1) }
    {
        match self {
            FenceExit::Link {
                device,
                asked,
                fault,
            } => Some((device, FenceFault::Link { asked, fault })),
            FenceExit::Conflict { device, asked } => Some((device, FenceFault::Conflict { asked })),
            FenceExit::Check {
                device,
                asked,
                code,
            } => Some((device, FenceFault::Check { asked, code })),
            FenceExit::OddStatus {
                device,
                asked,
                status,
            } => Some((device, FenceFault::OddStatus { asked, status })),
            FenceExit::BadData {
                device,
                asked,
                place,
            } => Some((device, FenceFault::BadData { asked, place })),
            FenceExit::StillThere { device } => Some((device, FenceFault::StillThere)),
            _ => None,
        }
    }
}

/// How a run ended, as a user reads it.
impl fmt::Display for FenceExit {
    fn fmt<W: fmt::Write>(&self, f: &mut fmt::Formatter<W>) -> fmt::Result {
        match *self {
            FenceExit::Done => f.write_str("all was done"),
            FenceExit::Present => f.write_str("the key is registered"),
            FenceExit::Absent => f.write_str("the key isn't registered"),
            FenceExit::BadWords => f.write_str("the words make no command"),
            FenceExit::SelfFence => f.write_str("a node can't fence itself off"),
            FenceExit::WriteFault => f.write_str("the output couldn't be written"),
            FenceExit::NoMemory => f.write_str("no memory for the run"),
            exit => match exit.fault() {
                Some((_, fault)) => write!(f, "{fault}"),
                None => Ok(()),
            },
        }
    }
}
