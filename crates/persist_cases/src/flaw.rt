use std::alloc::{AllocError, AllocFailed};
use thiserror::Error;

/// Why a line isn't read, or in what a run differs from what was to come.
#[derive(Clone, Copy, Debug, PartialEq, Eq, Error)]
pub(crate) enum Flaw {
    #[error("no line has this form")]
    UnknownLine,
    #[error("a word is neither whole bytes in hexadecimal nor a name of bytes")]
    UnknownWord,
    #[error("no case has begun")]
    NoCase,
    #[error("no target answers by itself")]
    NoTarget,
    #[error("a frame is too long")]
    TooLong,
    #[error("the target doesn't open")]
    TargetShut,
    #[error("a command before it ends with status {0}")]
    StatusBefore(u8),
    #[error("it ends with status {0}")]
    OtherStatus(u8),
    #[error("something else is sent")]
    OtherRequests,
    #[error("something else is printed")]
    OtherText,
    #[error("the user is told something else")]
    OtherLine,
    #[error("call {0} of the wire fails, and the status is {1}")]
    AtCall(u64, u8),
    #[error("put {0} fails, and the status is {1}")]
    AtPut(u64, u8),
    #[error("the target ends behind {0} bytes, and the status is {1}")]
    AtEnd(usize, u8),
    #[error("the data of reply {0} end behind {1} bytes, and the status is {2}")]
    AtData(usize, usize, u8),
    #[error("no memory")]
    Memory,
}

impl From<AllocError> for Flaw {
    fn from(_error: AllocError) -> Flaw {
        Flaw::Memory
    }
}

impl<T: Drop> From<AllocFailed<T>> for Flaw {
    fn from(_error: AllocFailed<T>) -> Flaw {
        Flaw::Memory
    }
}
