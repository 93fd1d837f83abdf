use std::alloc::{AllocError, AllocFailed};
use thiserror::Error;

/// Why a line of a file of conversations isn't read.
#[derive(Clone, Copy, Debug, PartialEq, Eq, Error)]
pub(crate) enum Flaw {
    #[error("no line has this form")]
    UnknownLine,
    #[error("a word is no whole bytes in hexadecimal, name, counter, run of bytes or bracket")]
    UnknownWord,
    #[error("no bytes have this name")]
    UnknownName,
    #[error("bytes have this name already")]
    NameTaken,
    #[error("a bracket stands without its partner")]
    LoneBracket,
    #[error("a CDB has no byte or more than 16")]
    CdbLength,
    #[error("no case has begun")]
    NoCase,
    #[error("no case of the file has this name")]
    UnknownCase,
    #[error("a number isn't decimal, or is greater than 1000000")]
    BadNumber,
    #[error("a counter stands outside a loop, or is too great for its bytes")]
    BadCounter,
    #[error("a loop begins in another, or isn't closed")]
    OpenLoop,
    #[error("no loop has begun")]
    NoLoop,
    #[error("no run ends so")]
    UnknownExit,
    #[error("a medium has no block or more than 65535")]
    MediumSize,
    #[error("an arrival or a frame is too long")]
    TooLong,
    #[error("no memory")]
    Memory,
}

impl From<AllocError> for Flaw {
    fn from(_error: AllocError) -> Flaw {
        Flaw::Memory
    }
}

impl<T: Drop> From<AllocFailed<T>> for Flaw {
    fn from(_error: AllocFailed<T>) -> Flaw {
        Flaw::Memory
    }
}
