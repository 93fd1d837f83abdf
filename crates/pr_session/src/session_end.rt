//! How serving a connection ends.

/// How many frames of one connection are replied to at the most.
pub const FRAMES: u64 = 1 << 32;

/// How serving a connection ended. A place is the number of the connection's bytes before a frame,
/// modulo 2^64.
#[derive(Clone, Copy, Debug, PartialEq, Eq)]
pub enum SessionEnd {
    /// A Logout was answered, or the source ended between two frames.
    Closed,
    /// The source ended inside a frame, which asked for nothing.
    Cut { place: u64 },
    /// A frame breaks a rule, as `Rejection` has it.
    Rejected { place: u64, reason: u8 },
    /// The source failed.
    ReadFault,
    /// The sink failed: the last reply isn't written whole.
    WriteFault,
    /// As many frames were replied to as one connection may have.
    SpentFrames,
    /// The gate gives no more turns.
    SpentTicket { ticket: u64 },
    /// There was no memory for the session. Nothing was read.
    NoMemory,
}
