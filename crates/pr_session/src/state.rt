//! What a session has reached.

use crate::asked::Asked;
use crate::job::Job;
use pr_words::Nexus;

/// Why a session was ended by a Reject: the frame behind the first `place` bytes of its connection,
/// modulo 2^64, breaks a rule: 1 to 4 as the deframer has them, 5 the first frame that is accepted
/// is a Login, and no Login follows.
#[derive(Clone, Copy, Debug)]
pub struct Rejection {
    pub place: u64,
    pub reason: u8,
}

/// What a session has reached.
#[derive(Clone, Copy, Debug)]
pub(crate) enum State {
    /// Nobody is logged in.
    Fresh,
    /// This nexus is logged in.
    In(Nexus),
    /// And so it is here, and a task of it runs.
    Busy(Nexus, Job),
    /// The session has ended, by a Reject or by a Logout.
    Dead(Option<Rejection>),
    /// A turn waits for the outcome of its act.
    Asking(Asked),
}
