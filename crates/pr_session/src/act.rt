//! What a session asks of a target, and how that came out.

use pr_core::CommandOut;
use pr_link::RawCdb;
use pr_tasks::StepOut;
use pr_words::Nexus;

/// What is asked of a target for a nexus.
#[derive(Clone, Copy, Debug)]
pub enum Act {
    /// A login, of a version of the link's protocol.
    Login {
        version: u8,
    },
    /// A command, whose data-out is the first `out_len` bytes of the session's data.
    Command {
        lun: u16,
        cdb: RawCdb,
        out_len: usize,
    },
    /// A step of the task that the last command began. It moves the session's block.
    Step,
    /// A logout.
    Logout,
}

/// What a session wants next.
#[derive(Clone, Copy, Debug)]
pub enum Want {
    /// So many more bytes, before it can say more.
    Need(usize),
    /// An act for this nexus, and then its outcome.
    Act(Nexus, Act),
    /// Nothing any more: the session has ended.
    Dead,
}

/// How an act came out.
#[derive(Clone, Copy, Debug)]
pub enum Out {
    /// A login's code, 0 where it is accepted.
    Login(u8),
    /// A command's answer, whose data-in stands at the front of the session's data.
    Command(CommandOut),
    /// What a step did. What it read stands in the session's block.
    Step(StepOut),
    /// The nexus is logged out.
    Logout,
}
