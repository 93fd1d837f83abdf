//! What an entry says was done.

use crate::answers::CommandOut;
use crate::excerpt::Excerpt;
use pr_tasks::StepOut;

/// An act, and how it came out.
#[derive(Drop)]
pub(crate) enum Deed {
    Login {
        version: u8,
        code: u8,
    },
    /// The CDB is the first bytes of the array, and the data-out the first bytes of what was sent;
    /// the data-in stands at the front of what was left.
    Command {
        lun: u16,
        cdb: [u8; 16],
        cdb_len: usize,
        sent: Excerpt,
        sent_len: usize,
        out: CommandOut,
        left: Excerpt,
    },
    /// What was carried is the first bytes of what was sent, and a block that was read stands at the
    /// front of what was left.
    Step {
        sent: Excerpt,
        sent_len: usize,
        out: StepOut,
        left: Excerpt,
    },
    Logout,
}
