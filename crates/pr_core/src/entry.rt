//! Entries of a history, as a thread hands them on.

ghost use Rattle.std.specs.Prelude.{◌≡◌, ◌<◌, ◌≤◌, take, length};
ghost use Rattle.pr_words.specs.declared.limits.TheConstants.{BLOCK};
ghost use Rattle.pr_model.specs.Entries as entries;
ghost use Rattle.pr_core.specs.Outs.{out_of, step_out};

use crate::answers::CommandOut;
use crate::deed::Deed;
use crate::excerpt::Excerpt;
use pr_tasks::StepOut;
use pr_words::Nexus;
use std::marker::Model;

/// What a target did in one turn: who did what under which nexus, and what came of it. Its long
/// bytes are there in proofs alone.
#[derive(Drop)]
pub struct Entry {
    who: u64,
    nexus: Nexus,
    deed: Deed,
}

impl Model for Entry {
    ghost use Rattle.pr_model.specs.Entries as entries;
    ghost use Rattle.pr_core.specs.Deeds.{act_of, outcome_of};

    ghost Value = { entries.Entry };

    ghost view = { λ e. entries.entry e.who e.nexus (act_of e.deed) (outcome_of e.deed) };
}

impl Entry {
    /// A login, with its version and its code.
    pub fn login(who: u64, nexus: Nexus, version: u8, code: u8) -> Entry
        ensures { result ≡ entries.entry who nexus (entries.Login version)
            (entries.Login_code code) }
    {
        Entry {
            who,
            nexus,
            deed: Deed::Login { version, code },
        }
    }

    /// A command of 1 to 16 CDB bytes. Its data-out is the first `sent_len` bytes of what was sent,
    /// and its data-in stands at the front of what was left.
    pub fn command(
        who: u64,
        nexus: Nexus,
        lun: u16,
        cdb: &[u8],
        sent: Excerpt,
        sent_len: usize,
        out: CommandOut,
        left: Excerpt,
    ) -> Entry
        requires few { length cdb.now ≤ 16 }
        ensures { result ≡ entries.entry who nexus (entries.Command lun cdb.now
            (take sent_len sent)) (out_of out left) }
    {
        let cdb_len = cdb.len();
        let mut bytes = [0; 16];
        bytes[..cdb_len].copy_from_slice(cdb);
        Entry {
            who,
            nexus,
            deed: Deed::Command {
                lun,
                cdb: bytes,
                cdb_len,
                sent,
                sent_len,
                out,
                left,
            },
        }
    }

    /// A step of a task. It carries the first `sent_len` bytes of what was sent, and a block that it
    /// read stands at the front of what was left.
    pub fn step(
        who: u64,
        nexus: Nexus,
        sent: Excerpt,
        sent_len: usize,
        out: StepOut,
        left: Excerpt,
    ) -> Entry
        ensures { result ≡ entries.entry who nexus (entries.Step (take sent_len sent))
            (step_out out (take BLOCK left)) }
    {
        Entry {
            who,
            nexus,
            deed: Deed::Step {
                sent,
                sent_len,
                out,
                left,
            },
        }
    }

    /// A logout.
    pub fn logout(who: u64, nexus: Nexus) -> Entry
        ensures { result ≡ entries.entry who nexus entries.Logout entries.Left }
    {
        Entry {
            who,
            nexus,
            deed: Deed::Logout,
        }
    }
}
