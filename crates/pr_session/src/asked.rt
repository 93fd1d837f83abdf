//! A turn that waits for the outcome of its act.

use crate::act::{Act, Want};
use crate::job::Job;
use crate::state::Rejection;
use pr_link::{Frame, RawCdb};
use pr_words::Nexus;

/// An act that was asked for, and what its reply needs.
#[derive(Clone, Copy, Debug)]
pub(crate) enum Asked {
    /// A Login frame's.
    Login {
        head: Frame,
        nexus: Nexus,
        version: u8,
    },
    /// A Command frame's.
    Command {
        head: Frame,
        nexus: Nexus,
        cdb: RawCdb,
        out_len: usize,
    },
    /// A step of a task.
    Step {
        nexus: Nexus,
        job: Job,
    },
    /// A Logout frame's.
    Logout {
        head: Frame,
        nexus: Nexus,
    },
    /// The logout before a Reject.
    Reject {
        nexus: Nexus,
        rejection: Rejection,
    },
}

impl Asked {
    ghost use Rattle.std.specs.Prelude.{◌≡◌};
    ghost use Rattle.pr_session.specs.Asking.{want_of};
    ghost use Rattle.pr_session.specs.States.{nexus_by};

    /// What a session wants while the turn waits.
    #[inline(always)]
    pub(crate) fn want(&self) -> Want
        ensures { result ≡ want_of self.now }
    {
        match *self {
            Asked::Login { nexus, version, .. } => Want::Act(nexus, Act::Login { version }),
            Asked::Command {
                head,
                nexus,
                cdb,
                out_len,
            } => Want::Act(
                nexus,
                Act::Command {
                    lun: head.lun,
                    cdb,
                    out_len,
                },
            ),
            Asked::Step { nexus, .. } => Want::Act(nexus, Act::Step),
            Asked::Logout { nexus, .. } | Asked::Reject { nexus, .. } => {
                Want::Act(nexus, Act::Logout)
            }
        }
    }

    /// The nexus that is logged in while the turn waits.
    pub(crate) fn nexus(&self) -> Option<Nexus>
        ensures { result ≡ nexus_by self.now }
    {
        match *self {
            Asked::Login { .. } => None,
            Asked::Command { nexus, .. }
            | Asked::Step { nexus, .. }
            | Asked::Logout { nexus, .. }
            | Asked::Reject { nexus, .. } => Some(nexus),
        }
    }
}
