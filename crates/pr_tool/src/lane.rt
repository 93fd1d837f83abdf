//! The lanes of a schedule.

ghost use Rattle.std.specs.Prelude.{◌≡◌, ◌≤◌, [], take, length, IfOk, OnOk, OnErr};
ghost use Rattle.pr_words.specs.declared.limits.TheConstants.{HELD};
ghost use Rattle.pr_io.specs.Causes.{HasCause};
ghost use Rattle.pr_io.specs.Told.{told_sink};
ghost use Rattle.pr_model.specs.Lanes as lanes;
ghost use Rattle.pr_model.specs.Lanes.{Dead, arrived};
ghost use Rattle.pr_model.specs.Runs.{TakesTurn, CutsTurn, closing};
ghost use Rattle.pr_core.specs.View.{KeepsOthers, Extends};
ghost use Rattle.pr_session.specs.Sessions.{IsSettled, reply_of};
ghost use Rattle.pr_session.specs.Driving.{Agrees};
ghost use Rattle.pr_session.specs.Feeding.{fed};

use crate::output::write_reply;
use pr_core::Core;
use pr_io::{Disk, Failed, Medium, Sink};
use pr_session::{Session, close, drive};
use std::alloc::{AllocError, Global};

/// A lane: the session of a connection between two turns, all of whose replies went out.
#[derive(Drop)]
pub struct Lane {
    session: Session,
    ghost settled: { IsSettled session },
    ghost silent: { reply_of session ≡ [] },
}

impl Lane {
    ghost use Rattle.pr_tool.specs.Lanes.{lane_of, Advances};
    ghost use Rattle.pr_tool.specs.Exits.{Ran};

    /// A new connection. All memory is taken here, as a session does.
    pub fn new(alloc: Global) -> Result<Lane, AllocError>
        ensures { IfOk result (λ l. lane_of l ≡ lanes.fresh) }
    {
        Ok(Lane {
            session: Session::new(alloc)?,
        })
    }

    /// The connection is closed, and a nexus that is logged in is logged out without a reply. What
    /// comes next is a new connection.
    pub fn close<M: Medium, D: Disk>(&mut self, core: &mut Core<M, D>, who: u64)
        requires { Agrees (lane_of self.old).phase who core.old }
        ensures entries { Extends core.old core.new (closing who (lane_of self.old).phase) }
        ensures lane { lane_of self.new ≡ lanes.fresh }
        ensures others { KeepsOthers who core.old core.new }
    {
        close(&mut self.session, core, who);
    }

    /// The connection is a new one, in the same memory: the target has lost power.
    pub fn renew(&mut self)
        ensures { lane_of self.new ≡ lanes.fresh }
    {
        self.session.fresh();
    }

    /// Takes the first bytes, as many as there is room for, and says how many. A dead lane drops
    /// all.
    pub fn feed(&mut self, bytes: &[u8]) -> usize
        ensures count { result ≡ fed (lane_of self.old) bytes.now }
        ensures lane { lane_of self.new ≡ arrived (lane_of self.old) (take result bytes.now) }
        ensures bound { length (lane_of self.new).bytes ≤ HELD }
    {
        self.session.feed(bytes)
    }

    /// One turn of the lane of a number, whose reply is written.
    pub fn turn<K: Sink, M: Medium, D: Disk>(
        &mut self,
        sink: &mut K,
        core: &mut Core<M, D>,
        who: u8,
    ) -> Result<(), Failed>
        requires { Agrees (lane_of self.old).phase who core.old }
        ensures all { OnOk result (Ran (TakesTurn who) (told_sink K.Sink sink.old)
            (told_sink K.Sink sink.new)
            core.old (lane_of self.old) core.new (lane_of self.new)) }
        ensures some { OnErr result (Ran (CutsTurn who) (told_sink K.Sink sink.old)
            (told_sink K.Sink sink.new)
            core.old (lane_of self.old) core.new (lane_of self.new)) }
        ensures agrees { Agrees (lane_of self.new).phase who core.new }
        ensures others { KeepsOthers who core.old core.new }
        ensures room { length (lane_of self.old).bytes ≡ HELD →
            ((lane_of self.old).phase ≡ Dead → ⊥) →
            Advances (lane_of self.old) (lane_of self.new) }
        ensures cause { HasCause (K.faults sink.old) (K.faults sink.new) result }
    {
        drive(&mut self.session, core, who as u64);
        write_reply(sink, who, &mut self.session)
    }
}
