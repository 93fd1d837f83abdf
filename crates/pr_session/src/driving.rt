//! Sessions driven with a target that their owner holds.

ghost use Rattle.std.specs.Prelude.{◌≡◌, []};
ghost use Rattle.pr_model.specs.Lanes.{turn, fresh, turned};
ghost use Rattle.pr_model.specs.Runs.{closing};
ghost use Rattle.pr_core.specs.View.{KeepsOthers, Extends};
ghost use Rattle.pr_session.specs.Sessions.{IsSettled, HasTurned, lane_of, reply_of};
ghost use Rattle.pr_session.specs.Driving.{Agrees, Follows, LeavesLess};

use crate::act::Want;
use crate::session::Session;
use pr_core::Core;
use pr_io::{Disk, Medium};

/// One turn of the session, with a target that knows it by a number: at most one act. The reply
/// then waits.
#[inline(always)]
pub fn drive<M: Medium, D: Disk>(session: &mut Session, core: &mut Core<M, D>, who: u64)
    requires settled { IsSettled session.old }
    requires replied { reply_of session.old ≡ [] }
    requires agrees { Agrees (lane_of session.old).phase who core.old }
    ensures follows { Follows who core.old (lane_of session.old) (turn (lane_of session.old))
        core.new (lane_of session.new) (reply_of session.new) }
    ensures settled { IsSettled session.new }
    ensures agrees { Agrees (lane_of session.new).phase who core.new }
    ensures onward { LeavesLess (lane_of session.old).phase (lane_of session.new).phase }
    ensures others { KeepsOthers who core.old core.new }
{
    match session.want() {
        Want::Need(_) | Want::Dead => {}
        Want::Act(..) => {
            let out = session.perform(core, who);
            session.answer(&out);
        }
    }
}

/// The connection is closed: a nexus that is logged in is logged out without a reply, and what
/// comes next is a new connection.
pub fn close<M: Medium, D: Disk>(session: &mut Session, core: &mut Core<M, D>, who: u64)
    requires settled { IsSettled session.old }
    requires agrees { Agrees (lane_of session.old).phase who core.old }
    ensures entries { Extends core.old core.new (closing who (lane_of session.old).phase) }
    ensures new { HasTurned session.new (turned fresh []) }
    ensures others { KeepsOthers who core.old core.new }
{
    if let Some(nexus) = session.nexus() {
        core.logout(who, nexus);
    }
    session.fresh();
}
