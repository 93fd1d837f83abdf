//! Sessions driven with a target that threads share, by turns of a gate.

ghost use Rattle.std.specs.Prelude.{◌≡◌, ◌≤◌, ◌^◌, [], Some, is_some, true, IfOk, IfErr, MatchBool};
ghost use mathlib.Core.List.{IsPrefix};
ghost use Rattle.pr_model.specs.Entries.{History};
ghost use Rattle.pr_model.specs.Lanes.{Dead, Idle, turn};
ghost use Rattle.pr_core.specs.declared.ground.Ground.{Ground};
ghost use Rattle.pr_core.specs.Shared.{IsRightOn};
ghost use Rattle.pr_gate.specs.Passes.{IsOf, IsFree, IsSamePass, number_of, seen_of, own_of, ground_of};
ghost use Rattle.pr_session.specs.declared.asked.Asked.{Asked};
ghost use Rattle.pr_session.specs.States.{asked_in};
ghost use Rattle.pr_session.specs.Sessions.{IsSettled, lane_of, reply_of, work_of, rejection_of};
ghost use Rattle.pr_session.specs.Driving.{LeavesLess};
ghost use Rattle.pr_session.specs.Ends.{IsMade, EndsTurn};
ghost use Rattle.pr_session.specs.Sharing.{WillAgree, WillBeReady, Publishes, Shares};

use crate::act::{Out, Want};
use crate::session::Session;
use pr_core::Core;
use pr_gate::{Gate, Pass, Spent};
use pr_io::{Disk, Medium};
use std::sync::Wait;

/// One turn of a session that lives, with a target that threads share: at most one act, which takes
/// one turn of the gate. The reply then waits. It says whether there was a turn to make: where there
/// was none, more bytes of the connection are wanted.
///
/// # Errors
///
/// Where the gate gives no more turns. The act isn't done then, and has no reply.
pub fn drive_shared<M: Medium, D: Disk, R: Wait>(
    rt: &R,
    session: &mut Session,
    gate: &Gate<Core<M, D>>,
    pass: &mut Pass<Core<M, D>>,
) -> Result<bool, Spent>
    requires settled { IsSettled session.old }
    requires lives { (lane_of session.old).phase ≡ Dead → ⊥ }
    requires replied { reply_of session.old ≡ [] }
    requires gate { IsOf gate.now pass.old × IsFree pass.old }
    requires agrees { WillAgree M.Medium D.Disk (lane_of session.old).phase (ground_of pass.old)
        (number_of pass.old) (seen_of pass.old) }
    ensures same { IsSamePass pass.old pass.new × IsFree pass.new }
    ensures seen { IsPrefix (seen_of pass.old) (seen_of pass.new) }
    ensures right { (g : Ground) → ground_of pass.old ≡ Some g
        → IsRightOn M.Medium D.Disk g (seen_of pass.old)
        → IsRightOn M.Medium D.Disk g (seen_of pass.new) }
    ensures shares { IfOk result (λ _. Shares (number_of pass.old) (own_of pass.old)
        (lane_of session.old) (turn (lane_of session.old)) (own_of pass.new)
        (lane_of session.new) (reply_of session.new)) }
    ensures made { IfOk result (λ made. MatchBool made (IsMade (turn (lane_of session.old)))
        (turn (lane_of session.old) ≡ Idle)) }
    ensures ends { IfOk result (λ _. (lane_of session.new).phase ≡ Dead
        → EndsTurn (rejection_of session.new) (turn (lane_of session.old))) }
    ensures settled { IfOk result (λ _. IsSettled session.new) }
    ensures agrees { IfOk result (λ _. WillAgree M.Medium D.Disk (lane_of session.new).phase
        (ground_of pass.new) (number_of pass.new) (seen_of pass.new)) }
    ensures onward { IfOk result (λ _. LeavesLess (lane_of session.old).phase
        (lane_of session.new).phase) }
    ensures spent { IfErr result (λ spent. (2 ^ 62 ≤ spent.ticket)
        × (own_of pass.new ≡ own_of pass.old)) }
{
    match session.want() {
        Want::Need(_) => Ok(false),
        Want::Dead => Ok(true),
        Want::Act(..) => {
            let out = publish(rt, session, gate, pass)?;
            session.answer(&out);
            Ok(true)
        }
    }
}

/// Has the act that is wanted done in one turn of the gate, which publishes its entry.
fn publish<M: Medium, D: Disk, R: Wait>(
    rt: &R,
    session: &mut Session,
    gate: &Gate<Core<M, D>>,
    pass: &mut Pass<Core<M, D>>,
) -> Result<Out, Spent>
    requires gate { IsOf gate.now pass.old × IsFree pass.old }
    requires wants { is_some (asked_in session.old.state) ≡ true }
    requires ready { WillBeReady M.Medium D.Disk session.old (ground_of pass.old)
        (number_of pass.old) (seen_of pass.old) }
    ensures same { IsSamePass pass.old pass.new × IsFree pass.new }
    ensures seen { IsPrefix (seen_of pass.old) (seen_of pass.new) }
    ensures right { (g : Ground) → ground_of pass.old ≡ Some g
        → IsRightOn M.Medium D.Disk g (seen_of pass.old)
        → IsRightOn M.Medium D.Disk g (seen_of pass.new) }
    ensures publishes { IfOk result (λ out. (a : Asked) → asked_in session.old.state ≡ Some a
        → Publishes M.Medium D.Disk a (number_of pass.old) (work_of session.old) out
        (work_of session.new) (ground_of pass.new) (own_of pass.old) (own_of pass.new)
        (seen_of pass.new)) }
    ensures keeps { (session.new.state ≡ session.old.state)
        × (session.new.deframer ≡ session.old.deframer) }
    ensures spent { IfErr result (λ spent. (2 ^ 62 ≤ spent.ticket)
        × (own_of pass.new ≡ own_of pass.old)) }
{
    let who = pass.number();
    let sent = session.sent_bytes();
    let mut turn = gate.enter(rt, pass)?;
    let out = session.perform(turn.value(), who);
    let entry = session.entry(who, sent, &out);
    gate.leave(pass, turn, entry);
    Ok(out)
}
