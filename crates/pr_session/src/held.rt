//! Serving a whole connection over a session that its owner holds.

ghost use Rattle.std.specs.Prelude.{◌≡◌, ◌≤◌, ◌+◌, ◌++◌, ◌^◌, ℕ, [], Some, IfOk, IfErr};
ghost use mathlib.Core.List.{IsPrefix};
ghost use Rattle.pr_model.specs.Lanes.{fresh, turned};
ghost use Rattle.pr_model.specs.Runs.{closing};
ghost use Rattle.pr_core.specs.declared.ground.Ground.{Ground};
ghost use Rattle.pr_core.specs.Shared.{IsRightOn};
ghost use Rattle.pr_gate.specs.Passes.{IsOf, IsFree, IsSamePass, number_of, seen_of, own_of, ground_of};
ghost use Rattle.pr_session.specs.Sessions.{HasTurned, IsSettled, lane_of};
ghost use Rattle.pr_session.specs.Sharing.{WillAgree};
ghost use Rattle.pr_session.specs.Ends.{Over, Served, IsCaused, ComesOfEnd, IsWithin, UnlessSpent, replies_in};

use crate::serving::serve_turn;
use crate::session::Session;
use crate::session_end::{FRAMES, SessionEnd};
use pr_core::{Core, Entry};
use pr_gate::{Gate, Pass, Spent};
use pr_io::{Breath, Disk, Medium, Sink, Source};
use std::sync::Wait;

/// Serves a connection from a source and a sink until it ends, over a session that is as `new` or
/// `fresh` leaves it, with a target that threads share. Each entry takes one turn of the gate. A
/// nexus that is still logged in at the end is logged out then, unless the gate gives no more turns.
///
/// Between two steps of a READ or WRITE, when other threads have their turns, `breath` comes.
/// Memory isn't taken, so it never ends with `NoMemory`. What the session holds afterwards is of no
/// use; made `fresh`, it serves another connection.
pub fn serve_held<S: Source, K: Sink, M: Medium, D: Disk, B: Breath, R: Wait>(
    rt: &R,
    session: &mut Session,
    gate: &Gate<Core<M, D>>,
    pass: &mut Pass<Core<M, D>>,
    source: &mut S,
    sink: &mut K,
    breath: &mut B,
) -> SessionEnd
    requires new { HasTurned session.old (turned fresh []) }
    requires gate { IsOf gate.now pass.old × IsFree pass.old }
    ensures same { IsSamePass pass.old pass.new × IsFree pass.new }
    ensures seen { IsPrefix (seen_of pass.old) (seen_of pass.new) }
    ensures right { (g : Ground) → ground_of pass.old ≡ Some g
        → IsRightOn M.Medium D.Disk g (seen_of pass.old)
        → IsRightOn M.Medium D.Disk g (seen_of pass.new) }
    ensures served { Served result (number_of pass.old) (S.rest source.old) (S.rest source.new)
        (K.written sink.old) (K.written sink.new) (own_of pass.old) (own_of pass.new) }
    ensures cause { IsCaused result (S.faults source.old) (S.faults source.new)
        (K.faults sink.old) (K.faults sink.new) }
{
    let end = serve_frames(rt, session, gate, pass, source, sink, breath);
    if let SessionEnd::SpentTicket { .. } = end {
        return end;
    }
    match log_out(rt, session, gate, pass) {
        Ok(()) => end,
        Err(Spent { ticket }) => SessionEnd::SpentTicket { ticket },
    }
}

/// Serves a connection until it ends; a nexus may still be logged in then.
fn serve_frames<S: Source, K: Sink, M: Medium, D: Disk, B: Breath, R: Wait>(
    rt: &R,
    session: &mut Session,
    gate: &Gate<Core<M, D>>,
    pass: &mut Pass<Core<M, D>>,
    source: &mut S,
    sink: &mut K,
    breath: &mut B,
) -> SessionEnd
    requires new { HasTurned session.old (turned fresh []) }
    requires gate { IsOf gate.now pass.old × IsFree pass.old }
    ensures same { IsSamePass pass.old pass.new × IsFree pass.new }
    ensures seen { IsPrefix (seen_of pass.old) (seen_of pass.new) }
    ensures right { (g : Ground) → ground_of pass.old ≡ Some g
        → IsRightOn M.Medium D.Disk g (seen_of pass.old)
        → IsRightOn M.Medium D.Disk g (seen_of pass.new) }
    ensures over { Over result (number_of pass.old) (S.rest source.old) (S.rest source.new)
        (K.written sink.old) (K.written sink.new) (own_of pass.old) (own_of pass.new)
        (lane_of session.new) }
    ensures within { (n : ℕ) → replies_in (own_of pass.new) ≡ n + replies_in (own_of pass.old)
        → IsWithin result (lane_of session.new) n }
    ensures ended { ComesOfEnd result (lane_of session.new) (S.rest source.new) }
    ensures cause { IsCaused result (S.faults source.old) (S.faults source.new)
        (K.faults sink.old) (K.faults sink.new) }
    ensures left { UnlessSpent result (IsSettled session.new
        × WillAgree M.Medium D.Disk (lane_of session.new).phase (ground_of pass.new)
        (number_of pass.new) (seen_of pass.new)) }
{
    let mut replied = 0;
    for _ in rt.forever() {
        match serve_turn(rt, session, gate, pass, source, sink) {
            Ok(true) => {
                replied += 1;
                if replied == FRAMES {
                    return SessionEnd::SpentFrames;
                }
            }
            Ok(false) => breathe(session, breath),
            Err(end) => return end,
        }
    }
    unreachable!()
}

/// Behind a step of a task that goes on, other threads may have their turns.
fn breathe<B: Breath>(session: &Session, breath: &mut B) {
    if let Some((nexus, done)) = session.moved()
        && done > 0
    {
        breath.between((nexus.name, nexus.port), done);
    }
}

/// A nexus that is logged in is logged out, by one turn of the gate.
///
/// # Errors
///
/// Where the gate gives no more turns. The nexus stays logged in then.
fn log_out<M: Medium, D: Disk, R: Wait>(
    rt: &R,
    session: &Session,
    gate: &Gate<Core<M, D>>,
    pass: &mut Pass<Core<M, D>>,
) -> Result<(), Spent>
    requires settled { IsSettled session.now }
    requires gate { IsOf gate.now pass.old × IsFree pass.old }
    requires agrees { WillAgree M.Medium D.Disk (lane_of session.now).phase (ground_of pass.old)
        (number_of pass.old) (seen_of pass.old) }
    ensures same { IsSamePass pass.old pass.new × IsFree pass.new }
    ensures seen { IsPrefix (seen_of pass.old) (seen_of pass.new) }
    ensures right { (g : Ground) → ground_of pass.old ≡ Some g
        → IsRightOn M.Medium D.Disk g (seen_of pass.old)
        → IsRightOn M.Medium D.Disk g (seen_of pass.new) }
    ensures closes { IfOk result (λ _. own_of pass.new
        ≡ own_of pass.old ++ closing (number_of pass.old) (lane_of session.now).phase) }
    ensures spent { IfErr result (λ spent. (2 ^ 62 ≤ spent.ticket)
        × (own_of pass.new ≡ own_of pass.old)) }
{
    let Some(nexus) = session.nexus() else {
        return Ok(());
    };
    let who = pass.number();
    let mut turn = gate.enter(rt, pass)?;
    turn.value().logout(who, nexus);
    gate.leave(pass, turn, Entry::logout(who, nexus));
    Ok(())
}
