//! Serving a connection from a source and a sink, with a target that threads share.

ghost use Rattle.std.specs.Prelude.{◌≡◌, ◌≤◌, ◌+◌, ◌^◌, ℕ, List, Option, [], Some, true, IfOk, IfErr, MatchBool};
ghost use mathlib.Core.List.{IsPrefix};
ghost use Rattle.pr_io.specs.Causes.{Rose};
ghost use Rattle.pr_model.specs.Entries.{History};
ghost use Rattle.pr_model.specs.Lanes.{AwaitsFrame, Dead, Idle, turn};
ghost use Rattle.pr_core.specs.declared.ground.Ground.{Ground};
ghost use Rattle.pr_core.specs.Shared.{IsRightOn};
ghost use Rattle.pr_gate.specs.Passes.{IsOf, IsFree, IsSamePass, number_of, seen_of, own_of, ground_of};
ghost use Rattle.pr_session.specs.declared.session_end.SessionEnd.TheVariants.{SpentTicket, ReadFault, WriteFault};
ghost use Rattle.pr_session.specs.Sessions.{IsSettled, lane_of, reply_of};
ghost use Rattle.pr_session.specs.Sharing.{WillAgree};
ghost use Rattle.pr_session.specs.Ends.{Since, Over, IsCaused, ComesOfEnd, MakesLast, UnlessSpent, frames_by, frames_if, replies_in, end_at, end_after};

use crate::session::Session;
use crate::session_end::SessionEnd;
use crate::sharing::drive_shared;
use crate::state::Rejection;
use pr_core::Core;
use pr_gate::{Gate, Pass, Spent};
use pr_io::{Disk, Medium, Sink, Source};
use std::sync::Wait;

/// One step of serving a connection: one turn of its session, whose reply is sent, or one call of
/// the source for more bytes. It says whether a frame was replied to.
///
/// # Errors
///
/// How serving ended. At each end but `SpentTicket` a nexus may still be logged in.
pub fn serve_turn<S: Source, K: Sink, M: Medium, D: Disk, R: Wait>(
    rt: &R,
    session: &mut Session,
    gate: &Gate<Core<M, D>>,
    pass: &mut Pass<Core<M, D>>,
    source: &mut S,
    sink: &mut K,
) -> Result<bool, SessionEnd>
    requires settled { IsSettled session.old }
    requires lives { (lane_of session.old).phase ≡ Dead → ⊥ }
    requires replied { reply_of session.old ≡ [] }
    requires gate { IsOf gate.now pass.old × IsFree pass.old }
    requires agrees { WillAgree M.Medium D.Disk (lane_of session.old).phase (ground_of pass.old)
        (number_of pass.old) (seen_of pass.old) }
    ensures same { IsSamePass pass.old pass.new × IsFree pass.new }
    ensures seen { IsPrefix (seen_of pass.old) (seen_of pass.new) }
    ensures right { (g : Ground) → ground_of pass.old ≡ Some g
        → IsRightOn M.Medium D.Disk g (seen_of pass.old)
        → IsRightOn M.Medium D.Disk g (seen_of pass.new) }
    ensures since { IfOk result (λ _. (rest written : Option (List ℕ)) (own : History)
        → Since (number_of pass.old) rest (S.rest source.old) written (K.written sink.old) own
        (own_of pass.old) session.old
        → Since (number_of pass.old) rest (S.rest source.new) written (K.written sink.new) own
        (own_of pass.new) session.new) }
    ensures over { IfErr result (λ end. (rest written : Option (List ℕ)) (own : History)
        → Since (number_of pass.old) rest (S.rest source.old) written (K.written sink.old) own
        (own_of pass.old) session.old
        → Over end (number_of pass.old) rest (S.rest source.new) written (K.written sink.new) own
        (own_of pass.new) (lane_of session.new)) }
    ensures cause { IfErr result (λ end. IsCaused end (S.faults source.old) (S.faults source.new)
        (K.faults sink.old) (K.faults sink.new)) }
    ensures ended { IfErr result (λ end. ComesOfEnd end (lane_of session.new)
        (S.rest source.new)) }
    ensures frames { IfOk result (λ replied. replies_in (own_of pass.new)
        ≡ frames_if replied + replies_in (own_of pass.old)) }
    ensures last { IfErr result (λ end. MakesLast end (lane_of session.new)
        (replies_in (own_of pass.old)) (replies_in (own_of pass.new))) }
    ensures calm { IfOk result (λ _. (S.faults source.new ≡ S.faults source.old)
        × (K.faults sink.new ≡ K.faults sink.old)) }
    ensures left { IfErr result (λ end. UnlessSpent end (IsSettled session.new
        × WillAgree M.Medium D.Disk (lane_of session.new).phase (ground_of pass.new)
        (number_of pass.new) (seen_of pass.new))) }
    ensures goes_on { IfOk result (λ _. IsSettled session.new × (reply_of session.new ≡ [])
        × ((lane_of session.new).phase ≡ Dead → ⊥)) }
    ensures agrees { IfOk result (λ _. WillAgree M.Medium D.Disk (lane_of session.new).phase
        (ground_of pass.new) (number_of pass.new) (seen_of pass.new)) }
{
    match drive_shared(rt, session, gate, pass) {
        Ok(true) => reply(session, sink),
        Ok(false) => match receive(session, source) {
            Ok(()) => Ok(false),
            Err(end) => Err(end),
        },
        Err(Spent { ticket }) => Err(SessionEnd::SpentTicket { ticket }),
    }
}

/// Takes bytes of a connection that wants some, or says how it ended: it does where the source has
/// ended or failed.
fn receive<S: Source>(session: &mut Session, source: &mut S) -> Result<(), SessionEnd>
    requires settled { IsSettled session.old }
    requires awaits { AwaitsFrame (lane_of session.old).phase }
    requires idle { turn (lane_of session.old) ≡ Idle }
    requires replied { reply_of session.old ≡ [] }
    ensures settled { IsSettled session.new }
    ensures replied { reply_of session.new ≡ [] }
    ensures state { session.new.state ≡ session.old.state }
    ensures since { IfOk result (λ _. (who : ℕ) (rest written written_now : Option (List ℕ))
        (own own_now : History)
        → Since who rest (S.rest source.old) written written_now own own_now session.old
        → Since who rest (S.rest source.new) written written_now own own_now session.new) }
    ensures over { IfErr result (λ end. (who : ℕ) (rest written written_now : Option (List ℕ))
        (own own_now : History)
        → Since who rest (S.rest source.old) written written_now own own_now session.old
        → Over end who rest (S.rest source.new) written written_now own own_now
        (lane_of session.new)) }
    ensures phase { (lane_of session.new).phase ≡ (lane_of session.old).phase }
    ensures cause { IfErr result (λ end. (sink sink_now : ℕ)
        → IsCaused end (S.faults source.old) (S.faults source.new) sink sink_now) }
    ensures ended { IfErr result (λ end. ComesOfEnd end (lane_of session.new)
        (S.rest source.new)) }
    ensures last { IfErr result (λ end. (n : ℕ) → MakesLast end (lane_of session.new) n n) }
    ensures calm { IfOk result (λ _. S.faults source.new ≡ S.faults source.old) }
{
    match session.take_from(source) {
        Ok(0) => Err(end_of(session)),
        Ok(_) => Ok(()),
        Err(_) => Err(SessionEnd::ReadFault),
    }
}

/// How a session ends whose source has ended.
fn end_of(session: &Session) -> SessionEnd
    ensures { result ≡ end_at (lane_of session.now) }
{
    if session.held() == 0 {
        SessionEnd::Closed
    } else {
        SessionEnd::Cut {
            place: session.place(),
        }
    }
}

/// Sends the reply that waits, if there is one, and says whether there was; or says how the session
/// ended: it does where the sink has failed, or where that was the last reply.
fn reply<K: Sink>(session: &mut Session, sink: &mut K) -> Result<bool, SessionEnd>
    requires settled { IsSettled session.old }
    requires lives { reply_of session.old ≡ [] → (lane_of session.old).phase ≡ Dead → ⊥ }
    ensures settled { IsSettled session.new }
    ensures lane { lane_of session.new ≡ lane_of session.old }
    ensures replied { IfOk result (λ _. reply_of session.new ≡ []) }
    ensures lives { IfOk result (λ _. (lane_of session.new).phase ≡ Dead → ⊥) }
    ensures since { IfOk result (λ _. (who : ℕ) (rest rest_now written : Option (List ℕ))
        (own own_now : History)
        → Since who rest rest_now written (K.written sink.old) own own_now session.old
        → Since who rest rest_now written (K.written sink.new) own own_now session.new) }
    ensures over { IfErr result (λ end. (who : ℕ) (rest rest_now written : Option (List ℕ))
        (own own_now : History)
        → Since who rest rest_now written (K.written sink.old) own own_now session.old
        → Over end who rest rest_now written (K.written sink.new) own own_now
        (lane_of session.new)) }
    ensures cause { IfErr result (λ end. (source source_now : ℕ)
        → IsCaused end source source_now (K.faults sink.old) (K.faults sink.new)) }
    ensures ended { IfErr result (λ end. (rest : Option (List ℕ))
        → ComesOfEnd end (lane_of session.new) rest) }
    ensures said { IfOk result (λ replied. frames_by (reply_of session.old)
        ≡ frames_if replied) }
    ensures last { IfErr result (λ end. (before now : ℕ) → now ≤ 1 + before
        → MakesLast end (lane_of session.new) before now) }
    ensures calm { IfOk result (λ _. K.faults sink.new ≡ K.faults sink.old) }
{
    if session.reply().is_empty() {
        return Ok(false);
    }
    match session.send_to(sink) {
        Ok(()) if session.is_dead() => Err(end_by(session.rejected())),
        Ok(()) => Ok(true),
        Err(_) => Err(SessionEnd::WriteFault),
    }
}

/// How a session has ended, by its Reject or by a Logout.
fn end_by(rejection: Option<Rejection>) -> SessionEnd
    ensures { result ≡ end_after rejection }
{
    match rejection {
        None => SessionEnd::Closed,
        Some(Rejection { place, reason }) => SessionEnd::Rejected { place, reason },
    }
}
