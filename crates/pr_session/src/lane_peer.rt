//! A peer that is a session with a target of its own.

ghost use Rattle.std.specs.Prelude.{◌≡◌, ◌≤◌, ◌<◌, [], length, min, take, drop, MatchBool};
ghost use Rattle.pr_io.specs.Lines.{Line, new_line, hearing, saying, hung_up};
ghost use Rattle.pr_model.specs.Entries.{History};
ghost use Rattle.pr_model.specs.Lanes.{Idle, fresh, turn, turned};
ghost use Rattle.pr_core.specs.Shared.{Stands};
ghost use Rattle.pr_session.specs.Sessions.{IsSettled, HasTurned, IsKept, lane_of, reply_of};
ghost use Rattle.pr_session.specs.Driving.{Agrees};
ghost use Rattle.pr_session.specs.Reached.{HasReached, is_one_fact};
ghost use Rattle.pr_session.specs.Answering.{HasLessLeft, TakesTurns};

use crate::act::Want;
use crate::driving::close;
use crate::session::Session;
use pr_core::Core;
use pr_io::{Disk, Medium, Peer};
use pr_words::HELD;

/// A target in memory that a client's wire can reach: one session, and the target that answers it.
///
/// It hears bytes without looking at them. Where it is to say something it takes turns, until there
/// is a reply to say or no whole frame is left.
#[derive(Drop)]
pub struct LanePeer<M: Medium, D: Disk> {
    session: Session,
    core: Core<M, D>,
    ghost settled: { IsSettled session },
    ghost reached: { HasReached (lane_of session).phase 0 core } by { is_one_fact (lane_of session).phase 0 core },
}

impl<M: Medium, D: Disk> LanePeer<M, D> {
    ghost use Rattle.pr_session.specs.Peers.{HasMade};

    /// A peer that has heard and said nothing, of a new session and a target that has made no entry
    /// since it was opened. It takes no memory.
    pub fn new(session: Session, core: Core<M, D>) -> LanePeer<M, D>
        requires session { HasTurned session (turned fresh []) }
        requires core { Stands core [] }
        ensures made { HasMade result new_line [] }
        ensures parts { (result.session ≡ session) × (result.core ≡ core) }
    {
        LanePeer { session, core }
    }

    /// The target.
    pub fn core(&self) -> &Core<M, D>
        ensures { result.now ≡ self.now.core }
    {
        &self.core
    }
}

impl<M: Medium, D: Disk> Peer for LanePeer<M, D> {
    ghost use Rattle.pr_session.specs.Peers.{room_of, HasMade, IsAnswered, Comes, comes_at_once, comes_later};

    ghost room = { λ p. room_of (lane_of p.session) };

    ghost stands = { λ p l. (h : History) × HasMade p l h };

    ghost comes = { λ p l q m. Comes p l q m };

    ghost comes_at_once = { λ p l. comes_at_once p l };

    ghost comes_later = { λ p q r l m n first second. comes_later p q r l m n first second };

    fn room(&self) -> usize {
        if self.session.is_dead() {
            HELD
        } else {
            HELD - self.session.held()
        }
    }

    fn hear(&mut self, bytes: &[u8]) {
        self.session.feed(bytes);
    }

    fn say(&mut self, buf: &mut [u8]) -> usize
        ensures count { result ≤ length buf.old }
        ensures stands { (l : Line) → ((h : History) × HasMade self.old l h)
            → (h : History) × HasMade self.new (saying l result (length buf.new) buf.new) h }
        ensures comes { (l : Line) → ((h : History) × HasMade self.old l h)
            → Comes self.old l self.new (saying l result (length buf.new) buf.new) }
        ensures all { result ≡ 0 → 0 < length buf.new → (l : Line) (h : History)
            → HasMade self.new l h → IsAnswered l h }
    {
        take_turns(&mut self.session, &mut self.core);
        say_some(&mut self.session, buf)
    }

    fn hang_up(&mut self) {
        close(&mut self.session, &mut self.core, 0);
    }
}

/// Takes turns of the session until there is a reply, or nothing is left to do.
fn take_turns<M: Medium, D: Disk>(session: &mut Session, core: &mut Core<M, D>)
    requires settled { IsSettled session.old }
    requires agrees { Agrees (lane_of session.old).phase 0 core.old }
    ensures takes { TakesTurns 0 core.old session.old core.new session.new }
    ensures settled { IsSettled session.new }
    ensures agrees { Agrees (lane_of session.new).phase 0 core.new }
    ensures rests { reply_of session.new ≡ [] → turn (lane_of session.new) ≡ Idle }
{
    while session.reply().is_empty() {
        if !take_turn(session, core) {
            return;
        }
    }
}

/// One turn of the session. It says whether more may follow.
fn take_turn<M: Medium, D: Disk>(session: &mut Session, core: &mut Core<M, D>) -> bool
    requires settled { IsSettled session.old }
    requires replied { reply_of session.old ≡ [] }
    requires agrees { Agrees (lane_of session.old).phase 0 core.old }
    ensures takes { TakesTurns 0 core.old session.old core.new session.new }
    ensures settled { IsSettled session.new }
    ensures agrees { Agrees (lane_of session.new).phase 0 core.new }
    ensures less { MatchBool result (HasLessLeft (lane_of session.old) (lane_of session.new))
        (turn (lane_of session.new) ≡ Idle) }
{
    match session.want() {
        Want::Need(_) | Want::Dead => false,
        Want::Act(..) => {
            let out = session.perform(core, 0);
            session.answer(&out);
            true
        }
    }
}

/// Says as much of the reply as the buffer has room for, and how much that is.
fn say_some(session: &mut Session, buf: &mut [u8]) -> usize
    ensures count { result ≡ min (length (reply_of session.old)) (length buf.new) }
    ensures bytes { take result buf.new ≡ take result (reply_of session.old) }
    ensures reply { reply_of session.new ≡ drop result (reply_of session.old) }
    ensures keeps { IsKept session.old session.new }
{
    let reply = session.reply();
    let n = reply.len().min(buf.len());
    buf[..n].copy_from_slice(&reply[..n]);
    session.sent(n);
    n
}
