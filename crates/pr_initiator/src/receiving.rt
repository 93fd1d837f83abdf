ghost use Rattle.std.specs.Prelude.{◌≡◌, ◌≤◌, ◌<◌, ◌+◌, ℕ, List, [], Option, length, take, IfErr, IfOk, OnErr};
ghost use Rattle.pr_words.specs.Fields.{number32_at};
ghost use Rattle.pr_words.specs.declared.limits.TheConstants.{HELD};
ghost use Rattle.pr_words.specs.declared.nexus.Side.TheVariants.{Initiator};
ghost use Rattle.pr_grammar.specs.Frames.{front, Lacking};
ghost use Rattle.pr_io.specs.Causes.{HasCause, Rose};
ghost use Rattle.pr_io.specs.Talks.{Talk};
ghost use Rattle.pr_initiator.specs.Goings.{Goes, WasEnded};
ghost use Rattle.pr_initiator.specs.Hearing.{Hears, HearsNot};

use pr_io::{Failed, Wire};
use pr_link::{Frame, Front};
use pr_words::Side;

/// Receives until the buffer is full or the other side has ended, and says how many bytes came.
pub(crate) fn receive_up_to<W: Wire>(wire: &mut W, buf: &mut [u8]) -> Result<usize, Failed>
    ensures count { IfOk result (λ n. n ≤ length buf.old) }
    ensures goes { IfOk result (λ n. Goes (W.talk wire.old) (W.talk wire.new) []
        (take n buf.new)) }
    ensures went { OnErr result ((heard : List ℕ) ×
        Goes (W.talk wire.old) (W.talk wire.new) [] heard) }
    ensures ended { IfOk result (λ n. n < length buf.old → WasEnded (W.talk wire.new)) }
    ensures reference { W.reference wire.new ≡ W.reference wire.old }
    ensures comes { W.comes wire.old wire.new }
    ensures cause { HasCause (W.faults wire.old) (W.faults wire.new) result }
{
    let mut at = 0;
    while at < buf.len() {
        let n = wire.receive(&mut buf[at..])?;
        if n == 0 {
            return Ok(at);
        }
        at += n;
    }
    Ok(at)
}

/// Why no reply was heard.
#[derive(Clone, Copy, Debug, PartialEq, Eq)]
pub(crate) enum Unheard {
    /// The wire has failed.
    Down,
    /// The connection ended before a frame was whole.
    Ended,
    /// What came breaks the rule of this number.
    Bad(u8),
}

/// Receives the length of a frame into the front of the buffer, and says how many bytes it has more.
fn hear_length<W: Wire>(wire: &mut W, work: &mut [u8]) -> Result<usize, Unheard>
    requires { HELD ≤ length work.old }
    ensures goes { IfOk result (λ _. Goes (W.talk wire.old) (W.talk wire.new) []
        (take 4 work.new)) }
    ensures lacks { IfOk result (λ k. front Initiator (take 4 work.new) ≡ Lacking k) }
    ensures number { IfOk result (λ k. number32_at (take 4 work.new) 0 ≡ k) }
    ensures few { IfOk result (λ k. 4 + k ≤ HELD) }
    ensures none { IfErr result (HearsNot (W.talk wire.old) (W.talk wire.new)) }
    ensures reference { W.reference wire.new ≡ W.reference wire.old }
    ensures comes { W.comes wire.old wire.new }
    ensures later { W.faults wire.old ≤ W.faults wire.new }
    ensures down { IfErr result (λ e. e ≡ Unheard.Down →
        Rose (W.faults wire.old) (W.faults wire.new)) }
{
    let Ok(n) = receive_up_to(wire, &mut work[..4]) else {
        return Err(Unheard::Down);
    };
    if n < 4 {
        return Err(Unheard::Ended);
    }
    match Front::of(Side::Initiator, &work[..4]) {
        Front::Need(lacks) => Ok(lacks),
        Front::Bad(rule) => Err(Unheard::Bad(rule)),
        Front::Whole(_) => unreachable!(),
    }
}

/// Receives the rest of a frame, whose length is there.
fn hear_rest<W: Wire>(wire: &mut W, work: &mut [u8], lacks: usize) -> Result<Frame, Unheard>
    requires room { HELD ≤ length work.old }
    requires lacks { front Initiator (take 4 work.old) ≡ Lacking lacks }
    requires number { number32_at (take 4 work.old) 0 ≡ lacks }
    requires few { 4 + lacks ≤ HELD }
    ensures hears { (t : Option Talk) → Goes t (W.talk wire.old) [] (take 4 work.old) →
        Hears t (W.talk wire.new) result work.new }
    ensures reference { W.reference wire.new ≡ W.reference wire.old }
    ensures comes { W.comes wire.old wire.new }
    ensures later { W.faults wire.old ≤ W.faults wire.new }
    ensures down { IfErr result (λ e. e ≡ Unheard.Down →
        Rose (W.faults wire.old) (W.faults wire.new)) }
{
    let Ok(n) = receive_up_to(wire, &mut work[4..4 + lacks]) else {
        return Err(Unheard::Down);
    };
    if n < lacks {
        return Err(Unheard::Ended);
    }
    match Front::of(Side::Initiator, &work[..4 + lacks]) {
        Front::Whole(frame) => Ok(frame),
        Front::Bad(rule) => Err(Unheard::Bad(rule)),
        Front::Need(_) => unreachable!(),
    }
}

/// Receives a frame, whose body then stands in the buffer from place 12 on.
pub(crate) fn hear<W: Wire>(wire: &mut W, work: &mut [u8]) -> Result<Frame, Unheard>
    requires { HELD ≤ length work.old }
    ensures hears { Hears (W.talk wire.old) (W.talk wire.new) result work.new }
    ensures reference { W.reference wire.new ≡ W.reference wire.old }
    ensures comes { W.comes wire.old wire.new }
    ensures later { W.faults wire.old ≤ W.faults wire.new }
    ensures down { IfErr result (λ e. e ≡ Unheard.Down →
        Rose (W.faults wire.old) (W.faults wire.new)) }
{
    match hear_length(wire, work) {
        Ok(lacks) => hear_rest(wire, work, lacks),
        Err(unheard) => Err(unheard),
    }
}
