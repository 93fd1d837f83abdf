ghost use Rattle.std.specs.Prelude.{◌≡◌, ◌≤◌, ◌++◌, ℕ, List, [], length, IfErr, OnOk, OnErr};
ghost use Rattle.pr_words.specs.declared.limits.TheConstants.{DATA, HELD};
ghost use Rattle.pr_grammar.specs.Frames.{spelled};
ghost use Rattle.pr_io.specs.Causes.{HasCause, Rose};
ghost use Rattle.pr_link.specs.Requests.{request_frame, data_out_of};
ghost use Rattle.pr_initiator.specs.Asking.{Speaks};
ghost use Rattle.pr_initiator.specs.Goings.{Goes};

use crate::receiving::{Unheard, hear};
use pr_io::{Failed, Wire};
use pr_link::{Frame, Request};

/// Sends a request with its data-out.
fn send<W: Wire>(wire: &mut W, tag: u32, request: &Request, sent: &[u8]) -> Result<(), Failed>
    requires few { data_out_of request.now ≤ DATA }
    requires sent { length sent.now ≡ data_out_of request.now }
    ensures goes { OnOk result (Goes (W.talk wire.old) (W.talk wire.new)
        (spelled (request_frame request.now 0 tag sent.now)) []) }
    ensures went { OnErr result ((said : List ℕ) × (unsaid : List ℕ) ×
        (spelled (request_frame request.now 0 tag sent.now) ≡ said ++ unsaid) ×
        Goes (W.talk wire.old) (W.talk wire.new) said []) }
    ensures reference { W.reference wire.new ≡ W.reference wire.old }
    ensures comes { W.comes wire.old wire.new }
    ensures cause { HasCause (W.faults wire.old) (W.faults wire.new) result }
{
    let mut head = [0; 32];
    let size = request.write_head(0, tag, &mut head);
    wire.send(&head[..size])?;
    wire.send(sent)
}

/// Sends a request with its data-out, and receives a frame, whose body then stands in the buffer
/// from place 12 on.
pub(crate) fn speak<W: Wire>(
    wire: &mut W,
    work: &mut [u8],
    tag: u32,
    request: &Request,
    sent: &[u8],
) -> Result<Frame, Unheard>
    requires room { HELD ≤ length work.old }
    requires few { data_out_of request.now ≤ DATA }
    requires sent { length sent.now ≡ data_out_of request.now }
    ensures speaks { Speaks (W.talk wire.old) (W.talk wire.new)
        (spelled (request_frame request.now 0 tag sent.now)) result work.new }
    ensures reference { W.reference wire.new ≡ W.reference wire.old }
    ensures comes { W.comes wire.old wire.new }
    ensures later { W.faults wire.old ≤ W.faults wire.new }
    ensures down { IfErr result (λ e. e ≡ Unheard.Down →
        Rose (W.faults wire.old) (W.faults wire.new)) }
{
    match send(wire, tag, request, sent) {
        Ok(()) => hear(wire, work),
        Err(_) => Err(Unheard::Down),
    }
}
