ghost use Rattle.std.specs.Prelude.{◌≡◌, ◌≤◌, length, IfErr, IfOk};
ghost use Rattle.pr_words.specs.declared.limits.TheConstants.{DATA, HELD};
ghost use Rattle.pr_grammar.specs.Frames.{spelled};
ghost use Rattle.pr_io.specs.Causes.{Rose};
ghost use Rattle.pr_link.specs.Requests.{request_frame, data_out_of};
ghost use Rattle.pr_initiator.specs.Answering.{Asks};

use crate::judging::judge;
use crate::link_fault::LinkFault;
use crate::receiving::Unheard;
use crate::speaking::speak;
use pr_grammar::SenseFault;
use pr_io::Wire;
use pr_link::{Reply, Request};
use pr_words::FRAME_HEAD;

/// A reply, and how many bytes its frame has.
#[derive(Clone, Copy, Debug, PartialEq, Eq)]
pub(crate) struct Heard {
    pub(crate) reply: Result<Reply, SenseFault>,
    pub(crate) size: usize,
}

/// Sends a request with its data-out, and waits for its reply of this kind. The reply's frame then
/// stands at the front of the buffer.
pub(crate) fn ask<W: Wire>(
    wire: &mut W,
    work: &mut [u8],
    asked: u8,
    tag: u32,
    place: u64,
    request: &Request,
    sent: &[u8],
) -> Result<Heard, LinkFault>
    requires room { HELD ≤ length work.old }
    requires few { data_out_of request.now ≤ DATA }
    requires sent { length sent.now ≡ data_out_of request.now }
    ensures asks { Asks asked tag place (W.talk wire.old) (W.talk wire.new)
        (spelled (request_frame request.now 0 tag sent.now)) result work.new }
    ensures size { IfOk result (λ h. h.size ≤ HELD) }
    ensures reference { W.reference wire.new ≡ W.reference wire.old }
    ensures comes { W.comes wire.old wire.new }
    ensures later { W.faults wire.old ≤ W.faults wire.new }
    ensures down { IfErr result (λ e. e ≡ LinkFault.Down →
        Rose (W.faults wire.old) (W.faults wire.new)) }
{
    match speak(wire, work, tag, request, sent) {
        Ok(frame) => {
            let size = FRAME_HEAD + frame.body;
            let judged = judge(asked, tag, place, &frame, &work[FRAME_HEAD..size]);
            match judged {
                Ok(reply) => Ok(Heard { reply, size }),
                Err(fault) => Err(fault),
            }
        }
        Err(Unheard::Down) => Err(LinkFault::Down),
        Err(Unheard::Ended) => Err(LinkFault::Ended { place }),
        Err(Unheard::Bad(reason)) => Err(LinkFault::BadReply { place, reason }),
    }
}
