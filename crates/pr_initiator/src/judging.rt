ghost use Rattle.std.specs.Prelude.{◌≡◌, true};
ghost use Rattle.pr_words.specs.declared.nexus.Side.TheVariants.{Initiator};
ghost use Rattle.pr_grammar.specs.Frames.{is_body};
ghost use Rattle.pr_link.specs.Streams.{frame_of};
ghost use Rattle.pr_initiator.specs.Judging.{judged, is_no_memory};

use crate::link_fault::LinkFault;
use pr_grammar::SenseFault;
use pr_link::{Frame, Reply};

/// Whether it is the reply of a target that has no memory for a session.
fn has_no_memory(asked: u8, tag: u32, reply: &Result<Reply, SenseFault>) -> bool
    ensures { result ≡ is_no_memory asked tag reply.now }
{
    match reply {
        Ok(Reply::Login { code }) => asked == 0x81 && tag == 0 && *code == 5,
        _ => false,
    }
}

/// What a frame with this body, at this place, says to a request whose reply has this kind and tag.
pub(crate) fn judge(
    asked: u8,
    tag: u32,
    place: u64,
    frame: &Frame,
    body: &[u8],
) -> Result<Result<Reply, SenseFault>, LinkFault>
    requires { is_body Initiator frame.now.kind body.now ≡ true }
    ensures { result ≡ judged asked tag place (frame_of frame.now body.now) }
{
    let reply = Reply::read(frame.kind, body);
    match reply {
        Ok(Reply::Reject { reason, place }) => Err(LinkFault::Rejected { place, reason }),
        reply => {
            if frame.kind == asked && frame.tag == tag {
                return Ok(reply);
            }
            if has_no_memory(asked, frame.tag, &reply) {
                return Ok(reply);
            }
            Err(LinkFault::BadReply { place, reason: 6 })
        }
    }
}
