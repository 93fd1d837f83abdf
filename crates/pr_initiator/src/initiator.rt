ghost use Rattle.std.specs.Prelude.{◌≡◌, ◌≤◌, ◌+◌, [], IfErr, IfOk, OnErr, OnOk, length};
ghost use Rattle.pr_words.specs.declared.limits.TheConstants.{DATA, HELD};
ghost use Rattle.pr_grammar.specs.Frames.{spelled};
ghost use Rattle.pr_io.specs.Causes.{Rose};
ghost use Rattle.pr_io.specs.Talks.{Begins};
ghost use Rattle.pr_link.specs.Requests.{request_frame, data_out_of};
ghost use Rattle.pr_link.specs.declared.request.Request.TheVariants as request;
ghost use Rattle.pr_initiator.specs.Answering.{Asks};
ghost use Rattle.pr_initiator.specs.Calls.{Answers, login_by, logout_by, answer_by, count_in};

use crate::answer::Answer;
use crate::asking::{Heard, ask};
use crate::link_fault::LinkFault;
use pr_grammar::SenseFault;
use pr_io::Wire;
use pr_link::{RawCdb, Reply, Request};
use pr_words::{HELD, Nexus};
use std::alloc::Global;

/// The client's end of a link.
///
/// Its calls go in this order: `dial`, `login`, any number of commands, `logout`. After a fault only
/// `dial` or `into_wire` may follow.
#[derive(Drop)]
pub struct Initiator<W: Wire + Drop> {
    wire: W,
    work: Vec<u8>,
    tag: u32,
    place: u64,
    len: usize,
    ghost room: { length work.items ≡ HELD },
    ghost within: { 16 + len ≤ HELD },
}

/// Asks over the whole buffer.
fn ask_in<W: Wire>(
    wire: &mut W,
    work: &mut Vec<u8>,
    asked: u8,
    tag: u32,
    place: u64,
    request: &Request,
    sent: &[u8],
) -> Result<Heard, LinkFault>
    requires room { length work.old.items ≡ HELD }
    requires few { data_out_of request.now ≤ DATA }
    requires sent { length sent.now ≡ data_out_of request.now }
    ensures asks { Asks asked tag place (W.talk wire.old) (W.talk wire.new)
        (spelled (request_frame request.now 0 tag sent.now)) result work.new.items }
    ensures size { IfOk result (λ h. h.size ≤ HELD) }
    ensures reference { W.reference wire.new ≡ W.reference wire.old }
    ensures comes { W.comes wire.old wire.new }
    ensures later { W.faults wire.old ≤ W.faults wire.new }
    ensures down { IfErr result (λ e. e ≡ LinkFault.Down →
        Rose (W.faults wire.old) (W.faults wire.new)) }
    ensures room { length work.new.items ≡ HELD }
{
    ask(wire, work, asked, tag, place, request, sent)
}

/// What a reply says of a Login.
fn login_of(place: u64, reply: Result<Reply, SenseFault>) -> Result<(), LinkFault>
    ensures says { result ≡ login_by place reply }
    ensures never { IfErr result (λ e. e ≡ LinkFault.Down → ⊥) }
{
    match reply {
        Ok(Reply::Login { code: 0 }) => Ok(()),
        Ok(Reply::Login { code }) => Err(LinkFault::Refused { code }),
        _ => Err(LinkFault::BadReply { place, reason: 6 }),
    }
}

/// What a reply says of a Logout.
fn logout_of(place: u64, reply: Result<Reply, SenseFault>) -> Result<(), LinkFault>
    ensures says { result ≡ logout_by place reply }
    ensures never { IfErr result (λ e. e ≡ LinkFault.Down → ⊥) }
{
    match reply {
        Ok(Reply::Logout) => Ok(()),
        _ => Err(LinkFault::BadReply { place, reason: 6 }),
    }
}

/// What a reply says of a command.
fn answer_of(place: u64, reply: Result<Reply, SenseFault>) -> Result<Answer, LinkFault>
    ensures says { result ≡ answer_by place reply }
    ensures never { IfErr result (λ e. e ≡ LinkFault.Down → ⊥) }
{
    let (status, sense, len) = match reply {
        Ok(Reply::Good { data_in }) => (0x00, None, data_in),
        Ok(Reply::CheckCondition { sense }) => (0x02, Some(sense), 0),
        Ok(Reply::Other { status }) => (status, None, 0),
        Err(_) => (0x02, None, 0),
        _ => return Err(LinkFault::BadReply { place, reason: 6 }),
    };
    Ok(Answer { status, sense, len })
}

/// How many bytes of data-in a reply brought.
fn data_in_of(reply: &Result<Reply, SenseFault>) -> usize
    ensures { result ≡ count_in reply.now }
{
    match reply {
        Ok(Reply::Good { data_in }) => *data_in,
        _ => 0,
    }
}

impl<W: Wire + Drop> Initiator<W> {
    ghost use Rattle.pr_initiator.specs.Links.{Comes, link_of, next_tag, HasReplied, Yields};

    /// An initiator on a wire. All memory is taken here: 524,320 bytes.
    ///
    /// # Errors
    ///
    /// Where that memory is refused. The wire comes back.
    pub fn new(alloc: Global, wire: W) -> Result<Initiator<W>, W>
        ensures made { IfOk result (λ i. i.wire ≡ wire) }
        ensures back { IfErr result (λ w. w ≡ wire) }
    {
        match vec![in alloc; 0u8; HELD] {
            Ok(work) => Ok(Initiator {
                wire,
                work,
                tag: 1,
                place: 0,
                len: 0,
            }),
            Err(_) => Err(wire),
        }
    }

    /// The wire, as it stands.
    pub fn into_wire(self) -> W
        ensures { result ≡ self.wire }
    {
        self.wire
    }

    /// Logs a nexus in. The wire is connected, and nobody is logged in.
    ///
    /// # Errors
    ///
    /// `LinkFault::Refused` where the target refused it; any other fault where no reply counts.
    pub fn login(&mut self, nexus: Nexus) -> Result<(), LinkFault>
        ensures answers { Answers (login_by self.old.place) 0x81 self.old.tag self.old.place
            (W.talk self.old.wire) (W.talk self.new.wire)
            (spelled (request_frame (request.Login 1 nexus) 0 self.old.tag []))
            result self.new.work.items }
        ensures yields { IfOk result (Yields (login_by self.old.place) 0x81
            (link_of self.old) (link_of self.new)
            (spelled (request_frame (request.Login 1 nexus) 0 self.old.tag []))) }
        ensures tag { self.new.tag ≡ next_tag self.old.tag }
        ensures reference { W.reference self.new.wire ≡ W.reference self.old.wire }
        ensures comes { Comes self.old self.new }
        ensures later { W.faults self.old.wire ≤ W.faults self.new.wire }
        ensures down { IfErr result (λ e. e ≡ LinkFault.Down →
            Rose (W.faults self.old.wire) (W.faults self.new.wire)) }
    {
        let place = self.place;
        let request = Request::Login { version: 1, nexus };
        match self.converse(0x81, &request, &[]) {
            Ok(heard) => login_of(place, heard.reply),
            Err(fault) => Err(fault),
        }
    }

    /// Connects to the target with this address. The connection before is given up.
    ///
    /// # Errors
    ///
    /// `LinkFault::Down` where the wire failed, so also where there is no such target.
    pub fn dial(&mut self, address: &str) -> Result<(), LinkFault>
        ensures begins { OnOk result (Begins (W.talk self.old.wire) (W.talk self.new.wire)
            address.now) }
        ensures tag { OnOk result (self.new.tag ≡ 1) }
        ensures place { OnOk result (self.new.place ≡ 0) }
        ensures reference { W.reference self.new.wire ≡ W.reference self.old.wire }
        ensures comes { Comes self.old self.new }
        ensures later { W.faults self.old.wire ≤ W.faults self.new.wire }
        ensures nothing { OnErr result (W.talk self.new.wire ≡ W.talk self.old.wire) }
        ensures fault { IfErr result (λ e. e ≡ LinkFault.Down) }
        ensures down { OnErr result (Rose (W.faults self.old.wire) (W.faults self.new.wire)) }
    {
        match self.wire.dial(address) {
            Ok(()) => {
                self.tag = 1;
                self.place = 0;
                self.len = 0;
                Ok(())
            }
            Err(_) => Err(LinkFault::Down),
        }
    }

    /// Logs the nexus out that is logged in.
    ///
    /// # Errors
    ///
    /// Where no reply counts.
    pub fn logout(&mut self) -> Result<(), LinkFault>
        ensures answers { Answers (logout_by self.old.place) 0x83 self.old.tag self.old.place
            (W.talk self.old.wire) (W.talk self.new.wire)
            (spelled (request_frame request.Logout 0 self.old.tag []))
            result self.new.work.items }
        ensures yields { IfOk result (Yields (logout_by self.old.place) 0x83
            (link_of self.old) (link_of self.new)
            (spelled (request_frame request.Logout 0 self.old.tag []))) }
        ensures tag { self.new.tag ≡ next_tag self.old.tag }
        ensures reference { W.reference self.new.wire ≡ W.reference self.old.wire }
        ensures comes { Comes self.old self.new }
        ensures later { W.faults self.old.wire ≤ W.faults self.new.wire }
        ensures down { IfErr result (λ e. e ≡ LinkFault.Down →
            Rose (W.faults self.old.wire) (W.faults self.new.wire)) }
    {
        let place = self.place;
        match self.converse(0x83, &Request::Logout, &[]) {
            Ok(heard) => logout_of(place, heard.reply),
            Err(fault) => Err(fault),
        }
    }

    /// Sends a CDB of 1 to 16 bytes with its data-out, at most 524,288 bytes, once a nexus is logged
    /// in.
    ///
    /// # Errors
    ///
    /// Where no reply counts.
    pub fn command(&mut self, cdb: RawCdb, out: &[u8]) -> Result<Answer, LinkFault>
        requires { length out.now ≤ DATA }
        ensures answers { Answers (answer_by self.old.place) 0x82 self.old.tag self.old.place
            (W.talk self.old.wire) (W.talk self.new.wire)
            (spelled (request_frame (request.Command cdb (length out.now)) 0 self.old.tag out.now))
            result self.new.work.items }
        ensures yields { IfOk result (Yields (answer_by self.old.place) 0x82
            (link_of self.old) (link_of self.new)
            (spelled (request_frame (request.Command cdb (length out.now)) 0 self.old.tag out.now))) }
        ensures tag { self.new.tag ≡ next_tag self.old.tag }
        ensures reference { W.reference self.new.wire ≡ W.reference self.old.wire }
        ensures comes { Comes self.old self.new }
        ensures later { W.faults self.old.wire ≤ W.faults self.new.wire }
        ensures down { IfErr result (λ e. e ≡ LinkFault.Down →
            Rose (W.faults self.old.wire) (W.faults self.new.wire)) }
    {
        let place = self.place;
        let request = Request::Command {
            cdb,
            data_out: out.len(),
        };
        match self.converse(0x82, &request, out) {
            Ok(heard) => answer_of(place, heard.reply),
            Err(fault) => Err(fault),
        }
    }

    /// The data-in of the last answer. There is none after a fault, and where the status wasn't GOOD.
    pub fn received(&self) -> &[u8]
        ensures { result.now ≡ (link_of self.now).received }
    {
        &self.work[16..16 + self.len]
    }

    /// Sends a request with its data-out, and waits for its reply of this kind. The next request has
    /// the next tag, and the next reply begins behind this one.
    fn converse(&mut self, asked: u8, request: &Request, sent: &[u8]) -> Result<Heard, LinkFault>
        requires few { data_out_of request.now ≤ DATA }
        requires sent { length sent.now ≡ data_out_of request.now }
        ensures asks { Asks asked self.old.tag self.old.place
            (W.talk self.old.wire) (W.talk self.new.wire)
            (spelled (request_frame request.now 0 self.old.tag sent.now))
            result self.new.work.items }
        ensures replied { IfOk result (λ h. HasReplied asked
            (link_of self.old) (link_of self.new)
            (spelled (request_frame request.now 0 self.old.tag sent.now)) h.reply) }
        ensures tag { self.new.tag ≡ next_tag self.old.tag }
        ensures reference { W.reference self.new.wire ≡ W.reference self.old.wire }
        ensures comes { Comes self.old self.new }
        ensures later { W.faults self.old.wire ≤ W.faults self.new.wire }
        ensures down { IfErr result (λ e. e ≡ LinkFault.Down →
            Rose (W.faults self.old.wire) (W.faults self.new.wire)) }
    {
        let (tag, place) = (self.tag, self.place);
        let heard = ask_in(
            &mut self.wire,
            &mut self.work,
            asked,
            tag,
            place,
            request,
            sent,
        );
        self.tag = tag.wrapping_add(1);
        self.len = 0;
        match heard {
            Ok(heard) => {
                self.place = place.wrapping_add(heard.size as u64);
                self.len = data_in_of(&heard.reply);
                Ok(heard)
            }
            Err(fault) => Err(fault),
        }
    }
}
