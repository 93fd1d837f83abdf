ghost use Rattle.std.specs.Prelude.{◌≡◌, ◌≤◌, ◌<◌, length, false};
ghost use Rattle.pr_words.specs.declared.limits.TheConstants.{DATA};
ghost use Rattle.pr_words.specs.declared.service.OutService.TheVariants as outs;
ghost use Rattle.pr_words.specs.declared.service.InService.TheVariants as ins;
ghost use Rattle.pr_grammar.specs.Cdbs.{FitsFields};
ghost use Rattle.pr_initiator.specs.Commands.{Order, HasAnswered, IsReady, attention_in, inquiry, out_list, reserve_in, reserve_out};
ghost use Rattle.pr_initiator.specs.Links.{Comes, link_of};

use crate::answer::Answer;
use crate::initiator::Initiator;
use crate::link_fault::LinkFault;
use pr_cdb::{Cdb, Command};
use pr_io::Wire;
use pr_link::RawCdb;
use pr_param::{OutList, write_out_list};
use pr_words::{Code, InService, Key, OutService, PARAMETER_LIST, Sense, UNIT_ATTENTION};

/// The most answers that `Initiator::ready` asks for.
const READINESS: u8 = 9;

/// The allocation length of standard INQUIRY data, in bytes (SPC-4).
const INQUIRY_DATA: u16 = 36;

/// The longest allocation length of PERSISTENT RESERVE IN (SPC-4).
const ALLOCATION: u16 = 65_535;

/// The code of a unit attention. None where the sense data are none, or of another sense key (SPC-4).
fn attention(sense: Option<Sense>) -> Option<Code>
    ensures { result ≡ attention_in sense }
{
    match sense {
        Some(sense) if sense.code.key == UNIT_ATTENTION => Some(sense.code),
        _ => None,
    }
}

impl<W: Wire + Drop> Initiator<W> {
    /// Sends a command that it spells by itself, with its data-out.
    fn order(&mut self, command: Command, list: &[u8]) -> Result<Answer, LinkFault>
        requires fits { FitsFields command }
        requires few { length list.now ≤ DATA }
        ensures answered { HasAnswered (link_of self.old) (link_of self.new)
            (record { command = command; list = list.now }) result }
        ensures comes { Comes self.old self.new }
    {
        let mut cdb = [0; 16];
        let size = pr_cdb::write(
            &Cdb {
                command,
                naca: false,
            },
            &mut cdb,
        );
        self.command(RawCdb::new(&cdb[..size]), list)
    }

    /// Sends a PERSISTENT RESERVE IN with the longest allocation length.
    fn reserve_in(&mut self, service: InService) -> Result<Answer, LinkFault>
        ensures answered { HasAnswered (link_of self.old) (link_of self.new)
            (reserve_in service) result }
        ensures comes { Comes self.old self.new }
    {
        let command = Command::ReserveIn {
            action: service.code(),
            allocation: ALLOCATION,
        };
        self.order(command, &[])
    }

    /// Sends a PERSISTENT RESERVE OUT with scope 0 and a parameter list whose other flags are zero.
    fn reserve_out(
        &mut self,
        service: OutService,
        kind: u8,
        key: Key,
        action_key: Key,
        aptpl: bool,
    ) -> Result<Answer, LinkFault>
        requires { kind < 16 }
        ensures answered { HasAnswered (link_of self.old) (link_of self.new)
            (reserve_out service kind (out_list key.0 action_key.0 aptpl)) result }
        ensures comes { Comes self.old self.new }
    {
        let list = OutList {
            key: key.0,
            action_key: action_key.0,
            spec_i_pt: false,
            all_tg_pt: false,
            aptpl,
        };
        let mut bytes = [0; PARAMETER_LIST];
        write_out_list(&list, &mut bytes);
        let command = Command::ReserveOut {
            action: service.code(),
            scope: 0,
            kind,
            length: PARAMETER_LIST as u32,
        };
        self.order(command, &bytes)
    }

    /// Asks by TEST UNIT READY (SPC-4) until the answer is no unit attention, at most nine times, so
    /// that what happened before doesn't meet the next command. Call it once a nexus is logged in.
    ///
    /// # Errors
    ///
    /// `LinkFault::Attention` where nine answers were unit attentions; any other fault where no reply
    /// counts.
    pub fn ready(&mut self) -> Result<Answer, LinkFault>
        ensures answered { IsReady READINESS Code.NO_SENSE (link_of self.old)
            (link_of self.new) result }
        ensures comes { Comes self.old self.new }
    {
        let mut last = Code::NO_SENSE;
        for _ in 0..READINESS {
            match self.order(Command::TestUnitReady, &[]) {
                Ok(answer) => match attention(answer.sense) {
                    Some(code) => last = code,
                    None => return Ok(answer),
                },
                Err(fault) => return Err(fault),
            }
        }
        Err(LinkFault::Attention(last))
    }

    /// Asks by INQUIRY (SPC-4) for the standard data, of which 36 bytes are wanted. Call it once a
    /// nexus is logged in.
    ///
    /// # Errors
    ///
    /// Where no reply counts.
    pub fn inquiry(&mut self) -> Result<Answer, LinkFault>
        ensures answered { HasAnswered (link_of self.old) (link_of self.new) inquiry result }
        ensures comes { Comes self.old self.new }
    {
        let command = Command::Inquiry {
            vital: false,
            page: 0,
            allocation: INQUIRY_DATA,
        };
        self.order(command, &[])
    }

    /// Asks by READ KEYS (SPC-4) for the keys of all registrations, of which up to 65,535 bytes are
    /// wanted. Call it once a nexus is logged in.
    ///
    /// # Errors
    ///
    /// Where no reply counts.
    pub fn read_keys(&mut self) -> Result<Answer, LinkFault>
        ensures answered { HasAnswered (link_of self.old) (link_of self.new)
            (reserve_in ins.ReadKeys) result }
        ensures comes { Comes self.old self.new }
    {
        self.reserve_in(InService::ReadKeys)
    }

    /// Asks by READ RESERVATION (SPC-4) for the reservation that is held. Call it once a nexus is logged
    /// in.
    ///
    /// # Errors
    ///
    /// Where no reply counts.
    pub fn read_reservation(&mut self) -> Result<Answer, LinkFault>
        ensures answered { HasAnswered (link_of self.old) (link_of self.new)
            (reserve_in ins.ReadReservation) result }
        ensures comes { Comes self.old self.new }
    {
        self.reserve_in(InService::ReadReservation)
    }

    /// Asks by REPORT CAPABILITIES (SPC-4) what the target can do. Call it once a nexus is logged in.
    ///
    /// # Errors
    ///
    /// Where no reply counts.
    pub fn read_capabilities(&mut self) -> Result<Answer, LinkFault>
        ensures answered { HasAnswered (link_of self.old) (link_of self.new)
            (reserve_in ins.ReportCapabilities) result }
        ensures comes { Comes self.old self.new }
    {
        self.reserve_in(InService::ReportCapabilities)
    }

    /// Asks by READ FULL STATUS (SPC-4) for all registrations with their nexuses, of which up to 65,535
    /// bytes are wanted. Call it once a nexus is logged in.
    ///
    /// # Errors
    ///
    /// Where no reply counts.
    pub fn read_full(&mut self) -> Result<Answer, LinkFault>
        ensures answered { HasAnswered (link_of self.old) (link_of self.new)
            (reserve_in ins.ReadFullStatus) result }
        ensures comes { Comes self.old self.new }
    {
        self.reserve_in(InService::ReadFullStatus)
    }

    /// Registers a new key by REGISTER (SPC-4), in place of the registered one, which is `key`, or zero
    /// where none is; a new key of zero unregisters. `aptpl` asks that registrations outlive a loss of
    /// power. Call it once a nexus is logged in.
    ///
    /// # Errors
    ///
    /// Where no reply counts.
    pub fn register(&mut self, key: Key, new: Key, aptpl: bool) -> Result<Answer, LinkFault>
        ensures answered { HasAnswered (link_of self.old) (link_of self.new)
            (reserve_out outs.Register 0 (out_list key.0 new.0 aptpl)) result }
        ensures comes { Comes self.old self.new }
    {
        self.reserve_out(OutService::Register, 0, key, new, aptpl)
    }

    /// Registers a new key by REGISTER AND IGNORE EXISTING KEY (SPC-4), whatever key is registered.
    /// `aptpl` asks that registrations outlive a loss of power. Call it once a nexus is logged in.
    ///
    /// # Errors
    ///
    /// Where no reply counts.
    pub fn register_ignore(&mut self, new: Key, aptpl: bool) -> Result<Answer, LinkFault>
        ensures answered { HasAnswered (link_of self.old) (link_of self.new)
            (reserve_out outs.RegisterAndIgnoreExistingKey 0 (out_list 0 new.0 aptpl)) result }
        ensures comes { Comes self.old self.new }
    {
        self.reserve_out(
            OutService::RegisterAndIgnoreExistingKey,
            0,
            Key(0),
            new,
            aptpl,
        )
    }

    /// Reserves with a type of four bits by RESERVE (SPC-4); `key` is the registered one. Call it once
    /// a nexus is logged in.
    ///
    /// # Errors
    ///
    /// Where no reply counts.
    pub fn reserve(&mut self, key: Key, kind: u8) -> Result<Answer, LinkFault>
        requires { kind < 16 }
        ensures answered { HasAnswered (link_of self.old) (link_of self.new)
            (reserve_out outs.Reserve kind (out_list key.0 0 false)) result }
        ensures comes { Comes self.old self.new }
    {
        self.reserve_out(OutService::Reserve, kind, key, Key(0), false)
    }

    /// Releases a reservation of a type of four bits by RELEASE (SPC-4); `key` is the registered one.
    /// Call it once a nexus is logged in.
    ///
    /// # Errors
    ///
    /// Where no reply counts.
    pub fn release(&mut self, key: Key, kind: u8) -> Result<Answer, LinkFault>
        requires { kind < 16 }
        ensures answered { HasAnswered (link_of self.old) (link_of self.new)
            (reserve_out outs.Release kind (out_list key.0 0 false)) result }
        ensures comes { Comes self.old self.new }
    {
        self.reserve_out(OutService::Release, kind, key, Key(0), false)
    }

    /// Clears the reservation and all registrations by CLEAR (SPC-4); `key` is the registered one. Call
    /// it once a nexus is logged in.
    ///
    /// # Errors
    ///
    /// Where no reply counts.
    pub fn clear(&mut self, key: Key) -> Result<Answer, LinkFault>
        ensures answered { HasAnswered (link_of self.old) (link_of self.new)
            (reserve_out outs.Clear 0 (out_list key.0 0 false)) result }
        ensures comes { Comes self.old self.new }
    {
        self.reserve_out(OutService::Clear, 0, key, Key(0), false)
    }

    /// Removes the registrations with the victim's key by PREEMPT (SPC-4), and takes their reservation
    /// with a type of four bits; `key` is the registered one. Call it once a nexus is logged in.
    ///
    /// # Errors
    ///
    /// Where no reply counts.
    pub fn preempt(&mut self, key: Key, victim: Key, kind: u8) -> Result<Answer, LinkFault>
        requires { kind < 16 }
        ensures answered { HasAnswered (link_of self.old) (link_of self.new)
            (reserve_out outs.Preempt kind (out_list key.0 victim.0 false)) result }
        ensures comes { Comes self.old self.new }
    {
        self.reserve_out(OutService::Preempt, kind, key, victim, false)
    }

    /// Does what `preempt` does, and aborts the commands of those whose registrations it removes, by
    /// PREEMPT AND ABORT (SPC-4). Call it once a nexus is logged in.
    ///
    /// # Errors
    ///
    /// Where no reply counts.
    pub fn preempt_abort(&mut self, key: Key, victim: Key, kind: u8) -> Result<Answer, LinkFault>
        requires { kind < 16 }
        ensures answered { HasAnswered (link_of self.old) (link_of self.new)
            (reserve_out outs.PreemptAndAbort kind (out_list key.0 victim.0 false)) result }
        ensures comes { Comes self.old self.new }
    {
        self.reserve_out(OutService::PreemptAndAbort, kind, key, victim, false)
    }
}
