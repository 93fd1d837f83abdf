ghost use Rattle.std.specs.Prelude.{◌≡◌, ◌≤◌, ◌<◌, ◌+◌, ℕ, List, [], ◌∷◌, ◌++◌, true, length, take, drop, Some, Ok};
ghost use Rattle.pr_words.specs.declared.limits.TheConstants.{DATA};
ghost use Rattle.pr_words.specs.declared.nexus.Side.TheVariants.{Initiator};
ghost use Rattle.pr_words.specs.declared.code.Status.TheVariants as status;
ghost use Rattle.pr_grammar.specs.Bodies.{command_reply, is_command_reply, reject};
ghost use Rattle.pr_grammar.specs.Frames.{frame, spelled, is_body};

use crate::layout::{bare_head, long_head, reject_frame, short_frame, write_both, write_front};
use pr_grammar::SenseFault;
use pr_words::{REPLY_HEAD, Sense, Status, get_u64};

/// What a target answers to a request.
#[derive(Clone, Copy, Debug, PartialEq, Eq)]
pub enum Reply {
    /// To a Login: 0 accepted, 1 in use, 2 bad port, 3 full, 4 bad version, 5 no memory.
    Login { code: u8 },
    /// To a Command: GOOD. So many bytes of data-in stand in the frame's body, from its place 4 on.
    Good { data_in: usize },
    /// To a Command: CHECK CONDITION.
    CheckCondition { sense: Sense },
    /// To a Command: another status byte (SAM-5, status codes).
    Other { status: u8 },
    /// To a Logout.
    Logout,
    /// The frame at this place of the request's stream broke a rule, and the session has ended.
    Reject { reason: u8, place: u64 },
}

impl Reply {
    ghost use Rattle.pr_link.specs.Replies.{reply_of, command_reply_of, reply_frame, reply_body, reply_kind, data_in_of, IsWritable, IsAnswer};

    /// A command's answer, of which `data_in` bytes are data-in.
    pub fn of_command(status: Status, sense: Option<Sense>, data_in: usize) -> Reply
        requires { IsAnswer status sense data_in }
        ensures kind { reply_kind result ≡ 0x82 }
        ensures body { (buf : List ℕ) → reply_body result (take (data_in_of result) buf)
            ≡ command_reply status sense (take data_in buf) }
        ensures writable { IsWritable result }
    {
        match (status, sense) {
            (Status::Good, _) => Reply::Good { data_in },
            (_, Some(sense)) => Reply::CheckCondition { sense },
            (other, None) => Reply::Other {
                status: other.code(),
            },
        }
    }

    /// What a frame of this kind answers, by its body.
    ///
    /// # Errors
    ///
    /// Where it is a CHECK CONDITION whose sense data can't be read.
    pub fn read(kind: u8, body: &[u8]) -> Result<Reply, SenseFault>
        requires { is_body Initiator kind body.now ≡ true }
        ensures { result ≡ reply_of kind body.now }
    {
        match kind {
            0x81 => Ok(Reply::Login { code: body[0] }),
            0x82 => Reply::read_answer(body),
            0x83 => Ok(Reply::Logout),
            _ => Ok(Reply::Reject {
                reason: body[0],
                place: get_u64(body, 4),
            }),
        }
    }

    /// What a Command reply answers.
    fn read_answer(body: &[u8]) -> Result<Reply, SenseFault>
        requires { is_command_reply body.now ≡ true }
        ensures { result ≡ command_reply_of body.now }
    {
        match body[0] {
            0x00 => Ok(Reply::Good {
                data_in: body.len() - REPLY_HEAD,
            }),
            0x02 => Ok(Reply::CheckCondition {
                sense: pr_sense::read(&body[4..22])?,
            }),
            status => Ok(Reply::Other { status }),
        }
    }

    /// Writes a reply to the request with this LUN and tag into the front of a buffer, and says how
    /// many bytes it has. Its data-in, if any, stands there already, from place 16 on.
    #[inline(always)]
    pub fn write(&self, lun: u16, tag: u32, out: &mut [u8]) -> usize
        requires writable { IsWritable self.now }
        requires room { 34 ≤ length out.old }
        requires held { 16 + data_in_of self.now ≤ length out.old }
        ensures frame { take result out.new ≡
            spelled (reply_frame self.now lun tag (take (data_in_of self.now) (drop 16 out.old))) }
        ensures bound { result ≤ 16 + DATA }
    {
        match *self {
            Reply::Login { code } => write_short(0x81, lun, tag, code, out),
            Reply::Good { data_in } => write_good(lun, tag, data_in, out),
            Reply::CheckCondition { sense } => write_check(lun, tag, sense, out),
            Reply::Other { status } => write_short(0x82, lun, tag, status, out),
            Reply::Logout => {
                write_front(out, &bare_head(0x83, lun, tag));
                12
            }
            Reply::Reject { reason, place } => {
                write_front(out, &reject_frame(lun, tag, reason, place));
                24
            }
        }
    }
}

/// A frame whose body is a byte that says all, and three zeros.
fn write_short(kind: u8, lun: u16, tag: u32, code: u8, out: &mut [u8]) -> usize
    requires { 34 ≤ length out.old }
    ensures frame { take result out.new ≡ spelled (frame kind lun tag (code ∷ 0 ∷ 0 ∷ 0 ∷ [])) }
    ensures size { result ≡ 16 }
{
    write_front(out, &short_frame(kind, lun, tag, code));
    16
}

/// GOOD, before data-in that stands there already.
#[inline(always)]
fn write_good(lun: u16, tag: u32, data_in: usize, out: &mut [u8]) -> usize
    requires bound { data_in ≤ DATA }
    requires held { 16 + data_in ≤ length out.old }
    ensures frame { take result out.new ≡ spelled (frame 0x82 lun tag
        (command_reply status.Good None (take data_in (drop 16 out.old)))) }
    ensures size { result ≡ 16 + data_in }
{
    write_front(out, &long_head(0x82, lun, tag, [0x00, 0, 0, 0], data_in));
    16 + data_in
}

/// CHECK CONDITION.
fn write_check(lun: u16, tag: u32, sense: Sense, out: &mut [u8]) -> usize
    requires key { sense.code.key < 16 }
    requires room { 34 ≤ length out.old }
    ensures frame { take result out.new ≡ spelled (frame 0x82 lun tag
        (command_reply status.CheckCondition (Some sense) [])) }
    ensures size { result ≡ 34 }
{
    let mut bytes = [0; 18];
    pr_sense::write_fixed(&sense, &mut bytes);
    write_both(
        out,
        &long_head(0x82, lun, tag, [0x02, 18, 0, 0], 18),
        &bytes,
    );
    34
}
