ghost use Rattle.std.specs.Prelude.{◌≡◌, ◌≤◌, ℕ, List, ◌++◌, true, length, take, drop};
ghost use Rattle.pr_words.specs.declared.limits.TheConstants.{DATA};
ghost use Rattle.pr_words.specs.declared.nexus.Side.TheVariants.{Target};
ghost use Rattle.pr_grammar.specs.Bodies.{is_login_body, is_command_body, login_version, login_nexus, command_head, command_cdb, command_data};
ghost use Rattle.pr_grammar.specs.Frames.{frame, spelled, is_body};

use crate::RawCdb;
use crate::layout::{bare_head, login_frame, long_head, write_both, write_front};
use pr_words::{COMMAND_HEAD, Nexus, get_u16, get_u64};

/// What an initiator asks for by a frame.
#[derive(Clone, Copy, Debug, PartialEq, Eq)]
pub enum Request {
    /// A nexus logs in, with this version of the link's protocol.
    Login { version: u8, nexus: Nexus },
    /// A command. So many bytes of data-out stand in the frame's body, from its place 20 on.
    Command { cdb: RawCdb, data_out: usize },
    /// The nexus logs out.
    Logout,
}

impl Request {
    ghost use Rattle.pr_link.specs.Requests.{request_of, request_kind, request_frame, data_out_of};

    /// What a frame of this kind asks for, by its body.
    pub fn read(kind: u8, body: &[u8]) -> Request
        requires { is_body Target kind body.now ≡ true }
        ensures { result ≡ request_of kind body.now }
    {
        match kind {
            0x01 => read_login(body),
            0x02 => read_command(body),
            _ => Request::Logout,
        }
    }

    /// Writes all of a request's frame that stands before its data-out into the front of a buffer,
    /// and says how many bytes that is. The data-out goes out behind it.
    pub fn write_head(&self, lun: u16, tag: u32, out: &mut [u8]) -> usize
        requires few { data_out_of self.now ≤ DATA }
        requires room { 32 ≤ length out.old }
        ensures head { (sent : List ℕ) → length sent ≡ data_out_of self.now →
            take result out.new ++ sent ≡ spelled (request_frame self.now lun tag sent) }
        ensures rest { drop result out.new ≡ drop result out.old }
        ensures bound { result ≤ 32 }
    {
        match self {
            Request::Login { version, nexus } => {
                write_front(out, &login_frame(lun, tag, *version, *nexus));
                24
            }
            Request::Command { cdb, data_out } => write_command_head(lun, tag, cdb, *data_out, out),
            Request::Logout => {
                write_front(out, &bare_head(0x03, lun, tag));
                12
            }
        }
    }
}

/// A Command up to its data-out.
fn write_command_head(lun: u16, tag: u32, cdb: &RawCdb, data_out: usize, out: &mut [u8]) -> usize
    requires few { data_out ≤ DATA }
    requires room { 32 ≤ length out.old }
    ensures head { (sent : List ℕ) → length sent ≡ data_out →
        take result out.new ++ sent ≡ spelled (frame 0x02 lun tag (command_head cdb.now ++ sent)) }
    ensures rest { drop result out.new ≡ drop result out.old }
    ensures size { result ≡ 32 }
{
    let text = [cdb.bytes().len() as u8, 0, 0, 0];
    let head = long_head(0x02, lun, tag, text, 16 + data_out);
    write_both(out, &head, cdb.padded());
    32
}

fn read_login(body: &[u8]) -> Request
    requires { is_login_body body.now ≡ true }
    ensures { result ≡ Request.Login (login_version body.now) (login_nexus body.now) }
{
    let nexus = Nexus {
        name: get_u64(body, 4),
        port: get_u16(body, 2),
    };
    Request::Login {
        version: body[0],
        nexus,
    }
}

fn read_command(body: &[u8]) -> Request
    requires { is_command_body body.now ≡ true }
    ensures { result ≡ Request.Command (command_cdb body.now) (length (command_data body.now)) }
{
    Request::Command {
        cdb: RawCdb::in_command(body),
        data_out: body.len() - COMMAND_HEAD,
    }
}
