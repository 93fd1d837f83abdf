//! Lines of text about frames, written behind others into room that is there.

ghost use Rattle.std.specs.Prelude.{◌≡◌, ◌+◌, ◌*◌, ◌≤◌, ◌++◌, ◌∷◌, [], true, length, vec_len, vec_capacity, codes, decimal};
ghost use Rattle.pr_words.specs.declared.nexus.Side.TheVariants.{Target};
ghost use Rattle.pr_grammar.specs.Cdbs.{operation_code};
ghost use Rattle.pr_grammar.specs.Frames.{is_body};
ghost use Rattle.pr_grammar.specs.Shows.{hex_text, login_line, command_line, logout_line, line_of, line_feed};
ghost use Rattle.pr_link.specs.Streams.{frame_of};
ghost use Rattle.std.specs.Int.{w64, to_be_bytes};

use itoa::Buffer;
use pr_link::{Frame, RawCdb, Request};
use pr_words::Nexus;

/// The most bytes of one line.
pub(crate) const LINE: usize = 128;

/// Writes a piece of a line.
fn push(text: &mut Vec<u8>, piece: &[u8])
    requires { vec_len text.old + length piece.now ≤ vec_capacity text.old }
    ensures items { text.new.items ≡ text.old.items ++ piece.now }
    ensures len { vec_len text.new ≡ vec_len text.old + length piece.now }
    ensures room { vec_capacity text.old ≤ vec_capacity text.new }
{
    if text.extend_from_slice(piece).is_err() {
        unreachable!();
    }
}

/// Writes a number in decimal.
fn push_decimal(text: &mut Vec<u8>, number: u64)
    requires { vec_len text.old + 20 ≤ vec_capacity text.old }
    ensures items { text.new.items ≡ text.old.items ++ decimal number }
    ensures len { vec_len text.new ≤ vec_len text.old + 20 }
    ensures room { vec_capacity text.old ≤ vec_capacity text.new }
{
    push(text, Buffer::new().format(number).as_bytes());
}

/// The hexadecimal digits of bytes.
#[tactic(auto, using(crate::proofs::LineTexts::hex_is_text))]
fn write_hex(bytes: &[u8], digits: &mut [u8])
    requires { length digits.old ≡ 2 * length bytes.now }
    ensures { digits.new ≡ hex_text bytes.now }
{
    if hex::encode_to_slice(bytes, digits).is_err() {
        unreachable!();
    }
}

/// Writes a name in hexadecimal, with all its zeros.
fn push_name(text: &mut Vec<u8>, name: u64)
    requires { vec_len text.old + 16 ≤ vec_capacity text.old }
    ensures items { text.new.items ≡ text.old.items ++ hex_text (to_be_bytes w64 name) }
    ensures len { vec_len text.new ≤ vec_len text.old + 16 }
    ensures room { vec_capacity text.old ≤ vec_capacity text.new }
{
    let mut digits = [0; 16];
    write_hex(&name.to_be_bytes(), &mut digits);
    push(text, &digits);
}

/// Writes a byte in hexadecimal.
fn push_byte(text: &mut Vec<u8>, byte: u8)
    requires { vec_len text.old + 2 ≤ vec_capacity text.old }
    ensures items { text.new.items ≡ text.old.items ++ hex_text (byte ∷ []) }
    ensures len { vec_len text.new ≤ vec_len text.old + 2 }
    ensures room { vec_capacity text.old ≤ vec_capacity text.new }
{
    let mut digits = [0; 2];
    write_hex(&[byte], &mut digits);
    push(text, &digits);
}

/// Writes a word of a line, and a number behind it.
fn push_field(text: &mut Vec<u8>, word: &[u8], number: u64)
    requires word { length word.now ≤ 13 }
    requires room { vec_len text.old + 33 ≤ vec_capacity text.old }
    ensures items { text.new.items ≡ text.old.items ++ (word.now ++ decimal number) }
    ensures len { vec_len text.new ≤ vec_len text.old + 33 }
    ensures room { vec_capacity text.old ≤ vec_capacity text.new }
{
    push(text, word);
    push_decimal(text, number);
}

/// Writes the line of a Login.
fn push_login(text: &mut Vec<u8>, tag: u32, version: u8, nexus: Nexus)
    requires { vec_len text.old + LINE ≤ vec_capacity text.old }
    ensures items { text.new.items ≡ text.old.items ++ login_line tag version nexus }
    ensures len { vec_len text.new ≤ vec_len text.old + LINE }
    ensures room { vec_capacity text.old ≤ vec_capacity text.new }
{
    push_field(text, b"login tag=", u64::from(tag));
    push_field(text, b" version=", u64::from(version));
    push_field(text, b" port=", u64::from(nexus.port));
    push(text, b" name=");
    push_name(text, nexus.name);
    push(text, b"\n");
}

/// Writes the line of a Command with this CDB and so many bytes of data-out.
fn push_command(text: &mut Vec<u8>, lun: u16, tag: u32, cdb: &RawCdb, data_out: usize)
    requires { vec_len text.old + LINE ≤ vec_capacity text.old }
    ensures items { text.new.items ≡
        text.old.items ++ command_line tag lun (operation_code cdb.now) data_out }
    ensures len { vec_len text.new ≤ vec_len text.old + LINE }
    ensures room { vec_capacity text.old ≤ vec_capacity text.new }
{
    push_field(text, b"command tag=", u64::from(tag));
    push_field(text, b" lun=", u64::from(lun));
    push(text, b" op=");
    push_byte(text, cdb.bytes()[0]);
    push_field(text, b" out=", data_out as u64);
    push(text, b"\n");
}

/// Writes the line of a Logout.
fn push_logout(text: &mut Vec<u8>, tag: u32)
    requires { vec_len text.old + LINE ≤ vec_capacity text.old }
    ensures items { text.new.items ≡ text.old.items ++ logout_line tag }
    ensures len { vec_len text.new ≤ vec_len text.old + LINE }
    ensures room { vec_capacity text.old ≤ vec_capacity text.new }
{
    push_field(text, b"logout tag=", u64::from(tag));
    push(text, b"\n");
}

/// Writes the line of a frame with this body, which a target receives.
pub(crate) fn push_frame(text: &mut Vec<u8>, frame: &Frame, body: &[u8])
    requires room { vec_len text.old + LINE ≤ vec_capacity text.old }
    requires body { is_body Target frame.now.kind body.now ≡ true }
    ensures items { text.new.items ≡ text.old.items ++ line_of (frame_of frame.now body.now) }
    ensures len { vec_len text.new ≤ vec_len text.old + LINE }
    ensures room { vec_capacity text.old ≤ vec_capacity text.new }
{
    match Request::read(frame.kind, body) {
        Request::Login { version, nexus } => push_login(text, frame.tag, version, nexus),
        Request::Command { cdb, data_out } => {
            push_command(text, frame.lun, frame.tag, &cdb, data_out);
        }
        Request::Logout => push_logout(text, frame.tag),
    }
}

/// Writes the last line of a stream that ends behind its frames.
pub(crate) fn push_end(text: &mut Vec<u8>, frames: u64)
    requires { vec_len text.old + LINE ≤ vec_capacity text.old }
    ensures items { text.new.items ≡ text.old.items ++ (codes "end frames=" ++ decimal frames
        ++ line_feed) }
{
    push_field(text, b"end frames=", frames);
    push(text, b"\n");
}

/// Writes the last line of a stream that ends inside a frame.
pub(crate) fn push_cut(text: &mut Vec<u8>, place: u64)
    requires { vec_len text.old + LINE ≤ vec_capacity text.old }
    ensures items { text.new.items ≡ text.old.items ++ (codes "cut place=" ++ decimal place
        ++ line_feed) }
{
    push_field(text, b"cut place=", place);
    push(text, b"\n");
}

/// Writes the last line of a stream in which a frame breaks a rule.
pub(crate) fn push_bad(text: &mut Vec<u8>, place: u64, reason: u8)
    requires { vec_len text.old + LINE ≤ vec_capacity text.old }
    ensures items { text.new.items ≡ text.old.items ++ (codes "bad place=" ++ decimal place
        ++ codes " reason=" ++ decimal reason ++ line_feed) }
{
    push_field(text, b"bad place=", place);
    push_field(text, b" reason=", u64::from(reason));
    push(text, b"\n");
}
