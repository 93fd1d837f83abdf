//! The first bytes of frames, and their place in a buffer.

ghost use Rattle.std.specs.Prelude.{◌≡◌, ◌+◌, ◌≤◌, ◌++◌, [], ◌∷◌, ℕ, List, length, drop};
ghost use Rattle.pr_words.specs.declared.limits.TheConstants.{BODY};
ghost use Rattle.pr_grammar.specs.Bodies.{login_body, reject};
ghost use Rattle.pr_grammar.specs.Frames.{frame, spelled};

use pr_words::Nexus;

/// A frame whose body is four bytes and then so many bytes, up to those.
pub(crate) fn long_head(kind: u8, lun: u16, tag: u32, text: [u8; 4], len: usize) -> [u8; 16]
    requires { 4 + len ≤ BODY }
    ensures size { length result ≡ 16 }
    ensures frame { (bytes : List ℕ) → length bytes ≡ len →
        result ++ bytes ≡ spelled (frame kind lun tag (text ++ bytes)) }
{
    let size = (12 + len as u32).to_be_bytes();
    let unit = lun.to_be_bytes();
    let mark = tag.to_be_bytes();
    [
        size[0], size[1], size[2], size[3], kind, 0, unit[0], unit[1], mark[0], mark[1], mark[2],
        mark[3], text[0], text[1], text[2], text[3],
    ]
}

/// A frame whose body is a byte that says all, and three zeros.
pub(crate) fn short_frame(kind: u8, lun: u16, tag: u32, code: u8) -> [u8; 16]
    ensures { result ≡ spelled (frame kind lun tag (code ∷ 0 ∷ 0 ∷ 0 ∷ [])) }
{
    let unit = lun.to_be_bytes();
    let mark = tag.to_be_bytes();
    [
        0, 0, 0, 12, kind, 0, unit[0], unit[1], mark[0], mark[1], mark[2], mark[3], code, 0, 0, 0,
    ]
}

/// A frame with an empty body.
pub(crate) fn bare_head(kind: u8, lun: u16, tag: u32) -> [u8; 12]
    ensures { result ≡ spelled (frame kind lun tag []) }
{
    let unit = lun.to_be_bytes();
    let mark = tag.to_be_bytes();
    [
        0, 0, 0, 8, kind, 0, unit[0], unit[1], mark[0], mark[1], mark[2], mark[3],
    ]
}

/// A Login.
pub(crate) fn login_frame(lun: u16, tag: u32, version: u8, nexus: Nexus) -> [u8; 24]
    ensures { result ≡ spelled (frame 0x01 lun tag (login_body version nexus)) }
{
    let unit = lun.to_be_bytes();
    let mark = tag.to_be_bytes();
    let p = nexus.port.to_be_bytes();
    let n = nexus.name.to_be_bytes();
    [
        0, 0, 0, 20, 0x01, 0, unit[0], unit[1], mark[0], mark[1], mark[2], mark[3], version, 0,
        p[0], p[1], n[0], n[1], n[2], n[3], n[4], n[5], n[6], n[7],
    ]
}

/// A Reject.
pub(crate) fn reject_frame(lun: u16, tag: u32, reason: u8, place: u64) -> [u8; 24]
    ensures { result ≡ spelled (frame 0xFF lun tag (reject reason place)) }
{
    let unit = lun.to_be_bytes();
    let mark = tag.to_be_bytes();
    let p = place.to_be_bytes();
    [
        0, 0, 0, 20, 0xFF, 0, unit[0], unit[1], mark[0], mark[1], mark[2], mark[3], reason, 0, 0,
        0, p[0], p[1], p[2], p[3], p[4], p[5], p[6], p[7],
    ]
}

/// Writes bytes over the first ones of the buffer.
pub(crate) fn write_front(out: &mut [u8], head: &[u8])
    requires { length head.now ≤ length out.old }
    ensures { out.new ≡ head.now ++ drop (length head.now) out.old }
{
    out[..head.len()].copy_from_slice(head);
}

/// Writes both over the first bytes of the buffer, one behind the other.
pub(crate) fn write_both(out: &mut [u8], head: &[u8], tail: &[u8])
    requires { length head.now + length tail.now ≤ length out.old }
    ensures { out.new ≡ head.now ++ tail.now ++ drop (length head.now + length tail.now) out.old }
{
    let (front, rest) = out.split_at_mut(head.len());
    front.copy_from_slice(head);
    write_front(rest, tail);
}
