ghost use Rattle.std.specs.Prelude.{◌≡◌, ◌+◌, ◌≤◌, length, slice_range};
ghost use Rattle.std.specs.List.{list_all};
ghost use Rattle.pr_grammar.specs.Bodies.{is_zero, is_login_body, is_command_body, is_login_reply, is_command_reply, is_reject};
ghost use Rattle.pr_grammar.specs.Frames.{is_kind, is_body};

use pr_words::{COMMAND_HEAD, Side, get_u64};

fn are_zeros(bytes: &[u8]) -> bool
    ensures { result ≡ list_all is_zero bytes.now }
{
    bytes.iter().all(|b| *b == 0)
}

fn is_login(body: &[u8]) -> bool
    ensures { result ≡ is_login_body body.now }
{
    body.len() == 12 && body[1] == 0
}

/// Whether the bytes behind a CDB of this size are zeros. The last eight are looked at together
/// where they can be.
#[inline(always)]
fn is_padded(body: &[u8], size: usize) -> bool
    requires long { COMMAND_HEAD ≤ length body.now }
    requires few { size ≤ 16 }
    ensures { result ≡ list_all is_zero (slice_range body.now (4 + size) COMMAND_HEAD) }
{
    if size > 8 {
        return are_zeros(&body[4 + size..COMMAND_HEAD]);
    }
    are_zeros(&body[4 + size..12]) && get_u64(body, 12) == 0
}

#[inline(always)]
fn is_command(body: &[u8]) -> bool
    ensures { result ≡ is_command_body body.now }
{
    if body.len() < COMMAND_HEAD {
        return false;
    }
    let size = body[0] as usize;
    if size == 0 || size > 16 {
        return false;
    }
    if !are_zeros(&body[1..4]) {
        return false;
    }
    is_padded(body, size)
}

fn answers_login(body: &[u8]) -> bool
    ensures { result ≡ is_login_reply body.now }
{
    body.len() == 4 && are_zeros(&body[1..4])
}

fn answers_command(body: &[u8]) -> bool
    ensures { result ≡ is_command_reply body.now }
{
    if body.len() < 4 {
        return false;
    }
    if !are_zeros(&body[2..4]) {
        return false;
    }
    match body[0] {
        0x02 => body[1] == 18 && body.len() == 22,
        0x00 => body[1] == 0,
        _ => body[1] == 0 && body.len() == 4,
    }
}

fn rejects(body: &[u8]) -> bool
    ensures { result ≡ is_reject body.now }
{
    body.len() == 12 && are_zeros(&body[1..4])
}

#[inline(always)]
fn is_request(kind: u8, body: &[u8]) -> bool
    ensures { result ≡ is_body Side.Target kind body.now }
{
    match kind {
        0x01 => is_login(body),
        0x02 => is_command(body),
        _ => body.is_empty(),
    }
}

fn is_reply(kind: u8, body: &[u8]) -> bool
    ensures { result ≡ is_body Side.Initiator kind body.now }
{
    match kind {
        0x81 => answers_login(body),
        0x82 => answers_command(body),
        0x83 => body.is_empty(),
        _ => rejects(body),
    }
}

/// Whether a side receives frames of this kind.
pub(crate) fn is_received(side: Side, kind: u8) -> bool
    ensures { result ≡ is_kind side kind }
{
    match side {
        Side::Target => matches!(kind, 0x01 | 0x02 | 0x03),
        Side::Initiator => matches!(kind, 0x81 | 0x82 | 0x83 | 0xFF),
    }
}

/// Whether a body has the form of its kind, which this side receives.
#[inline(always)]
pub(crate) fn is_well_formed(side: Side, kind: u8, body: &[u8]) -> bool
    ensures { result ≡ is_body side kind body.now }
{
    match side {
        Side::Target => is_request(kind, body),
        Side::Initiator => is_reply(kind, body),
    }
}
