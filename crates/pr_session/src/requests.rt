//! Requests and replies of the tests in threads. Each CDB has 16 bytes, and each tag is 0.

ghost use Rattle.std.specs.Prelude.{◌≤◌};
ghost use Rattle.pr_gate.specs.Passes.{IsOf, IsFree};
ghost use Rattle.pr_words.specs.declared.limits.TheConstants.{DATA};

use crate::samples::Target;
use crate::{SessionEnd, serve_connection};
use pr_gate::{Gate, Pass};
use pr_io::{Breath, MemSink, SureSource};
use pr_words::{BLOCK, COMMAND_HEAD, FRAME_HEAD, PARAMETER_LIST, REPLY_HEAD};
use std::alloc::{AllocError, Global};
use std::sync::Wait;

/// The service actions REGISTER AND IGNORE EXISTING KEY, RESERVE, and PREEMPT AND ABORT (SPC-4).
pub(crate) const REGISTER: u8 = 6;

pub(crate) const RESERVE: u8 = 1;

pub(crate) const PREEMPT: u8 = 5;

/// The statuses GOOD, CHECK CONDITION, RESERVATION CONFLICT and TASK ABORTED (SAM-5).
pub(crate) const GOOD: u8 = 0x00;

pub(crate) const CHECK: u8 = 0x02;

pub(crate) const CONFLICT: u8 = 0x18;

pub(crate) const ABORTED: u8 = 0x40;

/// Adds a Login of this name at port 1.
pub(crate) fn add_login(frames: &mut Vec<u8>, name: u64) -> Result<(), AllocError> {
    frames.extend_from_slice(b"\0\0\0\x14\x01\0\0\0\0\0\0\0\x01\0\0\x01")?;
    frames.extend_from_slice(&name.to_be_bytes())
}

/// Adds a Logout.
pub(crate) fn add_logout(frames: &mut Vec<u8>) -> Result<(), AllocError> {
    frames.extend_from_slice(b"\0\0\0\x08\x03\0\0\0\0\0\0\0")
}

/// The bytes of a command behind its length, without data-out.
const COMMAND: u32 = (FRAME_HEAD - 4 + COMMAND_HEAD) as u32;

/// Adds the head of a command with so many bytes of data-out.
fn add_command(frames: &mut Vec<u8>, cdb: [u8; 16], len: u32) -> Result<(), AllocError>
    requires { len ≤ DATA }
{
    frames.extend_from_slice(&(COMMAND + len).to_be_bytes())?;
    frames.extend_from_slice(b"\x02\0\0\0\0\0\0\0\x10\0\0\0")?;
    frames.extend_from_slice(&cdb)
}

/// Adds a TEST UNIT READY.
pub(crate) fn add_ready(frames: &mut Vec<u8>) -> Result<(), AllocError> {
    add_command(frames, [0; 16], 0)
}

/// Adds a READ KEYS of at most 256 bytes.
pub(crate) fn add_read_keys(frames: &mut Vec<u8>) -> Result<(), AllocError> {
    let cdb = [0x5E, 0, 0, 0, 0, 0, 0, 1, 0, 0, 0, 0, 0, 0, 0, 0];
    add_command(frames, cdb, 0)
}

/// Adds a PERSISTENT RESERVE OUT of type 5h, with these keys.
pub(crate) fn add_reserve_out(
    frames: &mut Vec<u8>,
    action: u8,
    key: u64,
    action_key: u64,
) -> Result<(), AllocError> {
    let cdb = [0x5F, action, 5, 0, 0, 0, 0, 0, 24, 0, 0, 0, 0, 0, 0, 0];
    add_command(frames, cdb, PARAMETER_LIST as u32)?;
    frames.extend_from_slice(&key.to_be_bytes())?;
    frames.extend_from_slice(&action_key.to_be_bytes())?;
    frames.extend_from_slice(&[0; 8])
}

/// Adds a READ(10) of so many blocks.
pub(crate) fn add_read(frames: &mut Vec<u8>, lba: u8, count: u8) -> Result<(), AllocError> {
    let cdb = [0x28, 0, 0, 0, 0, lba, 0, 0, count, 0, 0, 0, 0, 0, 0, 0];
    add_command(frames, cdb, 0)
}

/// How many writers there may be, numbered from 0.
pub(crate) const WRITERS: u8 = 16;

/// The byte with which a writer fills the block at an address below 8. It isn't zero.
pub(crate) fn mark(lba: u8, writer: u8) -> u8 {
    lba.wrapping_mul(WRITERS)
        .wrapping_add(writer)
        .wrapping_add(1)
}

/// Adds a WRITE(10) of so many blocks, filled with this writer's marks.
pub(crate) fn add_write(
    frames: &mut Vec<u8>,
    lba: u8,
    count: u8,
    writer: u8,
) -> Result<(), AllocError> {
    let cdb = [0x2A, 0, 0, 0, 0, lba, 0, 0, count, 0, 0, 0, 0, 0, 0, 0];
    add_command(frames, cdb, u32::from(count) * BLOCK as u32)?;
    for i in 0..count {
        frames.extend_from_slice(&[mark(lba.wrapping_add(i), writer); BLOCK])?;
    }
    Ok(())
}

/// The bytes of a Login reply, and those of a Command reply before its sense data or data-in.
const HEAD: usize = FRAME_HEAD + REPLY_HEAD;

/// The status of the first reply, its sense data or data-in, and the replies behind it.
pub(crate) fn first_reply(replies: &[u8]) -> Option<(u8, &[u8], &[u8])> {
    let (len, _) = replies.split_first_chunk::<4>()?;
    let len = (u32::from_be_bytes(*len) as usize).saturating_add(4);
    let (reply, rest) = replies.split_at_checked(len)?;
    let (head, body) = reply.split_first_chunk::<HEAD>()?;
    Some((head[FRAME_HEAD], body, rest))
}

/// Serves a connection that brings these frames.
pub(crate) fn connect<B: Breath, R: Wait>(
    alloc: Global,
    rt: &R,
    gate: &Gate<Target>,
    pass: &mut Pass<Target>,
    frames: Vec<u8>,
    breath: &mut B,
) -> (SessionEnd, MemSink)
    requires { IsOf gate.now pass.old × IsFree pass.old }
    ensures { IsOf gate.now pass.new × IsFree pass.new }
{
    let mut source = SureSource::new(frames);
    let mut sink = MemSink::new(alloc, Vec::new(alloc));
    let end = serve_connection(alloc, rt, gate, pass, &mut source, &mut sink, breath);
    (end, sink)
}
