//! A short session: its bytes, its schedule and its output. Bytes are hexadecimal texts.

use pr_io::{DISK, FRESH_HEAD, MemSink, MemSource, Sink, Source, SureDisk, SureMedium};
use pr_tool::{Exit, replay_main, show_main};
use std::alloc::Global;
use std::test::*;

/// A Login of version 1 by the name 11h at port 1, whose tag is 1.
pub const LOGIN: &str = "00000014 01000000 00000001 01000001 0000000000000011";

/// The reply that accepts it.
pub const ACCEPTED: &str = "0000000C 81000000 00000001 00000000";

/// A TEST UNIT READY whose tag is 2.
pub const TEST_UNIT_READY: &str =
    "0000001C 02000000 00000002 06000000 00000000000000000000000000000000";

/// The reply that the power has come on: 6/29/00.
pub const POWER_ON: &str =
    "0000001E 82000000 00000002 02120000 700006000000000A00000000290000000000";

/// A Logout whose tag is 9.
pub const LOGOUT: &str = "00000008 03000000 00000009";

/// Its reply.
pub const LEFT: &str = "00000008 83000000 00000009";

/// The schedule of the three frames, with a step behind each.
pub const SCHEDULE: [&str; 6] = [
    "00000018",
    LOGIN,
    "00010000 00000020",
    TEST_UNIT_READY,
    "00010000 0000000C",
    LOGOUT,
];

/// The last step.
pub const LAST_STEP: &str = "00010000";

/// What is written.
pub const OUTPUT: [&str; 6] = ["00000010", ACCEPTED, "00000022", POWER_ON, "0000000C", LEFT];

/// The lines of a Login, of a TEST UNIT READY and of a Logout.
pub const LOGIN_LINE: &str = "login tag=1 version=1 port=1 name=0000000000000011\n";

pub const READY_LINE: &str = "command tag=2 lun=0 op=00 out=0\n";

pub const LOGOUT_LINE: &str = "logout tag=9\n";

/// Adds the bytes that a hexadecimal text spells, whose words have whole bytes.
fn add_hex(alloc: Global, bytes: &mut Vec<u8>, text: &str) -> Result<(), Fail> {
    for word in text.split_ascii_whitespace() {
        let piece = hex::decode(alloc, word)?;
        bytes.extend_from_slice(&piece)?;
    }
    Ok(())
}

/// The bytes that the texts spell, one after another.
pub fn bytes_of(alloc: Global, texts: &[&str]) -> Result<Vec<u8>, Fail> {
    let mut bytes = Vec::new(alloc);
    for text in texts {
        add_hex(alloc, &mut bytes, text)?;
    }
    Ok(bytes)
}

/// The schedule of the short session.
pub fn schedule(alloc: Global) -> Result<Vec<u8>, Fail> {
    let mut schedule = bytes_of(alloc, &SCHEDULE)?;
    add_hex(alloc, &mut schedule, LAST_STEP)?;
    Ok(schedule)
}

/// One text of several.
pub fn text_of(alloc: Global, lines: &[&str]) -> Result<Vec<u8>, Fail> {
    let mut text = Vec::new(alloc);
    for line in lines {
        text.extend_from_slice(line.as_bytes())?;
    }
    Ok(text)
}

/// A disk on which nothing was kept yet.
pub fn fresh_disk(alloc: Global) -> Result<SureDisk, Fail> {
    let mut image = FRESH_HEAD.to_vec(alloc)?;
    image.resize(DISK, 0)?;
    Ok(SureDisk::new(image))
}

/// Runs `replay 1` over a fresh disk and a medium of one block.
pub fn replay<S: Source, K: Sink>(
    alloc: Global,
    source: &mut S,
    sink: &mut K,
) -> Result<Exit, Fail> {
    let mut medium = SureMedium::new(vec![in alloc; 0u8; 512]?);
    let mut disk = fresh_disk(alloc)?;
    let words = ["replay", "1"];
    Ok(replay_main(alloc, &words, source, sink, &mut medium, &mut disk))
}

/// Runs `replay 1` or `show` over a source that gives one byte a call and whose call of this
/// number fails.
pub fn run_failing_source(
    alloc: Global,
    is_show: bool,
    bytes: Vec<u8>,
    call: u64,
) -> Result<(Exit, MemSink), Fail> {
    let mut source = MemSource::in_pieces(bytes, 1, [call].to_vec(alloc)?);
    let mut sink = MemSink::new(alloc, Vec::new(alloc));
    let exit = if is_show {
        show_main(alloc, &mut source, &mut sink)
    } else {
        replay(alloc, &mut source, &mut sink)?
    };
    Ok((exit, sink))
}

/// The same over a sink that takes one byte a call and whose call of this number fails.
pub fn run_failing_sink(
    alloc: Global,
    is_show: bool,
    bytes: Vec<u8>,
    call: u64,
) -> Result<(Exit, MemSink), Fail> {
    let mut source = MemSource::new(bytes, Vec::new(alloc));
    let mut sink = MemSink::in_pieces(alloc, 1, [call].to_vec(alloc)?);
    let exit = if is_show {
        show_main(alloc, &mut source, &mut sink)
    } else {
        replay(alloc, &mut source, &mut sink)?
    };
    Ok((exit, sink))
}
