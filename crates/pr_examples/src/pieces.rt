//! A frame of the greatest length, which comes in pieces.

ghost use Rattle.std.specs.Prelude.{◌<◌, ◌≤◌};

use crate::streams::{ACCEPTED, LOGIN, POWER_ON, TEST_UNIT_READY, bytes_of, fresh_disk};
use pr_io::{MemMedium, MemSink, MemSource};
use pr_tool::{Exit, replay_main};
use std::alloc::{AllocError, Global};
use std::test::*;

/// A WRITE(10) of 1,024 blocks, whose tag is 3, up to its data-out of 524,288 bytes.
const WRITE: &str = "0008001C 02000000 00000003 0A000000 2A000000000000040000 000000000000";

/// The reply that it was done: GOOD.
const DONE: &str = "0000000C 82000000 00000003 00000000";

/// Adds the bytes as arrivals of lane 0, each of so many but the last.
fn add_arrivals(schedule: &mut Vec<u8>, bytes: &[u8], size: u16) -> Result<(), AllocError>
    requires { 0 < size }
{
    for piece in bytes.chunks(size as usize) {
        let [high, low] = (piece.len() as u16).to_be_bytes();
        schedule.extend_from_slice(&[0, 0, high, low])?;
        schedule.extend_from_slice(piece)?;
    }
    Ok(())
}

/// Adds so many steps of lane 0.
fn add_steps(schedule: &mut Vec<u8>, count: u16) -> Result<(), AllocError> {
    for _ in 0..count {
        schedule.extend_from_slice(&[0, 1, 0, 0])?;
    }
    Ok(())
}

/// What is written, and what the medium of 1,024 blocks then holds, where a nexus logs in, asks
/// whether the unit is ready, and then sends the WRITE in pieces of so many bytes, but for its last
/// ones, and takes the step that admits it, one for each block and one that answers.
fn written(alloc: Global, size: u16, lacking: usize) -> Result<(MemSink, MemMedium), Fail>
    requires { 0 < size }
{
    let mut frame = bytes_of(alloc, &[WRITE])?;
    frame.resize(524_320usize.saturating_sub(lacking), 0xA5)?;
    let mut schedule = bytes_of(
        alloc,
        &[
            "00000018",
            LOGIN,
            "00010000 00000020",
            TEST_UNIT_READY,
            "00010000",
        ],
    )?;
    add_arrivals(&mut schedule, &frame, size)?;
    add_steps(&mut schedule, 1_026)?;
    let mut source = MemSource::new(schedule, Vec::new(alloc));
    let mut sink = MemSink::new(alloc, Vec::new(alloc));
    let mut medium = MemMedium::new(vec![in alloc; 0u8; 524_288]?, Vec::new(alloc));
    let mut disk = fresh_disk(alloc)?;
    let words = ["replay", "1"];
    let exit = replay_main(
        alloc,
        &words,
        &mut source,
        &mut sink,
        &mut medium,
        &mut disk,
    );
    if exit != Exit::Done {
        return Err(Fail::new("the run ended otherwise"));
    }
    Ok((sink, medium))
}

/// Whether each byte of the medium is this one.
fn is_all(medium: &MemMedium, byte: u8) -> bool {
    medium.bytes().iter().all(|found| *found == byte)
}

#[test]
fn the_longest_frame_is_one_command_however_it_is_cut(rt: HostRuntime) -> Result<(), Fail> {
    let alloc = rt.alloc();
    let whole = bytes_of(
        alloc,
        &["00000010", ACCEPTED, "00000022", POWER_ON, "00000010", DONE],
    )?;
    let short = bytes_of(alloc, &["00000010", ACCEPTED, "00000022", POWER_ON])?;
    for size in [1u16, 7, 65_535] {
        let (sink, medium) = written(alloc, size, 0)?;
        assert!(rt; sink.bytes() == whole.as_slice(), "in pieces of {size}");
        assert!(rt; is_all(&medium, 0xA5), "in pieces of {size}");
        let (sink, medium) = written(alloc, size, 1)?;
        assert!(rt; sink.bytes() == short.as_slice(), "in pieces of {size}");
        assert!(rt; is_all(&medium, 0), "in pieces of {size}");
    }
    Ok(())
}
