//! How a run ends, what it writes, and what its connections are told.

use super::*;
use crate::samples::{FIRST, REPLIES, SECOND, foreign_disk, fresh_disk, medium, talk};
use pr_core::OpenFault;
use pr_io::{MemDoor, MemSink, SureDisk, SureSource};
use std::alloc::Global;
use std::sync::Wait;
use std::test::*;
use std::thread::Threads;

/// How a run ended, how many connections were taken, what it wrote, and what the two connections
/// were told.
#[derive(Drop)]
struct Outcome {
    exit: ServeExit,
    taken: u64,
    line: MemSink,
    first: MemSink,
    second: MemSink,
}

/// Serves two connections that wait at a door, over this disk.
fn serve<R: Threads + Wait + Sync>(
    rt: &R,
    alloc: Global,
    accept: Option<u8>,
    disk: SureDisk,
    failing_accept: u64,
    failing_put: u64,
) -> Result<Outcome, Fail> {
    let mut line = MemSink::new(alloc, [failing_put].to_vec(alloc)?);
    let mut first = MemSink::new(alloc, Vec::new(alloc));
    let mut second = MemSink::new(alloc, Vec::new(alloc));
    let mut connections = Vec::new(alloc);
    connections.push((SureSource::new(talk(alloc, FIRST)?), &mut first))?;
    connections.push((SureSource::new(talk(alloc, SECOND)?), &mut second))?;
    let door = MemDoor::new(connections, [failing_accept].to_vec(alloc)?);
    let accept = match accept {
        Some(many) => Some(u64::from(many)),
        None => None,
    };
    let (exit, door) = serve_main(alloc, rt, accept, door, medium(alloc)?, disk, &mut line);
    let taken = door.taken();
    drop(door);
    Ok(Outcome {
        exit,
        taken,
        line,
        first,
        second,
    })
}

/// How many connections are asked for; which call of the door and which of the line's sink fails, 0
/// for none; and what comes of it: the exit, how many connections were taken, and the line.
type Row = (Option<u8>, u64, u64, ServeExit, u64, &'static [u8]);

const ROWS: [Row; 7] = [
    (Some(2), 0, 0, ServeExit::Done, 2, b"turns 6\n"),
    (Some(1), 0, 0, ServeExit::Done, 1, b"turns 3\n"),
    (Some(2), 1, 0, ServeExit::DoorFault, 0, b""),
    (Some(2), 2, 0, ServeExit::DoorFault, 1, b""),
    (Some(3), 0, 0, ServeExit::DoorFault, 2, b""),
    (None, 0, 0, ServeExit::DoorFault, 2, b""),
    (Some(2), 0, 1, ServeExit::WriteFault, 2, b""),
];

// Each connection that was taken is served to its end, whatever ends the run.
#[test]
fn each_end_of_a_run(rt: HostRuntime) -> Result<(), Fail> {
    let alloc = rt.alloc();
    for (i, (accept, failing_accept, failing_put, exit, taken, line)) in ROWS.iter().enumerate() {
        let disk = fresh_disk(alloc)?;
        let came = serve(&rt, alloc, *accept, disk, *failing_accept, *failing_put)?;
        assert_eq!(rt; came.exit, *exit, "row {i}");
        assert_eq!(rt; came.taken, *taken, "row {i}");
        assert_eq!(rt; came.line.bytes(), *line, "row {i}");
        let first = if *taken < 1 { b"".as_slice() } else { REPLIES };
        assert_eq!(rt; came.first.bytes(), first, "row {i}");
        let second = if *taken < 2 { b"".as_slice() } else { REPLIES };
        assert_eq!(rt; came.second.bytes(), second, "row {i}");
    }
    Ok(())
}

// Where no registrations' file stands on the disk, nothing is done.
#[test]
fn a_file_of_another_kind(rt: HostRuntime) -> Result<(), Fail> {
    let alloc = rt.alloc();
    let came = serve(&rt, alloc, Some(2), foreign_disk(alloc)?, 0, 0)?;
    let fault = OpenFault::BadFile { place: 0 };
    assert_eq!(rt; came.exit, ServeExit::OpenFault(fault));
    assert_eq!(rt; came.taken, 0);
    assert!(rt; came.line.bytes().is_empty());
    assert!(rt; came.first.bytes().is_empty());
    Ok(())
}
