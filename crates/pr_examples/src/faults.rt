//! Sources and sinks that fail at each call in turn.

use crate::streams::{
    LOGIN, LOGIN_LINE, LOGOUT, LOGOUT_LINE, OUTPUT, READY_LINE, TEST_UNIT_READY, bytes_of,
    run_failing_sink, run_failing_source, schedule, text_of,
};
use pr_tool::Exit;
use std::test::*;

/// How many bytes of the schedule end with each step, and how many of the output with the reply.
const STEPS: [(u64, usize); 4] = [(0, 0), (32, 20), (72, 58), (92, 74)];

#[test]
fn a_source_that_fails_ends_the_run(rt: HostRuntime) -> Result<(), Fail> {
    let alloc = rt.alloc();
    let whole = bytes_of(alloc, &OUTPUT)?;
    for read in 0..100u64 {
        let (exit, sink) = run_failing_source(alloc, false, schedule(alloc)?, read + 1)?;
        // the call behind the last byte finds the end
        let wanted = if read <= 92 {
            Exit::ReadFault
        } else {
            Exit::Done
        };
        assert_eq!(rt; exit, wanted, "after {read} bytes");
        let past = STEPS.iter().rfind(|step| step.0 <= read);
        let written = past.map_or(0, |step| step.1);
        assert!(rt;
            whole.get(..written) == Some(sink.bytes()),
            "after {read} bytes"
        );
    }
    Ok(())
}

#[test]
fn a_sink_that_fails_ends_the_run(rt: HostRuntime) -> Result<(), Fail> {
    let alloc = rt.alloc();
    let whole = bytes_of(alloc, &OUTPUT)?;
    for written in 0..80usize {
        let (exit, sink) = run_failing_sink(alloc, false, schedule(alloc)?, written as u64 + 1)?;
        let wanted = if written < 74 {
            Exit::WriteFault
        } else {
            Exit::Done
        };
        assert_eq!(rt; exit, wanted, "after {written} bytes");
        let held = whole.get(..written.min(74));
        assert!(rt; held == Some(sink.bytes()), "after {written} bytes");
    }
    Ok(())
}

#[test]
fn a_source_that_fails_comes_before_what_it_would_break(rt: HostRuntime) -> Result<(), Fail> {
    let alloc = rt.alloc();
    for call in 1..=9u64 {
        let schedule = bytes_of(alloc, &["00010000 00040000"])?;
        let (exit, _) = run_failing_source(alloc, false, schedule, call)?;
        let wanted = if call <= 8 {
            Exit::ReadFault
        } else {
            Exit::BadSchedule { place: 4 }
        };
        assert_eq!(rt; exit, wanted, "call {call} fails");
    }
    Ok(())
}

#[test]
fn a_source_that_fails_leaves_the_lines_before(rt: HostRuntime) -> Result<(), Fail> {
    let alloc = rt.alloc();
    for read in 0..80u64 {
        let bytes = bytes_of(alloc, &[LOGIN, TEST_UNIT_READY, LOGOUT])?;
        let (exit, sink) = run_failing_source(alloc, true, bytes, read + 1)?;
        let (wanted, lines) = match read {
            0..=23 => (Exit::ReadFault, ["", "", "", ""]),
            24..=55 => (Exit::ReadFault, [LOGIN_LINE, "", "", ""]),
            56..=67 => (Exit::ReadFault, [LOGIN_LINE, READY_LINE, "", ""]),
            68 => (Exit::ReadFault, [LOGIN_LINE, READY_LINE, LOGOUT_LINE, ""]),
            _ => (
                Exit::Done,
                [LOGIN_LINE, READY_LINE, LOGOUT_LINE, "end frames=3\n"],
            ),
        };
        assert_eq!(rt; exit, wanted, "after {read} bytes");
        let text = text_of(alloc, &lines)?;
        assert_eq!(rt; sink.bytes(), text.as_slice(), "after {read} bytes");
    }
    Ok(())
}

#[test]
fn a_sink_that_fails_has_the_text_before(rt: HostRuntime) -> Result<(), Fail> {
    let alloc = rt.alloc();
    let whole = text_of(alloc, &[LOGIN_LINE, "end frames=1\n"])?;
    for written in 0..80usize {
        let bytes = bytes_of(alloc, &[LOGIN])?;
        let (exit, sink) = run_failing_sink(alloc, true, bytes, written as u64 + 1)?;
        let wanted = if written < 64 {
            Exit::WriteFault
        } else {
            Exit::Done
        };
        assert_eq!(rt; exit, wanted, "after {written} bytes");
        let held = whole.get(..written.min(64));
        assert!(rt; held == Some(sink.bytes()), "after {written} bytes");
    }
    Ok(())
}
