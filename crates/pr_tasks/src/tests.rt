use super::*;
use pr_io::{Medium, MemMedium, SureMedium};
use pr_words::{Code, Way};
use std::test::*;

/// More steps than any task takes.
const MANY: u32 = 1_026;

/// Begins a task, marks it before the step with this number, counted from 0, and steps it to its
/// end. Tells how many steps were made before the last, and what that one did.
fn run<M: Medium>(
    medium: &mut M,
    way: Way,
    lba: u64,
    count: u32,
    mark: u32,
) -> Result<(u32, StepOut), Code> {
    let mut task = Task::begin(way, lba, count, medium.blocks())?;
    let mut block = [0xA5; 512];
    for made in 0..MANY {
        if made == mark {
            task.abort();
        }
        let out = task.step(medium, &mut block);
        if !matches!(out, StepOut::Wrote { .. } | StepOut::Read { .. }) {
            return Ok((made, out));
        }
    }
    Ok((MANY, StepOut::Done))
}

#[test]
fn a_task_of_n_blocks_takes_n_steps_and_one(rt: HostRuntime) -> Result<(), Fail> {
    let mut medium = SureMedium::new(vec![in rt.alloc(); 0u8; 1_048_576]?);
    for (way, lba, count) in [
        (Way::Write, 2_047, 1),
        (Way::Write, 0, 8),
        (Way::Write, 1_024, 1_024),
        (Way::Read, 7, 1),
        (Way::Read, 0, 1_024),
        (Way::Read, 2_048, 0),
    ] {
        let ended = run(&mut &mut medium, way, lba, count, MANY);
        assert_eq!(rt; ended, Ok((count, StepOut::Done)));
    }
    Ok(())
}

#[test]
fn a_marked_task_changes_no_further_block(rt: HostRuntime) -> Result<(), Fail> {
    for (mark, moved) in [(0, 0), (1, 1), (3, 3), (7, 7), (8, 8)] {
        let alloc = rt.alloc();
        let mut medium = MemMedium::new(vec![in alloc; 0u8; 5_120]?, Vec::new(alloc));
        let ended = run(&mut medium, Way::Write, 1, 8, mark);
        assert_eq!(rt; ended, Ok((moved, StepOut::Aborted)));
        let written = medium.bytes().iter().filter(|byte| **byte == 0xA5).count();
        assert_eq!(rt; written, moved as usize * 512);
    }
    Ok(())
}

#[test]
fn a_medium_that_fails_ends_the_task(rt: HostRuntime) -> Result<(), Fail> {
    for (way, failing, moved, written, asc) in [
        (Way::Write, 1, 0, 0, 0x0C),
        (Way::Write, 3, 2, 1_024, 0x0C),
        (Way::Write, 4, 3, 1_536, 0x0C),
        (Way::Read, 1, 0, 0, 0x11),
        (Way::Read, 3, 2, 0, 0x11),
    ] {
        let alloc = rt.alloc();
        let failing = [failing].to_vec(alloc)?;
        let mut medium = MemMedium::new(vec![in alloc; 0u8; 2_560]?, failing);
        let ended = run(&mut medium, way, 1, 4, MANY);
        let code = Code {
            key: 3,
            asc,
            ascq: 0,
        };
        assert_eq!(rt; ended, Ok((moved, StepOut::Fault(code))));
        let bytes = medium.bytes().iter().filter(|byte| **byte == 0xA5);
        assert_eq!(rt; bytes.count(), written);
        assert_eq!(rt; Medium::faults(&medium), 1);
    }
    Ok(())
}

#[test]
fn a_task_begins_within_the_medium(rt: HostRuntime) -> Result<(), Fail> {
    let field = Code::INVALID_FIELD_IN_CDB;
    let range = Code::LOGICAL_BLOCK_ADDRESS_OUT_OF_RANGE;
    for (lba, count, left) in [
        (0, 1_024, Ok(1_024)),
        (0, 1_025, Err(field)),
        (u64::MAX, 1_025, Err(field)),
        (2_047, 1, Ok(1)),
        (2_047, 2, Err(range)),
        (2_048, 0, Ok(0)),
        (2_049, 0, Err(range)),
        (u64::MAX, 0, Err(range)),
        (u64::MAX, 1_024, Err(range)),
    ] {
        let begun = Task::begin(Way::Read, lba, count, 2_048);
        assert_eq!(rt; begun.map(|task| task.left()), left);
    }
    Ok(())
}
