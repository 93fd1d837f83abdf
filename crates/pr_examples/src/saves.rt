//! What APTPL keeps from one run to the next, over disks whose calls fail in turn.

ghost use Rattle.std.specs.Prelude.{◌<◌};

use crate::streams::{ACCEPTED, LOGIN, POWER_ON, TEST_UNIT_READY, bytes_of};
use pr_io::{DISK, FRESH_HEAD, MemDisk, MemSink, MemSource, SureMedium};
use pr_tool::{Exit, replay_main};
use std::alloc::Global;
use std::test::*;

/// A step of lane 0, and the heads of arrivals of a Login and of a command.
const STEP: &str = "00010000";

const LOGS_IN: &str = "00000018";

const ASKS: &str = "00000020";

/// REGISTER AND IGNORE EXISTING KEY with APTPL one, whose tag is 3; it arrives, and a step follows,
/// as with the commands behind it.
const REGISTER: &str = "00000038
    00000034 02000000 00000003 0A000000 5F060000000000001800 000000000000
    0000000000000000 0000000090010001 0000000001000000 00010000";

/// RESERVE of type 5h, whose tag is 5, and the first with APTPL zero, whose tag is 6.
const RESERVE: &str = "00000038
    00000034 02000000 00000005 0A000000 5F010500000000001800 000000000000
    0000000090010001 0000000000000000 0000000000000000 00010000";

const REGISTER_FOR_NOW: &str = "00000038
    00000034 02000000 00000006 0A000000 5F060000000000001800 000000000000
    0000000000000000 0000000090010001 0000000000000000 00010000";

/// READ KEYS, whose tag is 4, and READ RESERVATION, whose tag is 7.
const READ_KEYS: &str = "00000020
    0000001C 02000000 00000004 0A000000 5E000000000000010000 000000000000 00010000";

const READ_RESERVATION: &str = "00000020
    0000001C 02000000 00000007 0A000000 5E010000000000010000 000000000000 00010000";

/// Power is lost and comes back.
const POWER_LOSS: &str = "00030000";

/// The replies, each with the head of its output record.
const GOOD: &str = "00000010 0000000C 82000000 00000003 00000000";

const UNSAVED: &str =
    "00000022 0000001E 82000000 00000003 02120000 700004000000000A00000000440000000000";

const NO_KEYS: &str = "00000018 00000014 82000000 00000004 00000000 00000000 00000000";

const ONE_KEY: &str =
    "00000020 0000001C 82000000 00000004 00000000 00000001 00000008 0000000090010001";

const ONE_KEY_AGAIN: &str =
    "00000020 0000001C 82000000 00000004 00000000 00000002 00000008 0000000090010001";

const KEY_KEPT: &str =
    "00000020 0000001C 82000000 00000004 00000000 00000000 00000008 0000000090010001";

const RESERVED: &str = "00000010 0000000C 82000000 00000005 00000000";

const NOT_RESERVED: &str =
    "00000022 0000001E 82000000 00000005 02120000 700004000000000A00000000440000000000";

const CONFLICT: &str = "00000010 0000000C 82000000 00000005 18000000";

const FOR_NOW: &str = "00000010 0000000C 82000000 00000006 00000000";

const NOT_FOR_NOW: &str =
    "00000022 0000001E 82000000 00000006 02120000 700004000000000A00000000440000000000";

const NOBODY_HOLDS: &str = "00000018 00000014 82000000 00000007 00000000 00000000 00000000";

const HOLDS: &str =
    "00000028 00000024 82000000 00000007 00000000 00000000 00000010 0000000090010001 00000000 00050000";

/// A lane logs in and takes the attention of the power-up.
const ENTERS: [&str; 6] = [LOGS_IN, LOGIN, STEP, ASKS, TEST_UNIT_READY, STEP];

/// It registers and looks, twice.
const TWICE: [&str; 4] = [REGISTER, READ_KEYS, REGISTER, READ_KEYS];

/// Four commands change what is kept, each of which is saved.
const FOUR: [&str; 4] = [REGISTER, RESERVE, REGISTER_FOR_NOW, REGISTER];

/// A disk with a file of this version in which nothing was kept, whose calls of these numbers fail.
fn disk_of(alloc: Global, version: u8, failing: Vec<u64>) -> Result<MemDisk, Fail> {
    let mut head = FRESH_HEAD;
    head[8] = version;
    let mut image = head.to_vec(alloc)?;
    image.resize(DISK, 0)?;
    Ok(MemDisk::new(image, failing))
}

/// Runs `replay 1` with these pieces of a schedule, over this disk and a medium of one block.
fn run(alloc: Global, disk: &mut MemDisk, pieces: &[&[&str]]) -> Result<(Exit, MemSink), Fail> {
    let mut schedule = Vec::new(alloc);
    for piece in pieces {
        schedule.extend_from_slice(&bytes_of(alloc, *piece)?)?;
    }
    let mut source = MemSource::new(schedule, Vec::new(alloc));
    let mut sink = MemSink::new(alloc, Vec::new(alloc));
    let mut medium = SureMedium::new(vec![in alloc; 0u8; 512]?);
    let words = ["replay", "1"];
    let exit = replay_main(alloc, &words, &mut source, &mut sink, &mut medium, disk);
    Ok((exit, sink))
}

/// What is written after the Login and the attention of the power-up, of these replies.
fn written(alloc: Global, replies: &[&str]) -> Result<Vec<u8>, Fail> {
    let mut bytes = bytes_of(alloc, &["00000010", ACCEPTED, "00000022", POWER_ON])?;
    bytes.extend_from_slice(&bytes_of(alloc, replies)?)?;
    Ok(bytes)
}

// An opening makes four calls: a sync, and reads of the head and of both slots. The first save
// makes five: a sync, and then a write and a sync twice. The second registration keeps the same.
#[test]
fn each_call_of_the_disk_fails_in_turn(rt: HostRuntime) -> Result<(), Fail> {
    let alloc = rt.alloc();
    for call in 1..=10u64 {
        let mut disk = disk_of(alloc, 1, [call].to_vec(alloc)?)?;
        let (exit, sink) = run(alloc, &mut disk, &[&ENTERS, &TWICE])?;
        if call <= 4 {
            assert_eq!(rt; exit, Exit::DiskFault, "call {call} fails");
            assert!(rt; sink.bytes().is_empty(), "call {call} fails");
            continue;
        }
        assert_eq!(rt; exit, Exit::Done, "call {call} fails");
        let replies = if call <= 9 {
            [UNSAVED, NO_KEYS, GOOD, ONE_KEY]
        } else {
            [GOOD, ONE_KEY, GOOD, ONE_KEY_AGAIN]
        };
        let wanted = written(alloc, &replies)?;
        assert_eq!(rt; sink.bytes(), wanted.as_slice(), "call {call} fails");
        // the next run opens the file that this one left
        let (exit, sink) = run(alloc, &mut disk, &[&ENTERS, &[READ_KEYS]])?;
        let (next, wanted) = if call <= 9 {
            (Exit::Done, written(alloc, &[KEY_KEPT])?)
        } else {
            (Exit::DiskFault, Vec::new(alloc))
        };
        assert_eq!(rt; exit, next, "call {call} fails, and then a run");
        assert_eq!(rt;
            sink.bytes(),
            wanted.as_slice(),
            "call {call} fails, and then a run"
        );
    }
    Ok(())
}

/// What is answered to the four commands, and what may stand after the power loss.
struct Kept {
    replies: [&'static str; 4],
    stands: &'static [[&'static str; 2]],
}

/// What comes of a failure of the first to the fourth save, and of none.
const KEPT: [Kept; 5] = [
    Kept {
        replies: [UNSAVED, CONFLICT, FOR_NOW, GOOD],
        stands: &[[KEY_KEPT, NOBODY_HOLDS]],
    },
    Kept {
        replies: [GOOD, NOT_RESERVED, FOR_NOW, GOOD],
        stands: &[[KEY_KEPT, NOBODY_HOLDS]],
    },
    Kept {
        replies: [GOOD, RESERVED, NOT_FOR_NOW, GOOD],
        stands: &[[KEY_KEPT, HOLDS]],
    },
    Kept {
        replies: [GOOD, RESERVED, FOR_NOW, UNSAVED],
        stands: &[[NO_KEYS, NOBODY_HOLDS], [KEY_KEPT, HOLDS]],
    },
    Kept {
        replies: [GOOD, RESERVED, FOR_NOW, GOOD],
        stands: &[[KEY_KEPT, HOLDS]],
    },
];

/// The save of the four to which a call of the disk belongs. The first two write slots that were
/// never open, by five calls; the others close theirs first, by one more.
fn save_of(call: u64) -> usize
    ensures { result < 5 }
{
    match call {
        5..=9 => 0,
        10..=14 => 1,
        15..=20 => 2,
        21..=26 => 3,
        _ => 4,
    }
}

// The opening after the power loss makes the calls 27 to 30.
#[test]
fn each_call_of_four_saves_fails_in_turn(rt: HostRuntime) -> Result<(), Fail> {
    let alloc = rt.alloc();
    for call in 5..=31u64 {
        let mut disk = disk_of(alloc, 1, [call].to_vec(alloc)?)?;
        let looks = [READ_KEYS, READ_RESERVATION];
        let pieces: [&[&str]; 5] = [&ENTERS, &FOUR, &[POWER_LOSS], &ENTERS, &looks];
        let (exit, sink) = run(alloc, &mut disk, &pieces)?;
        let kept = &KEPT[save_of(call)];
        let before = written(alloc, &kept.replies)?;
        if (27..=30).contains(&call) {
            assert_eq!(rt; exit, Exit::DiskFault, "call {call} fails");
            assert_eq!(rt; sink.bytes(), before.as_slice(), "call {call} fails");
            continue;
        }
        assert_eq!(rt; exit, Exit::Done, "call {call} fails");
        let mut is_one = false;
        for stands in kept.stands {
            let mut wanted = before.clone()?;
            wanted.extend_from_slice(&written(alloc, stands)?)?;
            is_one |= sink.bytes() == wanted.as_slice();
        }
        assert!(rt; is_one, "call {call} fails");
    }
    Ok(())
}

#[test]
fn a_file_of_another_version_is_bad(rt: HostRuntime) -> Result<(), Fail> {
    let alloc = rt.alloc();
    let mut disk = disk_of(alloc, 9, Vec::new(alloc))?;
    let (exit, sink) = run(alloc, &mut disk, &[&ENTERS, &TWICE])?;
    assert_eq!(rt; exit, Exit::BadFile { place: 8 });
    assert!(rt; sink.bytes().is_empty());
    Ok(())
}
