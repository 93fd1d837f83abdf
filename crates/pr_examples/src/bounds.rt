//! Where a run stops looking, and words that hold no word of a command.

use crate::streams::{LOGIN, LOGOUT, bytes_of, fresh_disk};
use pr_io::{MemSink, MemSource, SureMedium, read_up_to};
use pr_tool::{Exit, replay_main, replay_within, show_main};
use std::test::*;

#[test]
fn no_more_bytes_are_looked_at_than_are_asked_for(rt: HostRuntime) -> Result<(), Fail> {
    let alloc = rt.alloc();
    for (budget, schedule, wanted) in [
        (0, "", Exit::Done),
        (0, "00", Exit::TooLong),
        (8, "00010000 00010000", Exit::Done),
        (7, "00010000 00010000", Exit::TooLong),
        (4, "00010000 00010000", Exit::TooLong),
        (5, "00010000 00040000", Exit::TooLong),
        (6, "00010000 00040000", Exit::BadSchedule { place: 4 }),
    ] {
        let mut source = MemSource::new(bytes_of(alloc, &[schedule])?, Vec::new(alloc));
        let mut sink = MemSink::new(alloc, Vec::new(alloc));
        let mut medium = SureMedium::new(vec![in alloc; 0u8; 512]?);
        let mut disk = fresh_disk(alloc)?;
        let exit = replay_within(
            alloc,
            1,
            budget,
            &mut source,
            &mut sink,
            &mut medium,
            &mut disk,
        );
        assert_eq!(rt; exit, wanted, "{budget} bytes of {schedule}");
        assert!(rt; sink.bytes().is_empty());
    }
    Ok(())
}

#[test]
fn words_have_no_spaces(rt: HostRuntime) -> Result<(), Fail> {
    let alloc = rt.alloc();
    for count in ["", "1 "] {
        let mut source = MemSource::new(Vec::new(alloc), Vec::new(alloc));
        let mut sink = MemSink::new(alloc, Vec::new(alloc));
        let mut medium = SureMedium::new(vec![in alloc; 0u8; 512]?);
        let mut disk = fresh_disk(alloc)?;
        let words = ["replay", count];
        let exit = replay_main(
            alloc,
            &words,
            &mut source,
            &mut sink,
            &mut medium,
            &mut disk,
        );
        assert_eq!(rt; exit, Exit::BadWords, "{count:?}");
    }
    Ok(())
}

#[test]
fn nothing_is_read_past_a_broken_frame(rt: HostRuntime) -> Result<(), Fail> {
    let alloc = rt.alloc();
    for frame in ["00000007", "00000008 03010000 00000009"] {
        let bytes = bytes_of(alloc, &[LOGIN, frame, LOGIN, LOGOUT])?;
        let mut source = MemSource::new(bytes, Vec::new(alloc));
        let mut sink = MemSink::new(alloc, Vec::new(alloc));
        let exit = show_main(alloc, &mut source, &mut sink);
        assert_eq!(rt; exit, Exit::Done, "{frame}");
        let mut left = [0; 64];
        let count = read_up_to(&mut source, &mut left);
        assert_eq!(rt; count, Ok(36), "{frame}");
        let wanted = bytes_of(alloc, &[LOGIN, LOGOUT])?;
        assert!(rt; left.get(..36) == Some(wanted.as_slice()), "{frame}");
    }
    Ok(())
}
