//! How serving a connection ends, what was published and written by then, and how far it was read.

ghost use Rattle.std.specs.Prelude.{◌≤◌};

use super::*;
use crate::SessionEnd::{Closed, Cut, ReadFault, Rejected, WriteFault};
use crate::samples::{ACCEPTED, GOOD, LEFT, LOGIN, LOGOUT, POWERED, READY, fresh_gate, joined};
use pr_io::{MemSink, MemSource, NoBreath, Source, SureSource, read_up_to};
use std::alloc::Global;
use std::sync::Wait;
use std::test::*;

/// A whole conversation: 24, 32, 32 and 12 bytes.
const TALK: [&[u8]; 4] = [LOGIN, READY, READY, LOGOUT];

/// The replies to it: 16, 34, 16 and 12 bytes.
const ANSWERS: [&[u8]; 4] = [ACCEPTED, POWERED, GOOD, LEFT];

/// A Logout of which the last byte is missing.
const HALF: &[u8] = b"\0\0\0\x08\x03\0\0\0\0\0\0";

/// A Login of version 2, and its reply.
const NEWER: &[u8] = b"\0\0\0\x14\x01\0\0\0\0\0\0\x01\x02\0\0\x01\0\0\0\0\0\0\0\x11";

const REFUSED: &[u8] = b"\0\0\0\x0C\x81\0\0\0\0\0\0\x01\x04\0\0\0";

/// Frames that break a rule: a length of 7, a kind of the target's own, a flag, and a Logout with a
/// body.
const SHORT: &[u8] = b"\0\0\0\x07";

const FOREIGN: &[u8] = b"\0\0\0\x08\x83\0\0\0\0\0\0\x09";

const FLAGGED: &[u8] = b"\0\0\0\x08\x03\x01\0\0\0\0\0\x09";

const FILLED: &[u8] = b"\0\0\0\x09\x03\0\0\0\0\0\0\x09\0";

/// The Rejects of a frame at the first byte, for the reasons 1 and 5.
const SHORT_FIRST: &[u8] = b"\0\0\0\x14\xFF\0\0\0\0\0\0\0\x01\0\0\0\0\0\0\0\0\0\0\0";

const NO_LOGIN: &[u8] = b"\0\0\0\x14\xFF\0\0\0\0\0\0\0\x05\0\0\0\0\0\0\0\0\0\0\0";

/// Those of a frame behind a Login, for the reasons 1 to 5.
const BAD_LENGTH: &[u8] = b"\0\0\0\x14\xFF\0\0\0\0\0\0\0\x01\0\0\0\0\0\0\0\0\0\0\x18";

const BAD_KIND: &[u8] = b"\0\0\0\x14\xFF\0\0\0\0\0\0\0\x02\0\0\0\0\0\0\0\0\0\0\x18";

const BAD_FLAGS: &[u8] = b"\0\0\0\x14\xFF\0\0\0\0\0\0\0\x03\0\0\0\0\0\0\0\0\0\0\x18";

const BAD_BODY: &[u8] = b"\0\0\0\x14\xFF\0\0\0\0\0\0\0\x04\0\0\0\0\0\0\0\0\0\0\x18";

const SECOND_LOGIN: &[u8] = b"\0\0\0\x14\xFF\0\0\0\0\0\0\0\x05\0\0\0\0\0\0\0\0\0\0\x18";

/// What comes in over a connection, and what comes of it: its end, how many entries are published,
/// that of a Logout which nobody asked for included, and the replies.
type Row = (
    &'static [&'static [u8]],
    SessionEnd,
    u64,
    &'static [&'static [u8]],
);

const ROWS: [Row; 14] = [
    (&TALK, Closed, 4, &ANSWERS),
    (&[LOGIN, READY], Closed, 3, &[ACCEPTED, POWERED]),
    (&[], Closed, 0, &[]),
    (&[NEWER], Closed, 1, &[REFUSED]),
    (&[NEWER, LOGIN], Closed, 3, &[REFUSED, ACCEPTED]),
    (&[b"\0\0"], Cut { place: 0 }, 0, &[]),
    (
        &[LOGIN, READY, READY, HALF],
        Cut { place: 88 },
        4,
        &[ACCEPTED, POWERED, GOOD],
    ),
    (
        &[SHORT, LOGIN],
        Rejected {
            place: 0,
            reason: 1,
        },
        0,
        &[SHORT_FIRST],
    ),
    (
        &[READY, LOGIN],
        Rejected {
            place: 0,
            reason: 5,
        },
        0,
        &[NO_LOGIN],
    ),
    (
        &[LOGIN, SHORT],
        Rejected {
            place: 24,
            reason: 1,
        },
        2,
        &[ACCEPTED, BAD_LENGTH],
    ),
    (
        &[LOGIN, FOREIGN],
        Rejected {
            place: 24,
            reason: 2,
        },
        2,
        &[ACCEPTED, BAD_KIND],
    ),
    (
        &[LOGIN, FLAGGED],
        Rejected {
            place: 24,
            reason: 3,
        },
        2,
        &[ACCEPTED, BAD_FLAGS],
    ),
    (
        &[LOGIN, FILLED],
        Rejected {
            place: 24,
            reason: 4,
        },
        2,
        &[ACCEPTED, BAD_BODY],
    ),
    (
        &[LOGIN, LOGIN],
        Rejected {
            place: 24,
            reason: 5,
        },
        2,
        &[ACCEPTED, SECOND_LOGIN],
    ),
];

/// What came of a connection, how many of its bytes weren't read, and what another one, which logs
/// the same nexus in, then wrote, and how many entries there were in the end.
#[derive(Drop)]
struct Outcome {
    end: SessionEnd,
    entries: u64,
    sink: MemSink,
    unread: usize,
    next: MemSink,
    all: u64,
}

/// The bytes of a source that no call has given yet, 256 at the most.
fn unread<S: Source>(source: &mut S) -> Result<usize, Fail> {
    Ok(read_up_to(source, &mut [0; 256])?)
}

/// Serves a connection over a fresh target and a used session, and then the other one.
fn serve<R: Wait>(
    rt: &R,
    alloc: Global,
    mut source: MemSource,
    mut sink: MemSink,
) -> Result<Outcome, Fail> {
    let (gate, mut pass) = fresh_gate(alloc)?;
    let mut session = Session::new(alloc)?;
    session.feed(LOGIN);
    session.fresh();
    let end = serve_held(
        rt,
        &mut session,
        &gate,
        &mut pass,
        &mut source,
        &mut sink,
        &mut NoBreath,
    );
    let entries = pass.length();
    let mut other = SureSource::new(LOGIN.to_vec(alloc)?);
    let mut next = MemSink::new(alloc, Vec::new(alloc));
    serve_connection(
        alloc,
        rt,
        &gate,
        &mut pass,
        &mut other,
        &mut next,
        &mut NoBreath,
    );
    Ok(Outcome {
        end,
        entries,
        sink,
        unread: unread(&mut source)?,
        next,
        all: pass.length(),
    })
}

/// The bytes of these frames, of which a call gives so many at most.
fn source_of(
    alloc: Global,
    frames: &[&[u8]],
    most: usize,
    failing: &[u64],
) -> Result<MemSource, Fail>
    requires { 1 ≤ most }
{
    let bytes = joined(alloc, frames)?;
    Ok(MemSource::in_pieces(bytes, most, failing.to_vec(alloc)?))
}

// Whether the bytes come all at once, in sixteens or one by one, a connection ends by what they
// are, and its nexus can log in again.
#[test]
fn each_end(rt: HostRuntime) -> Result<(), Fail> {
    let alloc = rt.alloc();
    for (i, (frames, end, entries, replies)) in ROWS.iter().enumerate() {
        let sources = [
            source_of(alloc, frames, 1, &[])?,
            source_of(alloc, frames, 16, &[])?,
            source_of(alloc, frames, 256, &[])?,
        ];
        let wanted = joined(alloc, replies)?;
        for source in sources {
            let came = serve(&rt, alloc, source, MemSink::new(alloc, Vec::new(alloc)))?;
            assert_eq!(rt; came.end, *end, "row {i}");
            assert_eq!(rt; came.entries, *entries, "row {i}");
            assert_eq!(rt; came.sink.bytes(), wanted.as_slice(), "row {i}");
            assert_eq!(rt; came.next.bytes(), ACCEPTED, "row {i}");
            assert_eq!(rt; came.all, entries.saturating_add(2), "row {i}");
        }
    }
    Ok(())
}

/// Where a take or a put of the conversation fails, with sixteen bytes a take: which one fails, 0
/// for none; its end, the entries, to how many frames the replies are written, and how many bytes
/// weren't read.
const FAULTS: [(u64, u64, SessionEnd, u64, usize, usize); 13] = [
    (1, 0, ReadFault, 0, 0, 100),
    (2, 0, ReadFault, 0, 0, 84),
    (3, 0, ReadFault, 2, 1, 68),
    (4, 0, ReadFault, 2, 1, 52),
    (5, 0, ReadFault, 3, 2, 36),
    (6, 0, ReadFault, 3, 2, 20),
    (7, 0, ReadFault, 4, 3, 4),
    (0, 1, WriteFault, 2, 0, 68),
    (0, 2, WriteFault, 3, 1, 36),
    (0, 3, WriteFault, 4, 2, 4),
    (0, 4, WriteFault, 4, 3, 0),
    (0, 5, Closed, 4, 4, 0),
    (4, 2, ReadFault, 2, 1, 52),
];

#[test]
fn each_call_fails_in_turn(rt: HostRuntime) -> Result<(), Fail> {
    let alloc = rt.alloc();
    for (take, put, end, entries, replies, unread) in FAULTS {
        let source = source_of(alloc, &TALK, 16, &[take])?;
        let sink = MemSink::new(alloc, [put].to_vec(alloc)?);
        let came = serve(&rt, alloc, source, sink)?;
        let mut wanted = Vec::new(alloc);
        for reply in ANSWERS.iter().take(replies) {
            wanted.extend_from_slice(reply)?;
        }
        assert_eq!(rt; came.end, end, "take {take}, put {put}");
        assert_eq!(rt; came.entries, entries, "take {take}, put {put}");
        assert_eq!(rt;
            came.sink.bytes(),
            wanted.as_slice(),
            "take {take}, put {put}"
        );
        assert_eq!(rt; came.unread, unread, "take {take}, put {put}");
        assert_eq!(rt; came.next.bytes(), ACCEPTED, "take {take}, put {put}");
    }
    Ok(())
}

// Behind a Logout nothing more is read, and of a reply whose put fails a front may be written.
#[test]
fn no_byte_too_many(rt: HostRuntime) -> Result<(), Fail> {
    let alloc = rt.alloc();
    let frames = [LOGIN, LOGOUT, READY];
    let sources = [
        (source_of(alloc, &frames, 1, &[])?, 32),
        (source_of(alloc, &frames, 16, &[])?, 20),
        (source_of(alloc, &frames, 256, &[])?, 0),
    ];
    for (source, unread) in sources {
        let sink = MemSink::in_pieces(alloc, 5, Vec::new(alloc));
        let came = serve(&rt, alloc, source, sink)?;
        assert_eq!(rt; (came.end, came.entries, came.unread), (Closed, 2, unread));
        assert_eq!(rt;
            came.sink.bytes(),
            joined(alloc, &[ACCEPTED, LEFT])?.as_slice()
        );
    }
    let source = source_of(alloc, &TALK, 256, &[])?;
    let sink = MemSink::in_pieces(alloc, 5, [6].to_vec(alloc)?);
    let came = serve(&rt, alloc, source, sink)?;
    assert_eq!(rt; (came.end, came.entries), (WriteFault, 3));
    let wanted = joined(alloc, &[ACCEPTED, &POWERED[..5]])?;
    assert_eq!(rt; came.sink.bytes(), wanted.as_slice());
    Ok(())
}
