use super::*;
use pr_initiator::{Initiator, LinkFault};
use pr_io::{MemSink, MemWire, ScriptPeer};
use pr_words::{Code, Key, Nexus};
use std::alloc::{AllocError, Global};
use std::test::*;

/// The name of the cluster of 300 bytes.
const LONG: &str =
    "aaaaaaaaaaaaaaaaaaaaaaaaaaaaaaaaaaaaaaaaaaaaaaaaaaaaaaaaaaaaaaaaaaaaaaaaaaaaaaaaaaaaaaaaaaaaaaaaaaaaaaaaaaaaaaaaaaaaaaaaaaaaaaaaaaaaaaaaaaaaaaaaaaaaaaaaaaaaaaaaaaaaaaaaaaaaaaaaaaaaaaaaaaaaaaaaaaaaaaaaaaaaaaaaaaaaaaaaaaaaaaaaaaaaaaaaaaaaaaaaaaaaaaaaaaaaaaaaaaaaaaaaaaaaaaaaaaaaaaaaaaaaaaaaaaaaaaaaaaaa";

// Keys by the MD5 of their clusters' names, from outside.
const KEYS: [(&str, u16, u64); 6] = [
    ("abc", 1, 0x9001_0001),
    ("abc", 9999, 0x9001_9999),
    ("abc", 1024, 0x9001_1024),
    ("a", 1, 0x0CC1_0001),
    ("Zürich", 7, 0x103A_0007),
    (LONG, 1, 0x4E54_0001),
];

#[test]
fn keys_are_those_of_the_digests(rt: HostRuntime) -> Result<(), Fail> {
    for (cluster, node, key) in KEYS {
        assert!(rt; key_for(cluster, node) == Key(key));
    }
    Ok(())
}

/// What a target replies.
#[derive(Clone, Copy, Debug)]
enum Reply {
    /// Login, with this code; the tags count from 1 again.
    Login(u8),
    /// A command, with GOOD and these data-in.
    Good(&'static [u8]),
    /// A command, with another status.
    Status(u8),
    /// A command, with CHECK CONDITION and this sense key, code and qualifier.
    Check(u8, u8, u8),
    /// Logout.
    Logout,
}

const GOOD: Reply = Reply::Good(b"");

const NONE_HELD: Reply = Reply::Good(b"\0\0\0\x01\0\0\0\0");

const HELD: Reply = Reply::Good(b"\0\0\0\x01\0\0\0\x10\0\0\0\0\x90\x01\0\x01\0\0\0\0\0\x05\0\0");

const OWN_KEY: Reply = Reply::Good(b"\0\0\0\x01\0\0\0\x08\0\0\0\0\x90\x01\0\x01");

const BOTH_KEYS: Reply = Reply::Good(
    b"\0\0\0\x01\0\0\0\x10\0\0\0\0\x90\x01\0\x01\0\0\0\0\x90\x01\0\x02",
);

const NOBODY: Reply = Reply::Good(b"\0\0\0\x01\0\0\0\0");

const OWN: Reply = Reply::Good(
    b"\0\0\0\x01\0\0\0\x30\0\0\0\0\x90\x01\0\x01\0\0\0\0\x01\x05\0\0\0\0\0\x01\0\0\0\x18\x06\0\0\0\0\0\0\0\0\0\0\x11\0\0\0\0\0\0\0\0\0\0\0\0",
);

fn put(script: &mut Vec<u8>, tag: u8, reply: Reply) -> Result<(), AllocError> {
    match reply {
        Reply::Login(code) => script.extend_from_slice(&[
            0, 0, 0, 12, 0x81, 0, 0, 0, 0, 0, 0, tag, code, 0, 0, 0,
        ]),
        Reply::Good(data) => {
            let size = ((data.len() % 256) as u8).wrapping_add(12);
            script.extend_from_slice(&[0, 0, 0, size, 0x82, 0, 0, 0, 0, 0, 0, tag, 0, 0, 0, 0])?;
            script.extend_from_slice(data)
        }
        Reply::Status(status) => script.extend_from_slice(&[
            0, 0, 0, 12, 0x82, 0, 0, 0, 0, 0, 0, tag, status, 0, 0, 0,
        ]),
        Reply::Check(key, asc, ascq) => {
            script.extend_from_slice(&[0, 0, 0, 30, 0x82, 0, 0, 0, 0, 0, 0, tag, 2, 18, 0, 0])?;
            script.extend_from_slice(&[
                0x70, 0, key, 0, 0, 0, 0, 10, 0, 0, 0, 0, asc, ascq, 0, 0, 0, 0,
            ])
        }
        Reply::Logout => script.extend_from_slice(&[0, 0, 0, 8, 0x83, 0, 0, 0, 0, 0, 0, tag]),
    }
}

/// The bytes of replies, on connections that begin with a Login each.
fn script_of(alloc: Global, replies: &[Reply]) -> Result<Vec<u8>, AllocError> {
    let mut script = Vec::new(alloc);
    let mut tag = 0u8;
    for reply in replies {
        tag = tag.wrapping_add(1);
        if let Reply::Login(_) = reply {
            tag = 1;
        }
        put(&mut script, tag, *reply)?;
    }
    Ok(script)
}

/// A wire to one target for each script, at the addresses x and y.
fn wire_of(alloc: Global, scripts: [&[Reply]; 2]) -> Result<MemWire<ScriptPeer>, AllocError> {
    let [x, y] = scripts;
    let mut devices = Vec::new(alloc);
    devices.push((
        String::from_str(alloc, "x")?,
        ScriptPeer::new(script_of(alloc, x)?, 7),
    ))?;
    devices.push((
        String::from_str(alloc, "y")?,
        ScriptPeer::new(script_of(alloc, y)?, 7),
    ))?;
    Ok(MemWire::new(alloc, devices, Vec::new(alloc)))
}

/// A run over two targets, how it ends, and what it prints.
struct Case {
    words: &'static [&'static str],
    x: &'static [Reply],
    y: &'static [Reply],
    exit: FenceExit,
    text: &'static [u8],
}

const LOGIN: Reply = Reply::Login(0);

const ON: [&str; 9] = [
    "fence",
    "on",
    "--cluster",
    "abc",
    "--node",
    "1",
    "--name",
    "11",
    "x",
];

const OFF: [&str; 11] = [
    "fence",
    "off",
    "--cluster",
    "abc",
    "--node",
    "1",
    "--name",
    "11",
    "--plug",
    "2",
    "x",
];

const OFF_BOTH: [&str; 13] = [
    "fence",
    "off",
    "--cluster",
    "abc",
    "--node",
    "1",
    "--name",
    "0x11",
    "--plug",
    "2",
    "--aptpl",
    "x",
    "y",
];

const STATUS_BOTH: [&str; 12] = [
    "fence",
    "status",
    "--cluster",
    "abc",
    "--node",
    "1",
    "--name",
    "11",
    "--plug",
    "2",
    "x",
    "y",
];

const ITSELF: [&str; 11] = [
    "fence",
    "off",
    "--cluster",
    "abc",
    "--node",
    "1",
    "--name",
    "11",
    "--plug",
    "1",
    "x",
];

const ABSENT: [Reply; 6] = [LOGIN, GOOD, OWN, HELD, OWN_KEY, Reply::Logout];

const REMOVED: [Reply; 8] = [
    LOGIN,
    GOOD,
    VICTIM,
    GOOD,
    HELD,
    GOOD,
    OWN_KEY,
    Reply::Logout,
];

const VICTIM: Reply = Reply::Good(
    b"\0\0\0\x01\0\0\0\x30\0\0\0\0\x90\x01\0\x02\0\0\0\0\x01\x05\0\0\0\0\0\x01\0\0\0\x18\x06\0\0\0\0\0\0\0\0\0\0\x12\0\0\0\0\0\0\0\0\0\0\0\0",
);

const CASES: [Case; 12] = [
    Case {
        words: &ON,
        x: &[LOGIN, GOOD, GOOD, NONE_HELD, GOOD, Reply::Logout],
        y: &[],
        exit: FenceExit::Done,
        text: b"on x\n",
    },
    Case {
        words: &ON,
        x: &[
            LOGIN,
            Reply::Check(6, 0x29, 0),
            GOOD,
            GOOD,
            HELD,
            Reply::Logout,
        ],
        y: &[],
        exit: FenceExit::Done,
        text: b"on x\n",
    },
    Case {
        words: &OFF,
        x: &ABSENT,
        y: &[],
        exit: FenceExit::Done,
        text: b"off x absent\n",
    },
    Case {
        words: &OFF_BOTH,
        x: &REMOVED,
        y: &ABSENT,
        exit: FenceExit::Done,
        text: b"off x removed\noff y absent\n",
    },
    Case {
        words: &OFF,
        x: &[LOGIN, GOOD, OWN, HELD, BOTH_KEYS, Reply::Logout],
        y: &[],
        exit: FenceExit::StillThere { device: 0 },
        text: b"",
    },
    Case {
        words: &OFF_BOTH,
        x: &ABSENT,
        y: &[LOGIN, GOOD, VICTIM, GOOD, HELD, GOOD, BOTH_KEYS],
        exit: FenceExit::StillThere { device: 1 },
        text: b"off x absent\n",
    },
    Case {
        words: &STATUS_BOTH,
        x: &[LOGIN, GOOD, BOTH_KEYS, Reply::Logout],
        y: &[LOGIN, GOOD, OWN_KEY, Reply::Logout],
        exit: FenceExit::Present,
        text: b"status x present\nstatus y absent\n",
    },
    Case {
        words: &STATUS_BOTH,
        x: &[LOGIN, GOOD, NOBODY, Reply::Logout],
        y: &[LOGIN, GOOD, OWN_KEY, Reply::Logout],
        exit: FenceExit::Absent,
        text: b"status x absent\nstatus y absent\n",
    },
    Case {
        words: &ITSELF,
        x: &[],
        y: &[],
        exit: FenceExit::SelfFence,
        text: b"",
    },
    Case {
        words: &["fence"],
        x: &[],
        y: &[],
        exit: FenceExit::BadWords,
        text: b"",
    },
    Case {
        words: &OFF_BOTH,
        x: &ABSENT,
        y: &[LOGIN, GOOD, VICTIM, GOOD, HELD, Reply::Status(0x18)],
        exit: FenceExit::Conflict {
            device: 1,
            asked: Asked::Removal,
        },
        text: b"off x absent\n",
    },
    Case {
        words: &OFF_BOTH,
        x: &REMOVED,
        y: &[Reply::Login(3)],
        exit: FenceExit::Link {
            device: 1,
            asked: Asked::Login,
            fault: LinkFault::Refused { code: 3 },
        },
        text: b"off x removed\n",
    },
];

#[test]
fn runs_end_as_the_targets_reply(rt: HostRuntime) -> Result<(), Fail> {
    let alloc = rt.alloc();
    for case in &CASES {
        let mut wire = wire_of(alloc, [case.x, case.y])?;
        let mut sink = MemSink::new(alloc, Vec::new(alloc));
        let exit = fence_main(alloc, case.words, &mut wire, &mut sink);
        assert!(rt; exit == case.exit);
        assert!(rt; sink.bytes() == case.text);
    }
    Ok(())
}

/// What the asked are, reply by reply, where all of a victim's removal is needed.
const ASKED: [Asked; 10] = [
    Asked::Login,
    Asked::Readiness,
    Asked::FullStatus,
    Asked::Registration,
    Asked::Reservation,
    Asked::Reserve,
    Asked::Removal,
    Asked::Keys,
    Asked::Logout,
    Asked::Logout,
];

const WHOLE: [Reply; 9] = [
    LOGIN,
    GOOD,
    VICTIM,
    GOOD,
    NONE_HELD,
    GOOD,
    GOOD,
    OWN_KEY,
    Reply::Logout,
];

// Each command's reply broken in turn ends the run there.
#[test]
fn each_odd_reply_ends_the_run(rt: HostRuntime) -> Result<(), Fail> {
    let alloc = rt.alloc();
    for broken in 1..8 {
        let mut replies = WHOLE;
        replies[broken] = Reply::Check(5, 0x24, 0);
        let mut wire = wire_of(alloc, [&replies, &[]])?;
        let mut sink = MemSink::new(alloc, Vec::new(alloc));
        let exit = fence_main(alloc, &OFF, &mut wire, &mut sink);
        let wanted = FenceExit::Check {
            device: 0,
            asked: ASKED[broken],
            code: Code {
                key: 5,
                asc: 0x24,
                ascq: 0,
            },
        };
        assert!(rt; exit == wanted);
        assert!(rt; sink.bytes().is_empty());
    }
    Ok(())
}

// A target that ends the connection in place of each reply ends the run there.
#[test]
fn each_missing_reply_ends_the_run(rt: HostRuntime) -> Result<(), Fail> {
    let alloc = rt.alloc();
    for broken in 0..9 {
        let mut wire = wire_of(alloc, [&WHOLE[..broken], &[]])?;
        let mut sink = MemSink::new(alloc, Vec::new(alloc));
        match fence_main(alloc, &OFF, &mut wire, &mut sink) {
            FenceExit::Link { device, asked, .. } => {
                assert!(rt; device == 0 && asked == ASKED[broken]);
            }
            _ => assert!(rt; false),
        }
        assert!(rt; sink.bytes().is_empty());
    }
    Ok(())
}

/// The bytes of a whole removal's replies, of which the one behind these has a kind that no target
/// sends, and its place.
fn script_with_odd_kind(alloc: Global, before: &[Reply]) -> Result<(Vec<u8>, usize), AllocError> {
    let mut script = script_of(alloc, &WHOLE)?;
    let place = script_of(alloc, before)?.len();
    if let Some(kind) = script.get_mut(place.saturating_add(4)) {
        *kind = 0x80;
    }
    Ok((script, place))
}

// Each reply's frame broken in turn ends the run there.
#[test]
fn each_odd_frame_ends_the_run(rt: HostRuntime) -> Result<(), Fail> {
    let alloc = rt.alloc();
    for broken in 0..9 {
        let (script, place) = script_with_odd_kind(alloc, &WHOLE[..broken])?;
        let mut devices = Vec::new(alloc);
        devices.push((String::from_str(alloc, "x")?, ScriptPeer::new(script, 7)))?;
        let mut wire = MemWire::new(alloc, devices, Vec::new(alloc));
        let mut sink = MemSink::new(alloc, Vec::new(alloc));
        let exit = fence_main(alloc, &OFF, &mut wire, &mut sink);
        let wanted = FenceExit::Link {
            device: 0,
            asked: ASKED[broken],
            fault: LinkFault::BadReply {
                place: place as u64,
                reason: 2,
            },
        };
        assert!(rt; exit == wanted);
        assert!(rt; sink.bytes().is_empty());
    }
    Ok(())
}

const NEXUS: Nexus = Nexus {
    name: 0x11,
    port: 1,
};

// The three calls for one device.
#[test]
fn devices_are_served_one_by_one(rt: HostRuntime) -> Result<(), Fail> {
    let alloc = rt.alloc();
    let (own, victim) = (key_for("abc", 1), key_for("abc", 2));
    let Ok(mut initiator) = Initiator::new(alloc, wire_of(alloc, [&REMOVED, &ABSENT])?) else {
        return Ok(());
    };
    assert!(rt; off_device(&mut initiator, "x", NEXUS, own, victim, false) == Ok(true));
    assert!(rt; off_device(&mut initiator, "y", NEXUS, own, victim, false) == Ok(false));
    let down = LinkFault::Down;
    let asked = Asked::Connection;
    assert!(rt;
        status_device(&mut initiator, "z", NEXUS, own)
            == Err(FenceFault::Link { asked, fault: down })
    );
    assert!(rt;
        on_device(&mut initiator, "z", NEXUS, own, true)
            == Err(FenceFault::Link { asked, fault: down })
    );
    Ok(())
}

/// Words that make no command, and what the user is told of them.
const WRONG: [(&[&str], &str); 7] = [
    (&["fence"], "on, off or status is needed behind fence"),
    (
        &["fence", "in", "x"],
        "on, off or status is needed behind fence",
    ),
    (
        &["fence", "on", "--node", "1", "--cluster", "abc", "x"],
        "--cluster and the cluster's name are needed behind the verb",
    ),
    (
        &["fence", "on", "--cluster", "abc", "--node", "10000", "x"],
        "--node takes a number from 1 to 9999",
    ),
    (
        &[
            "fence",
            "on",
            "--cluster",
            "abc",
            "--node",
            "1",
            "--name",
            "0X1",
            "x",
        ],
        "--name takes a number of 1 to 16 hexadecimal digits",
    ),
    (
        &[
            "fence",
            "off",
            "--cluster",
            "abc",
            "--node",
            "1",
            "--name",
            "1",
            "x",
        ],
        "--plug and a node from 1 to 9999 are needed behind --name and its value",
    ),
    (
        &[
            "fence",
            "on",
            "--cluster",
            "abc",
            "--node",
            "1",
            "--name",
            "1",
            "--aptpl",
        ],
        "1 to 64 addresses are needed at the end",
    ),
];

/// Whether the user is told this of a run of these words.
fn is_told(
    alloc: Global,
    words: &[&str],
    exit: FenceExit,
    wanted: &str,
) -> Result<bool, AllocError> {
    match explain(alloc, words, exit)? {
        Some(line) => Ok(line.as_str() == wanted),
        None => Ok(false),
    }
}

#[test]
fn wrong_words_are_told(rt: HostRuntime) -> Result<(), Fail> {
    let alloc = rt.alloc();
    for (words, line) in WRONG {
        let mut wire = wire_of(alloc, [&[], &[]])?;
        let mut sink = MemSink::new(alloc, Vec::new(alloc));
        let exit = fence_main(alloc, words, &mut wire, &mut sink);
        assert!(rt; exit == FenceExit::BadWords);
        assert!(rt; is_told(alloc, words, exit, line)?);
    }
    Ok(())
}

#[test]
fn faults_name_the_address(rt: HostRuntime) -> Result<(), Fail> {
    let alloc = rt.alloc();
    let exit = FenceExit::Conflict {
        device: 1,
        asked: Asked::Removal,
    };
    let line = "y: PREEMPT AND ABORT: the target answered RESERVATION CONFLICT";
    assert!(rt; is_told(alloc, &OFF_BOTH, exit, line)?);
    let still = FenceExit::StillThere { device: 0 };
    assert!(rt; is_told(alloc, &OFF_BOTH, still, "x: the key is registered still")?);
    assert!(rt; explain(alloc, &OFF_BOTH, FenceExit::Done)?.is_none());
    Ok(())
}
