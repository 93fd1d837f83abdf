ghost use Rattle.std.specs.Prelude.{◌≡◌, ◌<◌, vec_len};
ghost use Rattle.pr_words.specs.declared.limits.TheConstants.{HELD};

use super::*;
use pr_words::{HELD, Nexus};
use std::alloc::{AllocError, Global};
use std::test::*;

// A deframer with its caller's buffer.
#[derive(Drop)]
struct Reader {
    deframer: Deframer,
    buf: Vec<u8>,
    ghost room: { vec_len buf ≡ HELD },
}

impl Reader {
    fn new(alloc: Global, side: Side) -> Result<Reader, AllocError> {
        Ok(Reader {
            deframer: Deframer::new(alloc, side)?,
            buf: vec![in alloc; 0u8; HELD]?,
        })
    }

    fn feed(&mut self, bytes: &[u8]) -> usize {
        self.deframer.feed(bytes)
    }

    fn next(&mut self) -> Got {
        self.deframer.next(&mut self.buf)
    }
}

// The frames that are given, up to a broken rule, where the bytes arrive in pieces of one length.
fn answers(alloc: Global, side: Side, bytes: &[u8], piece: usize) -> Result<Vec<Got>, AllocError>
    requires { 0 < piece }
{
    let mut found = Vec::new(alloc);
    let mut reader = Reader::new(alloc, side)?;
    for part in bytes.chunks(piece) {
        reader.feed(part);
        for _ in 0..2 {
            match reader.next() {
                Got::Need(_) => break,
                Got::Frame(frame) => found.push(Got::Frame(frame))?,
                bad => {
                    found.push(bad)?;
                    return Ok(found);
                }
            }
        }
    }
    Ok(found)
}

// Bytes from outside: the side that receives them, the head, the body, and what they mean.
#[test]
fn known_frames_are_read_and_written(rt: HostRuntime) -> Result<(), Fail> {
    let alloc = rt.alloc();
    for (side, head, body, kind, lun, tag) in [
        (
            Side::Target,
            b"\x00\x00\x00\x14\x01\x00\x00\x00\x00\x00\x00\x01",
            b"\x01\x00\x00\x01\x00\x00\x00\x00\x00\x00\x00\x11".as_slice(),
            0x01,
            0,
            1,
        ),
        (
            Side::Target,
            b"\x00\x00\x00\x1c\x02\x00\x00\x03\x00\x00\x00\x02",
            b"\x0a\x00\x00\x00\x5f\x01\x05\x00\x00\x00\x00\x00\x18\x00\x00\x00\x00\x00\x00\x00".as_slice(),
            0x02,
            3,
            2,
        ),
        (
            Side::Target,
            b"\x00\x00\x00\x08\x03\x00\x00\x00\x00\x00\x00\x09",
            b"".as_slice(),
            0x03,
            0,
            9,
        ),
        (
            Side::Initiator,
            b"\x00\x00\x00\x0c\x81\x00\x00\x00\x00\x00\x00\x00",
            b"\x05\x00\x00\x00".as_slice(),
            0x81,
            0,
            0,
        ),
        (
            Side::Initiator,
            b"\x00\x00\x00\x0c\x82\x00\x00\x00\x00\x00\x00\x07",
            b"\x18\x00\x00\x00".as_slice(),
            0x82,
            0,
            7,
        ),
        (
            Side::Initiator,
            b"\x00\x00\x00\x0c\x82\x00\x00\x00\x00\x00\x00\x08",
            b"\x40\x00\x00\x00".as_slice(),
            0x82,
            0,
            8,
        ),
        (
            Side::Initiator,
            b"\x00\x00\x00\x1e\x82\x00\x00\x00\x00\x00\x00\x05",
            b"\x02\x12\x00\x00\x70\x00\x05\x00\x00\x00\x00\x0a\x00\x00\x00\x00\x24\x00\x00\x00\x00\x00".as_slice(),
            0x82,
            0,
            5,
        ),
        (
            Side::Initiator,
            b"\x00\x00\x00\x08\x83\x00\x00\x00\x00\x00\x00\x09",
            b"".as_slice(),
            0x83,
            0,
            9,
        ),
        (
            Side::Initiator,
            b"\x00\x00\x00\x14\xff\x00\x00\x00\x00\x00\x00\x00",
            b"\x04\x00\x00\x00\x00\x00\x00\x00\x00\x00\x00\x18".as_slice(),
            0xff,
            0,
            0,
        ),
    ] {
        let mut reader = Reader::new(alloc, side)?;
        reader.feed(head);
        reader.feed(body);
        let frame = Frame {
            kind,
            lun,
            tag,
            body: body.len(),
        };
        assert_eq!(rt; reader.next(), Got::Frame(frame));
        assert!(rt; reader.buf.starts_with(body));
        assert_eq!(rt; reader.next(), Got::Need(4));
        let mut written = [0; 12];
        if frame.body <= 100 {
            write_frame(&frame, &mut written);
        }
        assert_eq!(rt; &written, head);
    }
    Ok(())
}

#[test]
fn known_bodies_are_written(rt: HostRuntime) {
    let mut login = [0; 12];
    write_login(
        1,
        Nexus {
            name: 0x11,
            port: 1,
        },
        &mut login,
    );
    assert_eq!(rt; &login, b"\x01\x00\x00\x01\x00\x00\x00\x00\x00\x00\x00\x11");
    let mut command = [0; 20];
    write_command(b"\x5f\x01\x05\x00\x00\x00\x00\x00\x18\x00", &mut command);
    assert_eq!(rt;
        &command,
        b"\x0a\x00\x00\x00\x5f\x01\x05\x00\x00\x00\x00\x00\x18\x00\x00\x00\x00\x00\x00\x00"
    );
}

fn broken_requests() -> [(u8, &'static [u8]); 18] {
    [
        (1, b"\x00\x00\x00\x07".as_slice()),
        (1, b"\x00\x08\x00\x1d".as_slice()),
        (
            2,
            b"\x00\x00\x00\x08\x04\x00\x00\x00\x00\x00\x00\x09".as_slice(),
        ),
        (
            2,
            b"\x00\x00\x00\x08\x81\x01\x00\x00\x00\x00\x00\x09".as_slice(),
        ),
        (
            3,
            b"\x00\x00\x00\x08\x03\x01\x00\x00\x00\x00\x00\x09".as_slice(),
        ),
        (
            3,
            b"\x00\x00\x00\x09\x03\x80\x00\x00\x00\x00\x00\x09\x00".as_slice(),
        ),
        (
            4,
            b"\x00\x00\x00\x09\x03\x00\x00\x00\x00\x00\x00\x09\x00".as_slice(),
        ),
        (
            4,
            b"\x00\x00\x00\x14\x01\x00\x00\x00\x00\x00\x00\x01\x01\x01\x00\x01\x00\x00\x00\x00\x00\x00\x00\x11".as_slice(),
        ),
        (
            4,
            b"\x00\x00\x00\x13\x01\x00\x00\x00\x00\x00\x00\x01\x01\x00\x00\x01\x00\x00\x00\x00\x00\x00\x00".as_slice(),
        ),
        (
            4,
            b"\x00\x00\x00\x1c\x02\x00\x00\x00\x00\x00\x00\x02\x00\x00\x00\x00\x00\x00\x00\x00\x00\x00\x00\x00\x00\x00\x00\x00\x00\x00\x00\x00".as_slice(),
        ),
        (
            4,
            b"\x00\x00\x00\x1c\x02\x00\x00\x00\x00\x00\x00\x02\x11\x00\x00\x00\x00\x00\x00\x00\x00\x00\x00\x00\x00\x00\x00\x00\x00\x00\x00\x00".as_slice(),
        ),
        (
            4,
            b"\x00\x00\x00\x1c\x02\x00\x00\x00\x00\x00\x00\x02\x06\x00\x01\x00\x00\x00\x00\x00\x00\x00\x00\x00\x00\x00\x00\x00\x00\x00\x00\x00".as_slice(),
        ),
        (
            4,
            b"\x00\x00\x00\x1c\x02\x00\x00\x00\x00\x00\x00\x02\x06\x00\x00\x00\x00\x00\x00\x00\x00\x00\x01\x00\x00\x00\x00\x00\x00\x00\x00\x00".as_slice(),
        ),
        (
            4,
            b"\x00\x00\x00\x1b\x02\x00\x00\x00\x00\x00\x00\x02\x06\x00\x00\x00\x00\x00\x00\x00\x00\x00\x00\x00\x00\x00\x00\x00\x00\x00\x00".as_slice(),
        ),
        (
            2,
            b"\x00\x00\x00\x08\xff\x00\x00\x00\x00\x00\x00\x09".as_slice(),
        ),
        (
            2,
            b"\x00\x00\x00\x08\x82\x00\x00\x00\x00\x00\x00\x09".as_slice(),
        ),
        (
            2,
            b"\x00\x00\x00\x08\x04\x00\x00\x00\x00\x00\x00\x09".as_slice(),
        ),
        (
            2,
            b"\x00\x00\x00\x08\x00\x00\x00\x00\x00\x00\x00\x09".as_slice(),
        ),
    ]
}

fn broken_replies() -> [(u8, &'static [u8]); 18] {
    [
        (1, b"\x00\x00\x00\x00".as_slice()),
        (1, b"\xff\xff\xff\xff".as_slice()),
        (
            2,
            b"\x00\x00\x00\x08\x03\x00\x00\x00\x00\x00\x00\x09".as_slice(),
        ),
        (
            2,
            b"\x00\x00\x00\x08\xfe\x01\x00\x00\x00\x00\x00\x09".as_slice(),
        ),
        (
            3,
            b"\x00\x00\x00\x08\x83\x01\x00\x00\x00\x00\x00\x09".as_slice(),
        ),
        (
            3,
            b"\x00\x00\x00\x09\x83\x01\x00\x00\x00\x00\x00\x09\x00".as_slice(),
        ),
        (
            4,
            b"\x00\x00\x00\x09\x83\x00\x00\x00\x00\x00\x00\x09\x00".as_slice(),
        ),
        (
            4,
            b"\x00\x00\x00\x0c\x81\x00\x00\x00\x00\x00\x00\x00\x05\x00\x00\x01".as_slice(),
        ),
        (
            4,
            b"\x00\x00\x00\x0d\x81\x00\x00\x00\x00\x00\x00\x00\x05\x00\x00\x00\x00".as_slice(),
        ),
        (
            4,
            b"\x00\x00\x00\x0b\x82\x00\x00\x00\x00\x00\x00\x05\x00\x00\x00".as_slice(),
        ),
        (
            4,
            b"\x00\x00\x00\x0c\x82\x00\x00\x00\x00\x00\x00\x05\x00\x00\x01\x00".as_slice(),
        ),
        (
            4,
            b"\x00\x00\x00\x0c\x82\x00\x00\x00\x00\x00\x00\x05\x02\x00\x00\x00".as_slice(),
        ),
        (
            4,
            b"\x00\x00\x00\x0c\x82\x00\x00\x00\x00\x00\x00\x05\x02\x12\x00\x00".as_slice(),
        ),
        (
            4,
            b"\x00\x00\x00\x1e\x82\x00\x00\x00\x00\x00\x00\x05\x00\x12\x00\x00\x70\x00\x05\x00\x00\x00\x00\x0a\x00\x00\x00\x00\x24\x00\x00\x00\x00\x00".as_slice(),
        ),
        (
            4,
            b"\x00\x00\x00\x0d\x82\x00\x00\x00\x00\x00\x00\x07\x18\x00\x00\x00\x00".as_slice(),
        ),
        (
            4,
            b"\x00\x00\x00\x1e\x82\x00\x00\x00\x00\x00\x00\x07\x18\x12\x00\x00\x70\x00\x05\x00\x00\x00\x00\x0a\x00\x00\x00\x00\x24\x00\x00\x00\x00\x00".as_slice(),
        ),
        (
            4,
            b"\x00\x00\x00\x14\xff\x00\x00\x00\x00\x00\x00\x00\x04\x00\x00\x01\x00\x00\x00\x00\x00\x00\x00\x18".as_slice(),
        ),
        (
            4,
            b"\x00\x00\x00\x13\xff\x00\x00\x00\x00\x00\x00\x00\x04\x00\x00\x00\x00\x00\x00\x00\x00\x00\x18".as_slice(),
        ),
    ]
}

fn cases(side: Side) -> [(u8, &'static [u8]); 18] {
    match side {
        Side::Target => broken_requests(),
        Side::Initiator => broken_replies(),
    }
}

// A frame that breaks a rule, alone and behind a good one, at once and byte by byte.
#[test]
fn broken_frames_are_told_by_place_and_reason(rt: HostRuntime) -> Result<(), Fail> {
    let alloc = rt.alloc();
    let good = [
        (
            Side::Target,
            b"\x00\x00\x00\x08\x03\x00\x00\x00\x00\x00\x00\x09",
            Got::Frame(Frame {
                kind: 0x03,
                lun: 0,
                tag: 9,
                body: 0,
            }),
        ),
        (
            Side::Initiator,
            b"\x00\x00\x00\x08\x83\x00\x00\x00\x00\x00\x00\x09",
            Got::Frame(Frame {
                kind: 0x83,
                lun: 0,
                tag: 9,
                body: 0,
            }),
        ),
    ];
    for (side, first, frame) in good {
        for (reason, bytes) in cases(side) {
            for piece in [1, 1000] {
                let alone = answers(alloc, side, bytes, piece)?;
                assert_eq!(rt;
                    alone.as_slice(),
                    [Got::Bad { place: 0, reason }].as_slice()
                );
                let mut both = first.to_vec(alloc)?;
                both.extend_from_slice(bytes)?;
                let second = answers(alloc, side, &both, piece)?;
                assert_eq!(rt;
                    second.as_slice(),
                    [frame, Got::Bad { place: 12, reason }].as_slice()
                );
            }
        }
    }
    Ok(())
}
