ghost use Rattle.std.specs.Prelude.{◌≤◌, length};

use crate::tests::listed::Listed;
use crate::{
    Capabilities, FullEntry, Held, Registrants, ReplyFault, read_capabilities, read_full,
    read_keys, read_reservation, write_capabilities, write_full, write_keys, write_reservation,
};
use pr_words::{Key, Kind, Nexus, Pair, Reservation};
use std::alloc::{AllocError, Global};
use std::test::Fail;

#[derive(Clone, Copy)]
enum Reply {
    Keys,
    Reservation,
    Capabilities,
    Full,
}

/// The descriptor of name 11h on port 1 with key 90010001h, the holder of type 5h.
const DESCRIPTOR: &[u8; 48] =
    b"\0\0\0\0\x90\x01\0\x01\0\0\0\0\x01\x05\0\0\0\0\0\x01\0\0\0\x18\x06\0\0\0\0\0\0\0\0\0\0\x11\0\0\0\0\0\0\0\0\0\0\0\0";

fn nexus(name: u64) -> Nexus {
    Nexus { name, port: 1 }
}

/// Registrants with names from 11h on, port 1, and keys from 90010001h on.
fn listed(alloc: Global, count: u64, reservation: Reservation) -> Result<Listed, AllocError> {
    let mut listed = Listed::new(alloc, reservation, false);
    for i in 0..count.min(64) {
        listed.push(Pair {
            nexus: nexus(0x11 + i),
            key: Key(0x90010001 + i),
        })?;
    }
    Ok(listed)
}

fn write(reply: Reply, from: &Listed, allocation: usize, out: &mut [u8]) -> usize
    requires { allocation ≤ length out.old }
{
    match reply {
        Reply::Keys => write_keys(from, allocation, out),
        Reply::Reservation => write_reservation(from, allocation, out),
        Reply::Capabilities => write_capabilities(from, allocation, out),
        Reply::Full => write_full(from, allocation, out),
    }
}

/// Whether a reply is these bytes, whole and cut, and leaves what stands behind it.
fn is_written(reply: Reply, from: &Listed, whole: &[u8]) -> bool {
    for allocation in [0, 1, 7, 8, 9, 20, 24, 57, 3000, 3200] {
        let mut out = [0xAA; 3200];
        let len = write(reply, from, allocation, &mut out);
        if len != allocation.min(whole.len()) || len > 3200 || len > whole.len() {
            return false;
        }
        if out[..len] != whole[..len] || out[len..].iter().any(|b| *b != 0xAA) {
            return false;
        }
    }
    true
}

#[test]
fn the_count_is_that_of_what_was_pushed(rt: HostRuntime) -> Result<(), Fail> {
    for count in [0, 1, 2, 64] {
        let from = listed(rt.alloc(), count, Reservation::Free)?;
        assert!(rt; from.count() as u64 == count);
    }
    Ok(())
}

#[test]
fn keys_are_written(rt: HostRuntime) -> Result<(), Fail> {
    let none = listed(rt.alloc(), 0, Reservation::Free)?;
    assert!(rt; is_written(Reply::Keys, &none, b"\x01\x02\x03\x04\0\0\0\0"));
    let one = listed(rt.alloc(), 1, Reservation::Free)?;
    assert!(rt;
        is_written(
            Reply::Keys,
            &one,
            b"\x01\x02\x03\x04\0\0\0\x08\0\0\0\0\x90\x01\0\x01"
        )
    );
    let full = listed(rt.alloc(), 64, Reservation::Free)?;
    let mut want = [0; 520];
    want[..8].copy_from_slice(b"\x01\x02\x03\x04\0\0\x02\0");
    for i in 0..64 {
        want[8 + 8 * i..16 + 8 * i].copy_from_slice(b"\0\0\0\0\x90\x01\0\0");
        want[15 + 8 * i] = 1 + i as u8;
    }
    assert!(rt; is_written(Reply::Keys, &full, &want));
    Ok(())
}

#[test]
fn reservations_are_written(rt: HostRuntime) -> Result<(), Fail> {
    let free = listed(rt.alloc(), 2, Reservation::Free)?;
    assert!(rt; is_written(Reply::Reservation, &free, b"\x01\x02\x03\x04\0\0\0\0"));
    let second = Reservation::OfOne {
        kind: Kind::WriteRegistrants,
        holder: nexus(0x12),
    };
    let one = listed(rt.alloc(), 64, second)?;
    let want = b"\x01\x02\x03\x04\0\0\0\x10\0\0\0\0\x90\x01\0\x02\0\0\0\0\0\x05\0\0";
    assert!(rt; is_written(Reply::Reservation, &one, want));
    let all = listed(
        rt.alloc(),
        1,
        Reservation::OfAll {
            kind: Kind::WriteAll,
        },
    )?;
    let want = b"\x01\x02\x03\x04\0\0\0\x10\0\0\0\0\0\0\0\0\0\0\0\0\0\x07\0\0";
    assert!(rt; is_written(Reply::Reservation, &all, want));
    Ok(())
}

#[test]
fn capabilities_are_written(rt: HostRuntime) -> Result<(), Fail> {
    let from = listed(rt.alloc(), 0, Reservation::Free)?;
    assert!(rt; is_written(Reply::Capabilities, &from, b"\0\x08\x01\x80\xEA\x01\0\0"));
    let from = Listed::new(rt.alloc(), Reservation::Free, true);
    assert!(rt; is_written(Reply::Capabilities, &from, b"\0\x08\x01\x81\xEA\x01\0\0"));
    let full = listed(rt.alloc(), 64, Reservation::Free)?;
    assert!(rt; is_written(Reply::Capabilities, &full, b"\0\x08\x01\x80\xEA\x01\0\0"));
    Ok(())
}

/// The data of READ FULL STATUS of 64 registrants, of which the first holds, or each.
fn full_status(all: bool) -> [u8; 3080] {
    let mut want = [0; 3080];
    want[..8].copy_from_slice(b"\x01\x02\x03\x04\0\0\x0C\0");
    for i in 0..64 {
        let place = 8 + 48 * i;
        want[place..place + 48].copy_from_slice(DESCRIPTOR);
        want[place + 7] = 1 + i as u8;
        want[place + 35] = 0x11 + i as u8;
        if i > 0 && !all {
            want[place + 12] = 0;
            want[place + 13] = 0;
        }
        if all {
            want[place + 13] = 8;
        }
    }
    want
}

#[test]
fn full_status_is_written(rt: HostRuntime) -> Result<(), Fail> {
    let none = listed(rt.alloc(), 0, Reservation::Free)?;
    assert!(rt; is_written(Reply::Full, &none, b"\x01\x02\x03\x04\0\0\0\0"));
    let first = Reservation::OfOne {
        kind: Kind::WriteRegistrants,
        holder: nexus(0x11),
    };
    let mut want = [0; 56];
    want[..8].copy_from_slice(b"\x01\x02\x03\x04\0\0\0\x30");
    want[8..].copy_from_slice(DESCRIPTOR);
    assert!(rt; is_written(Reply::Full, &listed(rt.alloc(), 1, first)?, &want));
    assert!(rt;
        is_written(
            Reply::Full,
            &listed(rt.alloc(), 64, first)?,
            &full_status(false)
        )
    );
    let all = Reservation::OfAll {
        kind: Kind::ExclusiveAll,
    };
    assert!(rt;
        is_written(
            Reply::Full,
            &listed(rt.alloc(), 64, all)?,
            &full_status(true)
        )
    );
    Ok(())
}

fn fault_of_keys(bytes: &[u8]) -> Option<ReplyFault> {
    read_keys(bytes).err()
}

/// The fault of the first `n` bytes.
fn fault_of_full(bytes: &[u8; 3080], n: usize) -> Option<ReplyFault> {
    if n > 3080 {
        return None;
    }
    read_full(&bytes[..n]).err()
}

#[test]
fn keys_are_read(rt: HostRuntime) {
    let bytes = b"\0\0\0\x02\0\0\0\x10\0\0\0\0\x90\x01\0\x01\x01\x02\x03\x04\x05\x06\x07\x08\xFF";
    match read_keys(bytes) {
        Ok(keys) => {
            assert!(rt; keys.generation() == 2);
            assert!(rt; keys.count() == 2);
            if keys.count() == 2 {
                assert!(rt; keys.key(0) == Key(0x90010001));
                assert!(rt; keys.key(1) == Key(0x0102030405060708));
            }
        }
        Err(_) => assert!(rt; false),
    }
    for n in 0..24 {
        assert!(rt; fault_of_keys(&bytes[..n]) == Some(ReplyFault::Cut { place: n }));
    }
    let odd = Some(ReplyFault::BadLength { place: 4, value: 9 });
    assert!(rt; fault_of_keys(b"\0\0\0\x02\0\0\0\x09") == odd);
}

#[test]
fn reservations_are_read(rt: HostRuntime) {
    let bytes = b"\0\0\0\x02\0\0\0\x10\0\0\0\0\x90\x01\0\x01\xFF\xFF\xFF\xFF\xFF\x15\xFF\xFF\xFF";
    let held = Some((Key(0x90010001), 0x15));
    assert!(rt;
        read_reservation(bytes)
            == Ok(Held {
                generation: 2,
                held
            })
    );
    for n in 0..24 {
        assert!(rt; read_reservation(&bytes[..n]) == Err(ReplyFault::Cut { place: n }));
    }
    let free = b"\0\0\0\x04\0\0\0\0\xFF";
    assert!(rt;
        read_reservation(free)
            == Ok(Held {
                generation: 4,
                held: None
            })
    );
    let odd = Err(ReplyFault::BadLength {
        place: 4,
        value: 15,
    });
    assert!(rt; read_reservation(b"\0\0\0\x04\0\0\0\x0F") == odd);
}

#[test]
fn capabilities_are_read(rt: HostRuntime) {
    let bytes = b"\0\x08\x1D\x81\xEA\x01\xFF\xFF\xFF";
    let want = Capabilities {
        flags: 0x1D,
        more: 0x81,
        mask: 0xEA01,
    };
    assert!(rt; read_capabilities(bytes) == Ok(want));
    for n in 0..8 {
        assert!(rt; read_capabilities(&bytes[..n]) == Err(ReplyFault::Cut { place: n }));
    }
    let odd = Err(ReplyFault::BadLength {
        place: 0,
        value: 0x0908,
    });
    assert!(rt; read_capabilities(b"\x09\x08") == odd);
}

#[test]
fn full_status_is_read(rt: HostRuntime) {
    let bytes = full_status(false);
    match read_full(&bytes) {
        Ok(full) => {
            assert!(rt; full.generation() == 0x01020304);
            assert!(rt; full.count() == 64);
            if full.count() == 64 {
                let first = FullEntry {
                    key: Key(0x90010001),
                    holder: true,
                    kind: 5,
                    nexus: nexus(0x11),
                };
                assert!(rt; full.at(0) == first);
                let last = FullEntry {
                    key: Key(0x90010040),
                    holder: false,
                    kind: 0,
                    nexus: nexus(0x50),
                };
                assert!(rt; full.at(63) == last);
            }
        }
        Err(_) => assert!(rt; false),
    }
}

#[test]
fn faults_of_full_status_are_told(rt: HostRuntime) {
    let mut bytes = full_status(false);
    for n in [0, 7, 8, 31, 32, 3079] {
        assert!(rt; fault_of_full(&bytes, n) == Some(ReplyFault::Cut { place: n }));
    }
    bytes[8 + 48 + 23] = 25;
    bytes[8 + 96 + 23] = 26;
    let odd = Some(ReplyFault::BadLength {
        place: 76,
        value: 25,
    });
    assert!(rt; fault_of_full(&bytes, 3080) == odd);
    assert!(rt; fault_of_full(&bytes, 80) == odd);
    assert!(rt; fault_of_full(&bytes, 79) == Some(ReplyFault::Cut { place: 79 }));
    bytes[7] = 1;
    let length = Some(ReplyFault::BadLength {
        place: 4,
        value: 0x0C01,
    });
    assert!(rt; fault_of_full(&bytes, 3080) == length);
}
