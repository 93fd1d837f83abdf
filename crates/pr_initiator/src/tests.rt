use super::*;
use pr_io::{MemWire, ScriptPeer, Wire};
use pr_link::RawCdb;
use pr_words::{Key, Nexus};
use std::alloc::{AllocError, Global};
use std::test::*;

const NEXUS: Nexus = Nexus {
    name: 0x11,
    port: 1,
};

// A target in memory with address x, which says these bytes in pieces of at most seven.
fn wire_of(alloc: Global, script: &[u8]) -> Result<MemWire<ScriptPeer>, AllocError> {
    let peer = ScriptPeer::new(Vec::from_slice(alloc, script)?, 7);
    let mut devices = Vec::new(alloc);
    devices.push((String::from_str(alloc, "x")?, peer))?;
    Ok(MemWire::new(alloc, devices, Vec::new(alloc)))
}

// What a target in memory answers, by bytes from outside.
#[test]
fn answers_are_those_of_the_replies(rt: HostRuntime) -> Result<(), Fail> {
    let alloc = rt.alloc();
    let script =
        b"\0\0\0\x0c\x81\0\0\0\0\0\0\x01\0\0\0\0\0\0\0\x0c\x82\0\0\0\0\0\0\x02\x18\0\0\0\0\0\0\x14\xff\0\0\0\0\0\0\0\x05\0\0\0\0\0\0\0\0\0\0\x18";
    let Ok(mut initiator) = Initiator::new(alloc, wire_of(alloc, script)?) else {
        return Ok(());
    };
    let conflict = Answer {
        status: 0x18,
        sense: None,
        len: 0,
    };
    assert!(rt; initiator.dial("x") == Ok(()));
    assert!(rt; initiator.login(NEXUS) == Ok(()));
    assert!(rt; initiator.command(RawCdb::new(&[0; 6]), &[]) == Ok(conflict));
    assert!(rt;
        initiator.logout()
            == Err(LinkFault::Rejected {
                place: 24,
                reason: 5
            })
    );
    Ok(())
}

const GOOD: Answer = Answer {
    status: 0x00,
    sense: None,
    len: 0,
};

fn looks_are_good<W: Wire + Drop>(initiator: &mut Initiator<W>) -> bool {
    initiator.read_keys() == Ok(GOOD)
        && initiator.read_reservation() == Ok(GOOD)
        && initiator.read_capabilities() == Ok(GOOD)
        && initiator.read_full() == Ok(GOOD)
}

fn changes_are_good<W: Wire + Drop>(initiator: &mut Initiator<W>) -> bool {
    let key = Key(3);
    initiator.register(Key(1), Key(2), true) == Ok(GOOD)
        && initiator.register_ignore(key, false) == Ok(GOOD)
        && initiator.reserve(key, 5) == Ok(GOOD)
        && initiator.release(key, 5) == Ok(GOOD)
        && initiator.preempt(key, Key(4), 5) == Ok(GOOD)
        && initiator.preempt_abort(key, Key(4), 6) == Ok(GOOD)
        && initiator.clear(key) == Ok(GOOD)
}

// What each command looks like on the wire, by bytes from outside.
#[test]
fn commands_are_sent_as_the_standard_has_them(rt: HostRuntime) -> Result<(), Fail> {
    let alloc = rt.alloc();
    let script =
        b"\0\0\0\x0c\x81\0\0\0\0\0\0\x01\0\0\0\0\0\0\0\x1e\x82\0\0\0\0\0\0\x02\x02\x12\0\0p\0\x06\0\0\0\0\x0a\0\0\0\0)\0\0\0\0\0\0\0\0\x0c\x82\0\0\0\0\0\0\x03\0\0\0\0\0\0\0\x10\x82\0\0\0\0\0\0\x04\0\0\0\0data\0\0\0\x0c\x82\0\0\0\0\0\0\x05\0\0\0\0\0\0\0\x0c\x82\0\0\0\0\0\0\x06\0\0\0\0\0\0\0\x0c\x82\0\0\0\0\0\0\x07\0\0\0\0\0\0\0\x0c\x82\0\0\0\0\0\0\x08\0\0\0\0\0\0\0\x0c\x82\0\0\0\0\0\0\x09\0\0\0\0\0\0\0\x0c\x82\0\0\0\0\0\0\x0a\0\0\0\0\0\0\0\x0c\x82\0\0\0\0\0\0\x0b\0\0\0\0\0\0\0\x0c\x82\0\0\0\0\0\0\x0c\0\0\0\0\0\0\0\x0c\x82\0\0\0\0\0\0\x0d\0\0\0\0\0\0\0\x0c\x82\0\0\0\0\0\0\x0e\0\0\0\0\0\0\0\x0c\x82\0\0\0\0\0\0\x0f\0\0\0\0\0\0\0\x08\x83\0\0\0\0\0\0\x10";
    let sent =
        b"\0\0\0\x14\x01\0\0\0\0\0\0\x01\x01\0\0\x01\0\0\0\0\0\0\0\x11\0\0\0\x1c\x02\0\0\0\0\0\0\x02\x06\0\0\0\0\0\0\0\0\0\0\0\0\0\0\0\0\0\0\0\0\0\0\x1c\x02\0\0\0\0\0\0\x03\x06\0\0\0\0\0\0\0\0\0\0\0\0\0\0\0\0\0\0\0\0\0\0\x1c\x02\0\0\0\0\0\0\x04\x06\0\0\0\x12\0\0\0$\0\0\0\0\0\0\0\0\0\0\0\0\0\0\x1c\x02\0\0\0\0\0\0\x05\x0a\0\0\0^\0\0\0\0\0\0\xff\xff\0\0\0\0\0\0\0\0\0\0\x1c\x02\0\0\0\0\0\0\x06\x0a\0\0\0^\x01\0\0\0\0\0\xff\xff\0\0\0\0\0\0\0\0\0\0\x1c\x02\0\0\0\0\0\0\x07\x0a\0\0\0^\x02\0\0\0\0\0\xff\xff\0\0\0\0\0\0\0\0\0\0\x1c\x02\0\0\0\0\0\0\x08\x0a\0\0\0^\x03\0\0\0\0\0\xff\xff\0\0\0\0\0\0\0\0\0\04\x02\0\0\0\0\0\0\x09\x0a\0\0\0_\0\0\0\0\0\0\0\x18\0\0\0\0\0\0\0\0\0\0\0\0\0\0\x01\0\0\0\0\0\0\0\x02\0\0\0\0\x01\0\0\0\0\0\04\x02\0\0\0\0\0\0\x0a\x0a\0\0\0_\x06\0\0\0\0\0\0\x18\0\0\0\0\0\0\0\0\0\0\0\0\0\0\0\0\0\0\0\0\0\0\x03\0\0\0\0\0\0\0\0\0\0\04\x02\0\0\0\0\0\0\x0b\x0a\0\0\0_\x01\x05\0\0\0\0\0\x18\0\0\0\0\0\0\0\0\0\0\0\0\0\0\x03\0\0\0\0\0\0\0\0\0\0\0\0\0\0\0\0\0\0\04\x02\0\0\0\0\0\0\x0c\x0a\0\0\0_\x02\x05\0\0\0\0\0\x18\0\0\0\0\0\0\0\0\0\0\0\0\0\0\x03\0\0\0\0\0\0\0\0\0\0\0\0\0\0\0\0\0\0\04\x02\0\0\0\0\0\0\x0d\x0a\0\0\0_\x04\x05\0\0\0\0\0\x18\0\0\0\0\0\0\0\0\0\0\0\0\0\0\x03\0\0\0\0\0\0\0\x04\0\0\0\0\0\0\0\0\0\0\04\x02\0\0\0\0\0\0\x0e\x0a\0\0\0_\x05\x06\0\0\0\0\0\x18\0\0\0\0\0\0\0\0\0\0\0\0\0\0\x03\0\0\0\0\0\0\0\x04\0\0\0\0\0\0\0\0\0\0\04\x02\0\0\0\0\0\0\x0f\x0a\0\0\0_\x03\0\0\0\0\0\0\x18\0\0\0\0\0\0\0\0\0\0\0\0\0\0\x03\0\0\0\0\0\0\0\0\0\0\0\0\0\0\0\0\0\0\0\x08\x03\0\0\0\0\0\0\x10";
    let Ok(mut initiator) = Initiator::new(alloc, wire_of(alloc, script)?) else {
        return Ok(());
    };
    let brought = Answer {
        status: 0x00,
        sense: None,
        len: 4,
    };
    assert!(rt; initiator.dial("x") == Ok(()));
    assert!(rt; initiator.login(NEXUS) == Ok(()));
    assert!(rt; initiator.ready() == Ok(GOOD));
    assert!(rt; initiator.inquiry() == Ok(brought));
    assert!(rt; initiator.received() == b"data".as_slice());
    assert!(rt; looks_are_good(&mut initiator));
    assert!(rt; changes_are_good(&mut initiator));
    assert!(rt; initiator.logout() == Ok(()));
    assert!(rt; initiator.into_wire().sent() == sent.as_slice());
    Ok(())
}
