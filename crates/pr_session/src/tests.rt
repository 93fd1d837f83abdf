ghost use Rattle.std.specs.Prelude.{◌≤◌, length};

use super::*;
use crate::samples::{ACCEPTED, GOOD, LEFT, LOGIN, LOGOUT, POWERED, READY, fresh_image};
use pr_core::Core;
use pr_io::{Peer, SureDisk, SureMedium};
use std::alloc::Global;
use std::test::*;

/// A peer over a fresh target of one block.
fn peer(alloc: Global) -> Result<LanePeer<SureMedium, SureDisk>, Fail> {
    let medium = SureMedium::new(vec![in alloc; 0u8; 512]?);
    let disk = SureDisk::new(fresh_image(alloc)?);
    match Core::open(alloc, medium, disk) {
        Ok(core) => Ok(LanePeer::new(Session::new(alloc)?, core)),
        Err(_) => Err(Fail::new("a fresh disk opens")),
    }
}

/// What a peer says to what it then hears goes into the buffer. This is how much.
fn converse<P: Peer>(peer: &mut P, heard: &[u8], buf: &mut [u8]) -> usize
    ensures { result ≤ length buf.old }
{
    if heard.len() <= peer.room() {
        peer.hear(heard);
    }
    peer.say(buf)
}

// A peer replies to each frame, and no more: after a Logout it is dead. Where it was hung up, the
// nexus was logged out, so that it can log in again.
#[test]
fn a_peer_replies_to_what_it_hears(rt: HostRuntime) -> Result<(), Fail> {
    let mut peer = peer(rt.alloc())?;
    let mut buf = [0; 64];
    for (heard, said) in [
        (LOGIN, ACCEPTED),
        (&READY[..31], b"".as_slice()),
        (&READY[31..], POWERED),
        (READY, GOOD),
        (LOGOUT, LEFT),
        (LOGIN, b"".as_slice()),
    ] {
        let n = converse(&mut peer, heard, &mut buf);
        assert_eq!(rt; &buf[..n], said);
        assert_eq!(rt; converse(&mut peer, b"", &mut buf), 0);
    }
    for _ in 0..2 {
        peer.hang_up();
        let n = converse(&mut peer, LOGIN, &mut buf[..9]);
        assert_eq!(rt; &buf[..n], &ACCEPTED[..9]);
        let n = converse(&mut peer, b"", &mut buf);
        assert_eq!(rt; &buf[..n], &ACCEPTED[9..]);
    }
    Ok(())
}
