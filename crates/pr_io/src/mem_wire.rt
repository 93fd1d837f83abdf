ghost use Rattle.std.specs.Prelude.{◌≡◌, ◌≤◌, ◌<◌, [], None, Some, length, vec_len, vec_capacity, IfOk, IfSome, OnOk};
ghost use Rattle.std.proofs.Common.{refl, ◌∙◌};
ghost use Rattle.std.proofs.Props.{props};
ghost use Rattle.pr_io.specs.Causes.{next_fault};
ghost use Rattle.pr_io.specs.Devices.{AllStand, AllGoOn, DeviceStands, DeviceComes, all_go_on_at_once, all_go_on_later};
ghost use Rattle.pr_io.specs.Lines.{new_line};
ghost use Rattle.pr_io.specs.Recordings.{AreNamed, addresses_of, line_of, standing, talk_of, told_of};
ghost use Rattle.pr_io.specs.Talks.{connection, sent_of};

use crate::calls::Calls;
use crate::devices::{hang_up_at, has_room_at, hear_at, place_of, say_at};
use crate::faults::Faults;
use crate::recorded::Recorded;
use crate::switchboard::{Refused, listen, part, speak};
use crate::{Failed, Peer, Wire};
use std::alloc::{AllocError, Global};

/// A wire to targets in memory, some of whose calls fail. It tells its talk.
#[derive(Drop)]
pub struct MemWire<P: Peer + Drop> {
    alloc: Global,
    devices: Vec<(String, P)>,
    earlier: Vec<Recorded>,
    current: Option<Recorded>,
    calls: Calls,
    faults: Faults,
    starved: u64,
    ghost within: { IfSome current (λ r. r.device < length devices.items) } by { Prim.hlevel props },
    ghost named: { AreNamed (addresses_of devices.items) (standing current) },
    ghost past: { AreNamed (addresses_of devices.items) earlier.items },
}

impl<P: Peer + Drop> MemWire<P> {
    /// A wire that isn't connected, to these targets by their addresses. It takes memory from `alloc`
    /// as it records what is sent and received.
    ///
    /// `failing` holds the numbers of the calls that are to fail. The first call is number 1.
    pub fn new(alloc: Global, devices: Vec<(String, P)>, failing: Vec<u64>) -> MemWire<P>
        requires { AllStand (DeviceStands P.stands) devices.items (λ _. new_line) }
        ensures talk { ⟦<MemWire<P> as Wire>⟧.talk result ≡ Some (talk_of [] None) }
        ensures faults { ⟦<MemWire<P> as Wire>⟧.faults result ≡ 0 }
        ensures stand { AllStand (DeviceStands P.stands) result.devices.items
            (line_of result.earlier.items result.current) }
    {
        MemWire {
            alloc,
            devices,
            earlier: Vec::new(alloc),
            current: None,
            calls: Calls::new(failing),
            faults: Faults::new(),
            starved: 0,
        }
    }

    /// All bytes that were sent on the connection that stands.
    pub fn sent(&self) -> &[u8]
        ensures { result.now ≡
            sent_of (talk_of self.now.earlier.items self.now.current).current }
    {
        match &self.current {
            Some(recorded) => &recorded.sent,
            None => &[],
        }
    }

    /// How many calls failed because the memory that they need was refused.
    pub fn starved(&self) -> u64
        ensures { result ≡ self.now.starved }
    {
        self.starved
    }
}

impl<P: Peer + Drop> Wire for MemWire<P> {
    ghost talk = { λ w. Some (talk_of w.earlier.items w.current) };

    ghost reference = { λ _. None };

    ghost faults = { λ w. w.faults.count };

    ghost comes = { λ a b. AllGoOn (DeviceStands P.stands) (DeviceComes P.comes)
        a.devices.items (line_of a.earlier.items a.current)
        b.devices.items (line_of b.earlier.items b.current) };

    ghost comes_at_once = { λ a. all_go_on_at_once (DeviceStands P.stands) (DeviceComes P.comes)
        (λ d l. (refl, P.comes_at_once d.1 l)) a.devices.items
        (line_of a.earlier.items a.current) };

    ghost comes_later = { λ a b c p q. all_go_on_later (DeviceStands P.stands)
        (DeviceComes P.comes)
        (λ d e f l m n x y. (y.0 ∙ x.0, P.comes_later d.1 e.1 f.1 l m n x.1 y.1))
        a.devices.items b.devices.items c.devices.items (line_of a.earlier.items a.current)
        (line_of b.earlier.items b.current) (line_of c.earlier.items c.current) p q };

    fn dial(&mut self, address: &str) -> Result<(), Failed> {
        if self.calls.next_fails() {
            return Err(self.faults.raise());
        }
        let Some(device) = place_of(&self.devices, address) else {
            return Err(self.faults.raise());
        };
        match make_room(self.alloc, &mut self.earlier, device, address) {
            Ok(recorded) => {
                let before = self.current.take();
                part(&mut self.devices, &mut self.earlier, before);
                self.current = Some(recorded);
                Ok(())
            }
            Err(_) => Err(refuse(&mut self.faults, &mut self.starved, Refused::Starved)),
        }
    }

    fn send(&mut self, bytes: &[u8]) -> Result<(), Failed> {
        if self.calls.next_fails() {
            return Err(self.faults.raise());
        }
        let Some(mut recorded) = self.current.take() else {
            return Err(self.faults.raise());
        };
        let passed = speak(&mut self.devices, &mut recorded, bytes);
        self.current = Some(recorded);
        match passed {
            Ok(()) => Ok(()),
            Err(refused) => Err(refuse(&mut self.faults, &mut self.starved, refused)),
        }
    }

    fn receive(&mut self, buf: &mut [u8]) -> Result<usize, Failed> {
        if self.calls.next_fails() {
            return Err(self.faults.raise());
        }
        let Some(mut recorded) = self.current.take() else {
            return Err(self.faults.raise());
        };
        let passed = listen(&mut self.devices, &mut recorded, buf);
        self.current = Some(recorded);
        match passed {
            Ok(n) => Ok(n),
            Err(refused) => Err(refuse(&mut self.faults, &mut self.starved, refused)),
        }
    }
}

/// A connection to a device, on which nothing was said yet, and room to record one more.
fn make_room(
    alloc: Global,
    earlier: &mut Vec<Recorded>,
    device: usize,
    address: &str,
) -> Result<Recorded, AllocError>
    ensures items { earlier.new.items ≡ earlier.old.items }
    ensures room { OnOk result (vec_len earlier.new < vec_capacity earlier.new) }
    ensures device { IfOk result (λ r. r.device ≡ device) }
    ensures told { IfOk result (λ r. told_of r ≡ connection address.now) }
{
    earlier.reserve(1)?;
    Recorded::new(alloc, device, address)
}

/// Counts a call to which something was refused.
fn refuse(faults: &mut Faults, starved: &mut u64, refused: Refused) -> Failed
    ensures later { faults.old.count ≤ faults.new.count }
    ensures once { faults.new.count ≡ next_fault faults.old.count }
{
    if refused == Refused::Starved {
        *starved = starved.saturating_add(1);
    }
    faults.raise()
}
