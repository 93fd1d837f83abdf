ghost use Rattle.std.specs.Prelude.{◌≡◌, ◌≤◌, ◌+◌, ◌-◌, ◌^◌, ◌↔◌, ◌⊎◌, [], Some, map, IsErr};
ghost use Rattle.std.specs.Vec.Iter.{into_iter_items, into_iter_len};
ghost use Rattle.pr_io.specs.Calls.{IsToFail, next_call};
ghost use Rattle.pr_io.specs.Causes.{HasCause};
ghost use Rattle.pr_io.specs.Doors.{Counts, Takes};
ghost use Rattle.pr_io.specs.Told.{told_streams};

use crate::calls::Calls;
use crate::faults::Faults;
use crate::{Door, Failed, Sink, Source};
use std::alloc::Global;
use std::vec::IntoIter;

/// A door at which connections in memory wait, and some of whose calls fail.
///
/// To look at what a connection was told, let its sink be a reference to one that is kept.
#[derive(Drop)]
pub struct MemDoor<I: Source + Send + Drop, O: Sink + Send + Drop> {
    connections: IntoIter<(I, O), Global>,
    taken: u64,
    calls: Calls,
    faults: Faults,
    ghost few: { taken + into_iter_len connections ≤ 2 ^ 64 - 1 },
}

impl<I: Source + Send + Drop, O: Sink + Send + Drop> MemDoor<I, O> {
    /// A door at which these connections wait, in this order.
    ///
    /// `failing` holds the numbers of the calls that are to fail. The first call is number 1.
    pub fn new(connections: Vec<(I, O)>, failing: Vec<u64>) -> MemDoor<I, O>
        ensures waiting { ⟦<MemDoor<I, O> as Door>⟧.waiting result
            ≡ Some (map (λ c. told_streams I.Source O.Sink c.0 c.1) connections.items) }
        ensures taken { ⟦<MemDoor<I, O> as Door>⟧.taken result ≡ 0 }
        ensures faults { ⟦<MemDoor<I, O> as Door>⟧.faults result ≡ 0 }
        ensures made { result.calls.made ≡ 0 }
        ensures failing { result.calls.failing ≡ failing }
    {
        MemDoor {
            connections: connections.into_iter(),
            taken: 0,
            calls: Calls::new(failing),
            faults: Faults::new(),
        }
    }

    /// How many connections were taken.
    pub fn taken(&self) -> u64
        ensures { result ≡ ⟦<MemDoor<I, O> as Door>⟧.taken self.now }
    {
        self.taken
    }

    /// How often the door has failed so far. The count stands still at 2^64 - 1.
    pub fn faults(&self) -> u64
        ensures { result ≡ ⟦<MemDoor<I, O> as Door>⟧.faults self.now }
    {
        self.faults.count()
    }
}

impl<I: Source + Send + Drop, O: Sink + Send + Drop> Door for MemDoor<I, O> {
    type In = I;

    type Out = O;

    ghost waiting = { λ d. Some (map (λ c. told_streams I.Source O.Sink c.0 c.1)
        (into_iter_items d.connections)) };

    ghost taken = { λ d. d.taken };

    ghost faults = { λ d. d.faults.count };

    fn accept(&mut self) -> Result<(I, O), Failed>
        ensures waiting { Takes (⟦<MemDoor<I, O> as Door>⟧.waiting self.old)
            (⟦<MemDoor<I, O> as Door>⟧.waiting self.new) result
            (λ c. told_streams I.Source O.Sink c.0 c.1) }
        ensures taken { Counts (⟦<MemDoor<I, O> as Door>⟧.taken self.old)
            (⟦<MemDoor<I, O> as Door>⟧.taken self.new) result }
        ensures cause { HasCause (⟦<MemDoor<I, O> as Door>⟧.faults self.old)
            (⟦<MemDoor<I, O> as Door>⟧.faults self.new) result }
        ensures listed { IsErr result ↔ (IsToFail self.old.calls.failing.items self.old.calls.made
            ⊎ (into_iter_items self.old.connections ≡ [])) }
        ensures made { self.new.calls.made ≡ next_call self.old.calls.made }
        ensures failing { self.new.calls.failing ≡ self.old.calls.failing }
    {
        if self.calls.next_fails() {
            return Err(self.faults.raise());
        }
        match self.connections.next() {
            Some(connection) => {
                self.taken += 1;
                Ok(connection)
            }
            None => Err(self.faults.raise()),
        }
    }
}
