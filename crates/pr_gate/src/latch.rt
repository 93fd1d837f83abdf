//! Where threads wait before they draw a ticket, so that few of them spin. No rule rests on it.
ghost use Rattle.std.specs.Prelude.{◌≡◌};

use atomic_table::{Play, Table, TableRule};
use std::alloc::{AllocError, Global};
use std::hint;
use std::sync::Wait;

// How often a thread looks before it sleeps.
const SPINS: u32 = 100;

// The three values of the word: open, shut by one thread, and shut while others may sleep.
const OPEN: u64 = 0;

const SHUT: u64 = 1;

const WANTED: u64 = 2;

/// Nothing is known of the word.
pub(crate) struct Unruled;

impl TableRule<(), (), ()> for Unruled {
    ghost holds = { λ _ _. Unit {0} };

    ghost first = { λ _. tt };
}

impl Play<(), ()> for Unruled {
    ghost then = { λ _ _ _ _. Unit {0} };
}

/// A lock of one word, which spins for a short time and then sleeps.
///
/// A thread that unlocks wakes another only where one may sleep. Each sleeper has set the word to
/// `WANTED` before, and does so again once it is awake, so no wake-up is lost. It is not fair.
#[derive(Drop)]
pub(crate) struct Latch {
    table: Table<(), (), (), Unruled, Global>,
    ghost one_word: { table.shared.table_id.words ≡ 1 },
}

impl Latch {
    pub(crate) fn hung(alloc: Global) -> Result<Latch, AllocError> {
        let (table, _seat) = Table::of_words(alloc, &[OPEN], &())?;
        Ok(Latch { table })
    }

    /// Waits until it is open, and shuts it.
    pub(crate) fn lock<R: Wait>(&self, rt: &R) {
        if !self.shut() {
            self.wait(rt);
        }
    }

    pub(crate) fn unlock(&self) {
        let board = &self.table.shared;
        let (_, mut seat) = board.load_new_seat::<Unruled>(0);
        if board.swap::<Unruled>(&mut seat, 0, OPEN) == WANTED {
            board.wake_one(0);
        }
    }

    fn wait<R: Wait>(&self, rt: &R) {
        let mut found = self.spin();
        if found == OPEN && self.shut() {
            return;
        }
        for _ in rt.forever() {
            if found != WANTED && self.want() {
                return;
            }
            self.table.shared.park(rt, 0, WANTED as u32);
            found = self.spin();
        }
        unreachable!()
    }

    // The word, once it is open or wanted or was looked at often enough.
    fn spin(&self) -> u64 {
        for _ in 0..SPINS {
            let found = self.table.shared.peek(0);
            if found != SHUT {
                return found;
            }
            hint::spin_loop();
        }
        SHUT
    }

    // Whether it was open, and is now shut by this thread.
    fn shut(&self) -> bool {
        let board = &self.table.shared;
        let (_, mut seat) = board.load_new_seat::<Unruled>(0);
        board.compare_exchange::<Unruled>(&mut seat, 0, OPEN, SHUT) == OPEN
    }

    // The same, and whoever unlocks it will wake a sleeper.
    fn want(&self) -> bool {
        let board = &self.table.shared;
        let (_, mut seat) = board.load_new_seat::<Unruled>(0);
        board.swap::<Unruled>(&mut seat, 0, WANTED) == OPEN
    }
}
