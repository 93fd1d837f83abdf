//! The gate, and what its callers hold.
ghost use Rattle.std.specs.Prelude.{◌≡◌, ◌+◌, ◌^◌, ◌<◌, [], Some, None, IsSome, length};
ghost use Rattle.pr_gate.specs.Entries.{own, NamesBelow};
ghost use Rattle.pr_gate.specs.declared.view.Stage.TheVariants.{Idle};

use crate::latch::Latch;
use crate::stands::Stands;
use crate::view::{Held, Law, Place, View};
use atomic_table::Table;
use std::alloc::Global;
use std::snapshot::Snapshot;

/// A value that threads share by turns. It may lie behind a `&` in as many threads as one likes,
/// where the value and its entries may cross threads.
#[derive(Drop)]
pub struct Gate<T: Stands> {
    pub(crate) table: Table<
        Option<Held<T, <T as Stands>::Entry>>,
        View<<T as Stands>::Entry, <T as Stands>::Ground>,
        Snapshot<T>,
        Law<T>,
        Global,
    >,
    pub(crate) latch: Latch,
    ghost sized: { (table.shared.table_id.words ≡ 2) × (table.shared.table_id.slots ≡ 1) },
}

/// The right to turns, what its owner has seen of the history, and which entries are its own.
///
/// A pass belongs to the gate that it came from, and one thread at a time uses it. Of every pass
/// holds: its own entries are just those of what it has seen that name its number, each once and
/// in order, and each entry that it has seen names a number that was given.
#[derive(Drop)]
pub struct Pass<T: Stands> {
    pub(crate) seat: Place<T>,
    pub(crate) number: u64,
    // The number of the next pass that this one makes.
    pub(crate) next: u64,
    // How many entries it has seen.
    pub(crate) count: u64,
    ghost numbered: { seat.me.0.number ≡ Some number },
    // The passes made so far have the numbers below the next one; there can be 2^62 + 1.
    ghost spared: { next + seat.me.0.spare ≡ 2 ^ 62 + 1 },
    ghost ordered: { number < next },
    ghost counted: { count ≡ length seat.me.0.seen },
    ghost grounded: { IsSome seat.me.0.ground },
    ghost owned: { own T.number number seat.me.0.seen ≡ seat.me.0.mine },
    ghost named: { NamesBelow T.number next seat.me.0.seen },
}

/// What a pass had seen when the note was made, to be carried to another pass of the same gate.
#[derive(Drop)]
pub struct Note<T: Stands> {
    pub(crate) seat: Place<T>,
    pub(crate) count: u64,
    ghost counted: { count ≡ length seat.me.0.seen },
    ghost anonymous: { (seat.me.0.number ≡ None) × (seat.me.0.stage ≡ Idle) × (seat.me.1 ≡ []) },
}

/// What is left of a pass whose owner takes no more turns. It takes no bytes, so any number of them
/// may be kept until it is told what they made.
#[derive(Drop)]
pub struct Retired<T: Stands> {
    pub(crate) seat: Place<T>,
    ghost idle: { (seat.me.0.stage ≡ Idle) × (seat.me.1 ≡ []) },
}

/// The value, for as long as the turn lasts.
///
/// A turn has no `Drop`: it can only go back by `Gate::leave`.
pub struct Turn<T> {
    pub(crate) value: Box<T>,
}

/// The answer of a gate whose tickets are used up.
#[derive(Clone, Copy, Debug, PartialEq, Eq)]
pub struct Spent {
    /// The next ticket, 2^62 or more.
    pub ticket: u64,
}

/// The answer of a gate that is closed while a turn is out.
#[derive(Clone, Copy, Debug, PartialEq, Eq)]
pub struct Unreturned {
    /// How many turns came back.
    pub serving: u64,
    /// How many tickets were drawn.
    pub ticket: u64,
}
