//! The gate's table: what lies in its slot, what a seat knows, and the rule that each step keeps.
use crate::stands::Stands;
use atomic_table::{Seat, Shared, TableRule};
use std::collections::LinkedList;
use std::marker::PhantomData;
use std::snapshot::Snapshot;

/// What lies in the slot: the value, and the entry that was made last. The value is boxed, so that a
/// turn moves no more than its place.
#[derive(Drop)]
pub struct Held<T, E> {
    pub value: Box<T>,
    /// None before the first entry. It tells the step that publishes which entry it publishes.
    pub made: Option<E>,
}

/// How far a pass is with its turn.
pub enum Stage {
    Idle,
    /// It may draw a ticket.
    Permitted,
    /// It has this ticket.
    Waiting(u64),
    /// It has the turn of this ticket, and the slot is its own.
    Inside(u64),
}

/// What a seat at the table knows. No value of it is made.
pub struct View<E, G> {
    /// The ground of the value that the gate was made with; None in a view that was joined away.
    pub ground: Option<G>,
    /// The number of the pass; None for a note.
    pub number: Option<u64>,
    /// How many passes it can still make.
    pub spare: u64,
    /// A beginning of the history.
    pub seen: LinkedList<E>,
    /// The entries of the history that this pass made.
    pub mine: LinkedList<E>,
    /// After a join the shorter of the two lists.
    pub also: LinkedList<E>,
    pub stage: Stage,
}

/// The rule of the table.
pub struct Law<T> {
    of: PhantomData<T>,
}

impl<T: Stands> TableRule<Option<Held<T, T::Entry>>, View<T::Entry, T::Ground>, Snapshot<T>>
    for Law<T> {
    ghost use Rattle.pr_gate.specs.Rules.{Kept, first_view};

    ghost holds = { λ key. Kept T.number T.ground T.stands (T.ground key.value) };

    ghost first = { λ key. first_view (T.ground key.value) };
}

/// A seat at a gate's table.
pub type Place<T> = Seat<
    Option<Held<T, <T as Stands>::Entry>>,
    View<<T as Stands>::Entry, <T as Stands>::Ground>,
>;

/// The part of a gate's table that threads share: word 0 is the next ticket, word 1 is `serving`.
pub type Board<T> = Shared<
    Option<Held<T, <T as Stands>::Entry>>,
    View<<T as Stands>::Entry, <T as Stands>::Ground>,
    Snapshot<T>,
    Law<T>,
>;
