//! What each kind of step on the table tells its seat.
ghost use Rattle.pr_gate.specs.Rules.{permitted, drawn, looked, published, met, newer, elder, noted, same_view, joined_view, spent_view};

use crate::stands::Stands;
use crate::view::{Held, View};
use atomic_table::{Join, Play, Split};
use std::marker::PhantomData;

/// A load of the ticket word.
pub(crate) struct Permit;

impl<E, G, T> Play<Option<Held<T, E>>, View<E, G>> for Permit {
    ghost then = { permitted };
}

/// A fetch-add of the ticket word.
pub(crate) struct Draw;

impl<E, G, T> Play<Option<Held<T, E>>, View<E, G>> for Draw {
    ghost then = { drawn };
}

/// A load of `serving` by a seat with a ticket.
pub(crate) struct Look<T> {
    of: PhantomData<T>,
}

impl<T: Stands> Play<Option<Held<T, T::Entry>>, View<T::Entry, T::Ground>> for Look<T> {
    ghost then = { looked T.number T.ground T.stands };
}

/// A fetch-add of `serving`.
pub(crate) struct Publish;

impl<E, G, T> Play<Option<Held<T, E>>, View<E, G>> for Publish {
    ghost then = { published };
}

/// A load of `serving` after a join.
pub(crate) struct Met<T> {
    of: PhantomData<T>,
}

impl<T: Stands> Play<Option<Held<T, T::Entry>>, View<T::Entry, T::Ground>> for Met<T> {
    ghost then = { met T.number };
}

/// A split for one more pass.
pub(crate) struct Another;

impl<E, G> Split<View<E, G>> for Another {
    ghost left = { elder };

    ghost right = { newer };
}

/// A split for a note.
pub(crate) struct Noting;

impl<E, G> Split<View<E, G>> for Noting {
    ghost left = { same_view };

    ghost right = { noted };
}

/// A join of a note with a pass.
pub(crate) struct Meeting;

impl<E, G> Join<View<E, G>> for Meeting {
    ghost both = { joined_view };

    ghost spent = { spent_view };
}
