ghost use Rattle.std.specs.Prelude.{◌≡◌};
ghost use Rattle.pr_model.specs.Keeping.{Nothing};
ghost use Rattle.pr_table.specs.Kepts.{reservation_of};

use pr_words::{Kind, Nexus, Pair, Reservation};
use std::alloc::Global;
use std::marker::Model;

/// What outlives a power loss (SPC-4, preserving persistent reservations): nothing where `on` is
/// false, else the registrations and the reservation.
///
/// The registrations stand by ascending nexus. The type is None where no reservation is held, and
/// the holder is None where none is held or every registrant holds it.
#[derive(Drop)]
pub struct Kept {
    pub on: bool,
    pub kind: Option<Kind>,
    pub holder: Option<Nexus>,
    pub pairs: Vec<Pair>,
}

impl Kept {
    /// Nothing outlives.
    pub fn nothing(alloc: Global) -> Kept
        ensures { result ≡ Nothing }
    {
        Kept {
            on: false,
            kind: None,
            holder: None,
            pairs: Vec::new(alloc),
        }
    }
}

impl Model for Kept {
    ghost use Rattle.pr_model.specs.Keeping as model;
    ghost use Rattle.pr_table.specs.Kepts.{kept_of};

    ghost Value = { model.Kept };

    ghost view = { λ k. kept_of k.on k.kind k.holder k.pairs.items };
}

/// The reservation with this type and this holder.
pub(crate) fn reservation_of(kind: Option<Kind>, holder: Option<Nexus>) -> Reservation
    ensures { result ≡ reservation_of kind holder }
{
    match (kind, holder) {
        (None, _) => Reservation::Free,
        (Some(kind), None) => Reservation::OfAll { kind },
        (Some(kind), Some(holder)) => Reservation::OfOne { kind, holder },
    }
}
