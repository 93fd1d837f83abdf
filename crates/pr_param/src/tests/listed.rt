//! Registrants in memory.

ghost use Rattle.std.specs.Prelude.{◌≡◌, ◌≤◌, vec_len};
ghost use Rattle.pr_grammar.specs.Standings.{IsAscending, is_registered};

use crate::Registrants;
use pr_words::{Key, Kind, Nexus, Pair, Reservation, is_same, stands_before};
use std::alloc::{AllocError, Global};

/// Up to 64 registrations.
#[derive(Drop)]
pub struct Listed {
    pairs: Vec<Pair>,
    reservation: Reservation,
    generation: u32,
    preserve: bool,
    ghost few: { vec_len pairs ≤ 64 },
    ghost ascending: { IsAscending pairs.items },
}

impl Listed {
    /// None are registered; the generation is 01020304h.
    pub fn new(alloc: Global, reservation: Reservation, preserve: bool) -> Listed {
        Listed {
            pairs: Vec::new(alloc),
            reservation,
            generation: 0x01020304,
            preserve,
        }
    }

    /// Puts a registration behind the others, where it belongs there.
    pub fn push(&mut self, pair: Pair) -> Result<(), AllocError> {
        if self.pairs.len() < 64
            && self
                .pairs
                .iter()
                .all(|p| stands_before(&p.nexus, &pair.nexus))
        {
            self.pairs.push(pair)?;
        }
        Ok(())
    }
}

impl Registrants for Listed {
    ghost use Rattle.pr_grammar.specs.Standings.{Standing};

    ghost standing = { λ l. record { pairs = l.pairs.items; reservation = l.reservation; generation = l.generation; preserve = l.preserve } };

    fn count(&self) -> usize {
        self.pairs.len()
    }

    fn at(&self, i: usize) -> (Nexus, Key) {
        let pair = &self.pairs[i];
        (pair.nexus, pair.key)
    }

    fn generation(&self) -> u32 {
        self.generation
    }

    fn kind(&self) -> Option<Kind> {
        match self.reservation {
            Reservation::Free => None,
            Reservation::OfOne { kind, .. } => Some(kind),
            Reservation::OfAll { kind } => Some(kind),
        }
    }

    fn holder(&self) -> Option<Nexus> {
        match self.reservation {
            Reservation::OfOne { holder, .. } => Some(holder),
            _ => None,
        }
    }

    fn is_holder(&self, nexus: Nexus) -> bool {
        match self.reservation {
            Reservation::Free => false,
            Reservation::OfOne { holder, .. } => is_same(&holder, &nexus),
            Reservation::OfAll { .. } => is_among(self.pairs.as_slice(), nexus),
        }
    }

    fn preserve(&self) -> bool {
        self.preserve
    }
}

fn is_among(pairs: &[Pair], nexus: Nexus) -> bool
    ensures { result ≡ is_registered pairs.now nexus }
{
    pairs.iter().any(|p| is_same(&p.nexus, &nexus))
}
