//! Bytes that an entry carries.

use std::marker::Model;
use std::snapshot::Snapshot;

/// The bytes of a buffer from a place on, as they stood at a moment. They are there in proofs
/// alone: nothing is copied.
#[derive(Drop)]
pub struct Excerpt {
    buffer: Snapshot<Vec<u8>>,
    start: usize,
}

impl Model for Excerpt {
    ghost use Rattle.std.specs.Prelude.{ℕ, List, drop};

    ghost Value = { List ℕ };

    ghost view = { λ e. drop e.start e.buffer.value.items };
}

impl Excerpt {
    ghost use Rattle.std.specs.Prelude.{◌≡◌, drop};

    /// The bytes of the buffer from a place on, as they now stand.
    pub fn of(buffer: &Vec<u8>, start: usize) -> Excerpt
        ensures { result ≡ drop start buffer.now.items }
    {
        Excerpt {
            buffer: Snapshot::of(buffer),
            start,
        }
    }
}
