ghost use Rattle.std.specs.Prelude.{◌≡◌, ◌≤◌, ◌<◌, ◌*◌, length, slice_get, Some};

use pr_words::{Key, get_u64};
use std::marker::Model;

/// What READ KEYS told (SPC-4), in the bytes where it was read.
#[derive(Drop)]
pub struct Keys<'a> {
    generation: u32,
    count: usize,
    keys: &'a [u8],
}

impl<'a> Model for Keys<'a> {
    ghost use Rattle.std.specs.Prelude.{◌*◌, ◌≤◌, length};
    ghost use Rattle.pr_grammar.specs.InReplies.{KeyList, keys_from};

    ghost Value = { KeyList };

    ghost view = { λ k. record { generation = k.generation; keys = keys_from k.count k.keys.now } };

    ghost invariant = { λ k. 8 * k.count ≤ length k.keys.now };
}

impl<'a> Keys<'a> {
    ghost use Rattle.pr_grammar.specs.InReplies.{keys_from as spec_from};

    /// Keys in the first bytes of a slice.
    pub(crate) fn new(generation: u32, count: usize, keys: &'a [u8]) -> Keys<'a>
        requires { 8 * count ≤ length keys.now }
        ensures { result ≡ record { generation = generation; keys = spec_from count keys.now } }
    {
        Keys {
            generation,
            count,
            keys,
        }
    }
}

impl Keys<'_> {
    /// PRGENERATION.
    pub fn generation(&self) -> u32
        ensures { result ≡ self.now.generation }
    {
        self.generation
    }

    /// The number of keys.
    #[tactic(auto, using(crate::proofs::Readings::length_keys))]
    pub fn count(&self) -> usize
        ensures { result ≡ length self.now.keys }
    {
        self.count
    }

    /// The key in this place from 0.
    #[tactic(auto, using(crate::proofs::Readings::length_keys, crate::proofs::Readings::key_in))]
    pub fn key(&self, i: usize) -> Key
        requires { i < length self.now.keys }
        ensures { slice_get self.now.keys i ≡ Some result }
    {
        Key(get_u64(self.keys, 8 * i))
    }
}
