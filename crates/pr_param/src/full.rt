ghost use Rattle.std.specs.Prelude.{◌≡◌, ◌≤◌, ◌<◌, ◌*◌, length, slice_get, Some};
ghost use Rattle.pr_grammar.specs.InReplies.{entry_of as spec_entry};

use pr_grammar::FullEntry;
use pr_words::{Key, Nexus, get_u16, get_u64};
use std::marker::Model;

/// What READ FULL STATUS told (SPC-4), in the bytes where it was read.
#[derive(Drop)]
pub struct Full<'a> {
    generation: u32,
    count: usize,
    descriptors: &'a [u8],
}

impl<'a> Model for Full<'a> {
    ghost use Rattle.std.specs.Prelude.{◌*◌, ◌≤◌, length};
    ghost use Rattle.pr_grammar.specs.InReplies.{FullList, entries_from};

    ghost Value = { FullList };

    ghost view = { λ f. record { generation = f.generation; entries = entries_from f.count f.descriptors.now } };

    ghost invariant = { λ f. 48 * f.count ≤ length f.descriptors.now };
}

impl<'a> Full<'a> {
    ghost use Rattle.pr_grammar.specs.InReplies.{entries_from as spec_from};

    /// Descriptors in the first bytes of a slice.
    pub(crate) fn new(generation: u32, count: usize, descriptors: &'a [u8]) -> Full<'a>
        requires { 48 * count ≤ length descriptors.now }
        ensures { result ≡ record { generation = generation; entries = spec_from count descriptors.now } }
    {
        Full {
            generation,
            count,
            descriptors,
        }
    }
}

impl Full<'_> {
    /// PRGENERATION.
    pub fn generation(&self) -> u32
        ensures { result ≡ self.now.generation }
    {
        self.generation
    }

    /// The number of registrations.
    #[tactic(auto, using(crate::proofs::Readings::length_entries))]
    pub fn count(&self) -> usize
        ensures { result ≡ length self.now.entries }
    {
        self.count
    }

    /// The registration in this place from 0.
    #[tactic(auto, using(crate::proofs::Readings::length_entries, crate::proofs::Readings::entry_in))]
    pub fn at(&self, i: usize) -> FullEntry
        requires { i < length self.now.entries }
        ensures { slice_get self.now.entries i ≡ Some result }
    {
        entry_of(&self.descriptors[48 * i..])
    }
}

/// The descriptor in the first 48 bytes.
fn entry_of(bytes: &[u8]) -> FullEntry
    requires { 48 ≤ length bytes.now }
    ensures { result ≡ spec_entry bytes.now }
{
    FullEntry {
        key: Key(get_u64(bytes, 0)),
        holder: bytes[12] % 2 == 1,
        kind: bytes[13],
        nexus: Nexus {
            name: get_u64(bytes, 28),
            port: get_u16(bytes, 18),
        },
    }
}
