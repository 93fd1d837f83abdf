ghost use Rattle.std.specs.Prelude.{◌≡◌, ◌<◌, ◌≤◌, length, [], IfOk, option_map, false, not, nat_lt, slice_get, Some};
ghost use Rattle.std.specs.List.{list_any};
ghost use Rattle.pr_words.specs.declared.nexus.Key.{Key as K};
ghost use Rattle.pr_grammar.specs.Standings.{is_at, is_registered, key_of};
ghost use Rattle.pr_model.specs.Registrants.{IsAscending, has_key, with_pair, but_those, just_those, pair};
ghost use Rattle.pr_model.specs.Places.{StandsAt};
ghost use Rattle.pr_table.specs.Goes.{goes};
ghost use Rattle.pr_table.specs.Places.{IsPlace, key_in};

use crate::leaving::Leaving;
use crate::places::{drop_at, fill, has_key, keep_those, place_of, put_in, take_out};
use pr_words::{Key, Nexus, Pair};
use std::alloc::{AllocError, Global};
use std::marker::Model;

/// Registrations by ascending nexus, one for each. All their room is taken at the start.
#[derive(Drop)]
pub struct Pairs {
    items: Vec<Pair>,
    limit: usize,
}

impl Model for Pairs {
    ghost use Rattle.pr_table.specs.Orderings.{Ordered, IsOrdered};
    ghost use Rattle.std.specs.Prelude.{vec_capacity};

    ghost Value = { Ordered };

    ghost view = { λ p. record { pairs = p.items.items; limit = p.limit } };

    ghost invariant = { λ p. IsOrdered p.items.items p.limit (vec_capacity p.items) };
}

impl Pairs {
    pub fn new(alloc: Global, limit: usize) -> Result<Pairs, AllocError>
        ensures { IfOk result (λ p. (p.pairs ≡ []) × (p.limit ≡ limit)) }
    {
        let items = Vec::with_capacity(alloc, limit)?;
        Ok(Pairs { items, limit })
    }

    pub fn len(&self) -> usize
        ensures len { result ≡ length self.now.pairs }
        ensures within { result ≤ self.now.limit }
        ensures order { IsAscending self.now.pairs }
    {
        self.items.len()
    }

    pub fn is_full(&self) -> bool
        ensures { result ≡ not (nat_lt (length self.now.pairs) self.now.limit) }
    {
        self.items.len() >= self.limit
    }

    pub fn at(&self, i: usize) -> Pair
        requires { i < length self.now.pairs }
        ensures { slice_get self.now.pairs i ≡ Some result }
    {
        self.items[i]
    }

    /// The place of a nexus's registration, or else the place where it would stand.
    pub fn place_of(&self, nexus: Nexus) -> Result<usize, usize>
        ensures { IsPlace self.now.pairs nexus result }
    {
        place_of(self.items.as_slice(), nexus)
    }

    /// The key of the registration in a place, if there is one.
    pub fn key_at(&self, place: Result<usize, usize>) -> Option<Key>
        requires { IfOk place (λ i. i < length self.now.pairs) }
        ensures { option_map (λ (k : K). k.0) result ≡ key_in self.now.pairs place }
    {
        match place {
            Ok(place) => Some(self.items[place].key),
            Err(_) => None,
        }
    }

    pub fn key_of(&self, nexus: Nexus) -> Option<Key>
        ensures { option_map (λ (k : K). k.0) result ≡ key_of self.now.pairs nexus }
    {
        match self.place_of(nexus) {
            Ok(place) => Some(self.items[place].key),
            Err(_) => None,
        }
    }

    pub fn is_registered(&self, nexus: Nexus) -> bool
        ensures { result ≡ is_registered self.now.pairs nexus }
    {
        self.place_of(nexus).is_ok()
    }

    /// Whether some registration has this key.
    pub fn has_key(&self, key: Key) -> bool
        ensures { result ≡ list_any (has_key key.0) self.now.pairs }
    {
        has_key(self.items.as_slice(), key)
    }

    /// Registers a nexus with a key, or gives it another key, in its place.
    pub fn put_in(&mut self, place: Result<usize, usize>, nexus: Nexus, key: Key)
        requires place { IsPlace self.old.pairs nexus place }
        requires room { is_registered self.old.pairs nexus ≡ false
            → length self.old.pairs < self.old.limit }
        ensures { self.new ≡ record {
          pairs = with_pair self.old.pairs (pair nexus key.0);
          limit = self.old.limit;
        } }
    {
        put_in(&mut self.items, place, nexus, key);
    }

    /// Takes the registration in a place out.
    pub fn drop_at(&mut self, place: usize)
        requires { place < length self.old.pairs }
        ensures { (n : Nexus) → StandsAt self.old.pairs n place
            → self.new ≡ record {
              pairs = but_those (is_at n) self.old.pairs;
              limit = self.old.limit;
            } }
    {
        drop_at(&mut self.items, place);
    }

    /// Unregisters those that leave.
    pub fn take_out(&mut self, leaving: Leaving)
        ensures { self.new ≡ record {
          pairs = but_those (goes leaving) self.old.pairs;
          limit = self.old.limit;
        } }
    {
        take_out(&mut self.items, leaving);
    }

    /// Becomes the list of those that leave another one.
    pub fn list_those(&mut self, pairs: &Pairs, leaving: Leaving)
        requires { pairs.now.limit ≡ self.old.limit }
        ensures { self.new ≡ record {
          pairs = just_those (goes leaving) pairs.now.pairs;
          limit = self.old.limit;
        } }
    {
        fill(&mut self.items, pairs.items.as_slice());
        keep_those(&mut self.items, leaving);
    }

    pub fn clear(&mut self)
        ensures { self.new ≡ record { pairs = []; limit = self.old.limit } }
    {
        self.items.clear();
    }

    /// Becomes these registrations.
    pub fn fill(&mut self, pairs: &[Pair])
        requires order { IsAscending pairs.now }
        requires within { length pairs.now ≤ self.old.limit }
        ensures { self.new ≡ record { pairs = pairs.now; limit = self.old.limit } }
    {
        fill(&mut self.items, pairs);
    }

    /// Becomes the same as another list of the same limit.
    pub fn copy_from(&mut self, other: &Pairs)
        requires { other.now.limit ≡ self.old.limit }
        ensures { self.new ≡ other.now }
    {
        fill(&mut self.items, other.items.as_slice());
    }
}
