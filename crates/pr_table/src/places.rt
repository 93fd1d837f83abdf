ghost use Rattle.std.specs.Prelude.{◌≡◌, suc, ◌+◌, ◌<◌, ◌≤◌, length, take, drop, vec_len, vec_capacity, [], ◌++◌, ◌∷◌, true, false, if◌then◌else◌};
ghost use Rattle.std.specs.List.{filter, list_any};
ghost use Rattle.pr_grammar.specs.Standings.{is_at, is_registered, key_of};
ghost use Rattle.pr_model.specs.Registrants.{IsAscending, has_key, with_pair, but_those, just_those, pair};
ghost use Rattle.pr_model.specs.Places.{Divides};
ghost use Rattle.pr_table.specs.Goes.{goes};
ghost use Rattle.pr_table.specs.Places.{IsPlace};

use crate::leaving::Leaving;
use pr_words::{Key, Nexus, Pair, is_same, stands_before};

/// The place of a nexus's pair, or else the place where it would stand.
#[tactic(auto, using(pr_model::proofs::Places::found_from, pr_model::proofs::Places::lacking_from, pr_model::proofs::Places::lacking_behind))]
pub fn place_of(pairs: &[Pair], nexus: Nexus) -> Result<usize, usize>
    requires { IsAscending pairs.now }
    ensures { IsPlace pairs.now nexus result }
{
    let place = first_not_before(pairs, nexus);
    if place == pairs.len() {
        return Err(place);
    }
    if is_same(&pairs[place].nexus, &nexus) {
        Ok(place)
    } else {
        Err(place)
    }
}

/// The number of pairs whose nexuses come before this one.
fn first_not_before(pairs: &[Pair], nexus: Nexus) -> usize
    requires { IsAscending pairs.now }
    ensures { Divides pairs.now nexus result }
{
    pairs.partition_point(|pair| stands_before(&pair.nexus, &nexus))
}

/// Takes the registrations that leave out. Each kind of test has a loop of its own, which makes it fast.
pub fn take_out(pairs: &mut Vec<Pair>, leaving: Leaving)
    ensures pairs { pairs.new.items ≡ but_those (goes leaving) pairs.old.items }
    ensures fewer { vec_len pairs.new ≤ vec_len pairs.old }
    ensures room { vec_capacity pairs.new ≡ vec_capacity pairs.old }
{
    match leaving {
        Leaving::All => pairs.clear(),
        Leaving::AllBut(nexus) => pairs.retain(|pair| is_same(&pair.nexus, &nexus)),
        Leaving::Key(key) => pairs.retain(|pair| pair.key != key),
        Leaving::KeyBut(key, nexus) => pairs.retain(|pair| !(pair.key == key
            && !is_same(&pair.nexus, &nexus))),
    }
}

/// Leaves the registrations that leave, and takes the others out.
pub fn keep_those(pairs: &mut Vec<Pair>, leaving: Leaving)
    ensures pairs { pairs.new.items ≡ just_those (goes leaving) pairs.old.items }
    ensures fewer { vec_len pairs.new ≤ vec_len pairs.old }
    ensures room { vec_capacity pairs.new ≡ vec_capacity pairs.old }
{
    match leaving {
        Leaving::All => {}
        Leaving::AllBut(nexus) => pairs.retain(|pair| !is_same(&pair.nexus, &nexus)),
        Leaving::Key(key) => pairs.retain(|pair| pair.key == key),
        Leaving::KeyBut(key, nexus) => pairs.retain(|pair| pair.key == key
            && !is_same(&pair.nexus, &nexus)),
    }
}

/// Puts a pair in, in the place of its nexus, where there is room for it.
pub fn put_in(pairs: &mut Vec<Pair>, place: Result<usize, usize>, nexus: Nexus, key: Key)
    requires ascending { IsAscending pairs.old.items }
    requires place { IsPlace pairs.old.items nexus place }
    requires room { is_registered pairs.old.items nexus ≡ false
        → vec_len pairs.old < vec_capacity pairs.old }
    ensures ascending { IsAscending pairs.new.items }
    ensures pairs { pairs.new.items ≡ with_pair pairs.old.items (pair nexus key.0) }
    ensures len { vec_len pairs.new
        ≤ (if is_registered pairs.old.items nexus then vec_len pairs.old else vec_len pairs.old + 1) }
    ensures capacity { vec_capacity pairs.old ≤ vec_capacity pairs.new }
{
    match place {
        Ok(place) => pairs[place] = Pair { nexus, key },
        Err(place) => {
            let _ = pairs.insert(place, Pair { nexus, key });
        }
    }
}

/// Takes the pair in a place out.
pub fn drop_at(pairs: &mut Vec<Pair>, place: usize)
    requires ascending { IsAscending pairs.old.items }
    requires place { place < length pairs.old.items }
    ensures ascending { IsAscending pairs.new.items }
    ensures pairs { pairs.new.items ≡ take place pairs.old.items
        ++ drop (suc place) pairs.old.items }
    ensures fewer { vec_len pairs.new ≤ vec_len pairs.old }
    ensures capacity { vec_capacity pairs.new ≡ vec_capacity pairs.old }
{
    pairs.remove(place);
}

/// Whether some pair has this key.
pub fn has_key(pairs: &[Pair], key: Key) -> bool
    ensures { result ≡ list_any (has_key key.0) pairs.now }
{
    pairs.iter().any(|pair| pair.key == key)
}

/// Makes a list the same as another, for which there is room.
pub fn fill(pairs: &mut Vec<Pair>, from: &[Pair])
    requires { length from.now ≤ vec_capacity pairs.old }
    ensures items { pairs.new.items ≡ from.now }
    ensures room { vec_capacity pairs.old ≤ vec_capacity pairs.new }
{
    pairs.clear();
    let _ = pairs.extend_from_slice(from);
}
