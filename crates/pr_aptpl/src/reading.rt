ghost use Rattle.std.specs.Prelude.{◌≡◌, ◌≤◌, ◌<◌, ◌+◌, ◌*◌, ◌^◌, None, length, drop, if◌then◌else◌, MatchOption, IfOk};
ghost use Rattle.pr_grammar.specs.Standings.{Nothing, Some_kept, is_all, is_port};
ghost use Rattle.pr_grammar.specs.Files.{listed, first_pair, slot, slot_size, is_after, is_type, is_count, is_holder_place, field_fault, nexus_at, reservation_at, opened};
ghost use Rattle.pr_words.specs.Kinds.{kind_at};
ghost use Rattle.pr_table.specs.Kepts.{reservation_of};
ghost use Rattle.pr_aptpl.specs.Views.{listing_of, slot_of};

use crate::parts::OPEN;
use pr_table::Kept;
use pr_words::{Key, Kind, Nexus, Pair, get_u16, get_u64, stands_before};
use std::alloc::{AllocError, Global};

/// Registrations, or the place of the first field that is wrong.
#[derive(Drop)]
pub(crate) enum Listing {
    Pairs(Vec<Pair>),
    Bad(u64),
}

/// What a slot holds.
#[derive(Drop)]
pub(crate) enum Slot {
    Closed,
    Open { turn: u8, kept: Kept },
    Broken { place: u64 },
}

fn get_pair(bytes: &[u8]) -> Pair
    requires { 18 ≤ length bytes.now }
    ensures { result ≡ first_pair bytes.now }
{
    Pair {
        nexus: Nexus {
            name: get_u64(bytes, 0),
            port: get_u16(bytes, 8),
        },
        key: Key(get_u64(bytes, 10)),
    }
}

fn after_first(bytes: &[u8]) -> &[u8]
    requires { 18 ≤ length bytes.now }
    ensures { result.now ≡ drop 18 bytes.now }
{
    &bytes[18..]
}

fn port_is_good(port: u16) -> bool
    ensures { result ≡ is_port port }
{
    0 < port && port < 17
}

fn stands_after(before: Option<Nexus>, nexus: Nexus) -> bool
    ensures { result ≡ is_after before nexus }
{
    match before {
        None => true,
        Some(earlier) => stands_before(&earlier, &nexus),
    }
}

/// Reads so many registrations, the first of which stands at this place of the disk.
fn read_pairs(alloc: Global, bytes: &[u8], count: u16, at: u64) -> Result<Listing, AllocError>
    requires room { 18 * count ≤ length bytes.now }
    requires places { at + 18 * count < 2 ^ 64 }
    ensures { IfOk result (λ l. listing_of l ≡ listed count None at bytes.now) }
{
    let mut pairs = Vec::new(alloc);
    let mut before: Option<Nexus> = None;
    let mut rest = bytes;
    let mut place = at;
    let mut left = count;
    while left > 0 {
        let pair = get_pair(rest);
        if !port_is_good(pair.nexus.port) {
            return Ok(Listing::Bad(place + 8));
        }
        if pair.key.0 == 0 {
            return Ok(Listing::Bad(place + 10));
        }
        if !stands_after(before, pair.nexus) {
            return Ok(Listing::Bad(place));
        }
        pairs.push(pair)?;
        before = Some(pair.nexus);
        rest = after_first(rest);
        place += 18;
        left -= 1;
    }
    Ok(Listing::Pairs(pairs))
}

fn kind_is_of_all(kind: Kind) -> bool
    ensures { result ≡ is_all kind }
{
    match kind {
        Kind::WriteAll | Kind::ExclusiveAll => true,
        _ => false,
    }
}

fn type_is_good(kind: u8) -> bool
    ensures { result ≡ is_type kind }
{
    kind == 0 || Kind::of(kind).is_some()
}

fn count_is_good(limit: u16, kept: bool, kind: u8, count: u16) -> bool
    ensures { result ≡ is_count limit kept kind count }
{
    !(limit < count) && (kept || count == 0) && (kind == 0 || 0 < count)
}

fn holder_is_good(kind: Option<Kind>, count: u16, holder: u16) -> bool
    ensures { result ≡ is_holder_place kind count holder }
{
    match kind {
        None => holder == 0xFFFF,
        Some(kind) => {
            if kind_is_of_all(kind) {
                holder == 0xFFFF
            } else {
                holder < count
            }
        }
    }
}

/// The first field that is wrong, by its place in the slot.
fn find_fault(limit: u16, turn: u8, kept: u8, kind: u8, count: u16, holder: u16) -> Option<u64>
    ensures fault { result ≡ field_fault limit turn kept kind count holder }
    ensures small { MatchOption result (count ≤ limit) (λ place. place < 16) }
{
    if turn > 2 {
        return Some(1);
    }
    if kept > 1 {
        return Some(2);
    }
    if !(type_is_good(kind) && (kept == 1 || kind == 0)) {
        return Some(3);
    }
    if !count_is_good(limit, kept == 1, kind, count) {
        return Some(4);
    }
    if !holder_is_good(Kind::of(kind), count, holder) {
        return Some(6);
    }
    None
}

fn nexus_of(pairs: &[Pair], at: u16) -> Nexus
    ensures { result ≡ nexus_at pairs.now at }
{
    match pairs.get(at as usize) {
        Some(pair) => pair.nexus,
        None => Nexus { name: 0, port: 0 },
    }
}

/// The one nexus that holds a reservation of this type.
fn holder_of(kind: Option<Kind>, holder: u16, pairs: &[Pair]) -> Option<Nexus>
    ensures { reservation_of kind result ≡ reservation_at kind holder pairs.now }
{
    match kind {
        None => None,
        Some(kind) => {
            if kind_is_of_all(kind) {
                None
            } else {
                Some(nexus_of(pairs, holder))
            }
        }
    }
}

fn content(on: bool, kind: Option<Kind>, holder: u16, pairs: Vec<Pair>) -> Kept
    ensures { result ≡ (if on then Some_kept pairs.items (reservation_at kind holder pairs.items)
        else Nothing) }
{
    let holder = holder_of(kind, holder, &pairs);
    Kept {
        on,
        kind,
        holder,
        pairs,
    }
}

fn read_open(alloc: Global, bytes: &[u8], at: u64, limit: u16) -> Result<Slot, AllocError>
    requires room { length bytes.now ≡ slot_size limit }
    requires places { at + slot_size limit < 2 ^ 64 }
    ensures { IfOk result (λ s. slot_of s ≡ opened limit at bytes.now) }
{
    let count = get_u16(bytes, 4);
    let holder = get_u16(bytes, 6);
    let [_, turn, kept, kind, ..] = bytes else {
        return Ok(Slot::Closed);
    };
    if let Some(place) = find_fault(limit, *turn, *kept, *kind, count, holder) {
        return Ok(Slot::Broken { place: at + place });
    }
    match read_pairs(alloc, &bytes[16..], count, at + 16)? {
        Listing::Bad(place) => Ok(Slot::Broken { place }),
        Listing::Pairs(pairs) => Ok(Slot::Open {
            turn: *turn,
            kept: content(*kept == 1, Kind::of(*kind), holder, pairs),
        }),
    }
}

/// Reads the slot with these bytes, which stands at this place of the disk and has room for so many
/// registrations.
#[tactic(auto, unfolding(pr_grammar::specs::Files::slot))]
pub(crate) fn read_slot(
    alloc: Global,
    bytes: &[u8],
    at: u64,
    limit: u16,
) -> Result<Slot, AllocError>
    requires room { length bytes.now ≡ slot_size limit }
    requires places { at + slot_size limit < 2 ^ 64 }
    ensures { IfOk result (λ s. slot_of s ≡ slot limit at bytes.now) }
{
    if bytes[0] == OPEN {
        read_open(alloc, bytes, at, limit)
    } else {
        Ok(Slot::Closed)
    }
}
