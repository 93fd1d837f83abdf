ghost use Rattle.std.specs.Prelude.{◌≡◌, ◌+◌, ◌<◌, ◌≤◌, length, [], IfOk, slice_get, Some, None, option_map, true, false};

use crate::holding::{
    held, held_code, holder_left, holds, is_of_all, is_own, is_same_key, is_same_reservation,
    kind_of, missed, names_key, while_any, without_holder,
};
use crate::kept::{Kept, reservation_of};
use crate::leaving::Leaving;
use crate::pairs::Pairs;
use crate::request::{OutAction, OutRequest};
use crate::verdict::{Change, Verdict};
use pr_param::{OutList, Registrants};
use pr_words::{Code, Key, Kind, Nexus, OutService, Pair, Reservation, is_same};
use std::alloc::{AllocError, Global};

/// The registrations, the reservation, PRGENERATION and the APTPL bit that was accepted last
/// (SPC-4, persistent reservations).
///
/// All memory is taken by `new` and `from_kept`.
#[derive(Drop)]
pub struct Table {
    pairs: Pairs,
    removed: Pairs,
    reservation: Reservation,
    generation: u32,
    preserve: bool,
    ghost same_limit: { pairs.limit ≡ removed.limit },
}

/// What stood before an act: what tells later whether something else outlives a power loss, and the
/// caller's key with the place of its registration.
#[derive(Drop)]
struct Note {
    preserve: bool,
    reservation: Reservation,
    count: usize,
    place: Result<usize, usize>,
    key: Option<Key>,
}

impl Table {
    ghost use Rattle.pr_words.specs.declared.reservation.Reservation.TheVariants.{Free};
    ghost use Rattle.pr_grammar.specs.Standings.{Standing, is_registered, is_holder, key_of};
    ghost use Rattle.pr_model.specs.Registrants.{IsAscending, IsWellFormed};
    ghost use Rattle.pr_model.specs.Acts.{acted, register, reserve, release, clear, removing, preempt, taking, is_holders_key};
    ghost use Rattle.pr_model.specs.Keeping.{keeps_by, same_reservation};
    ghost use Rattle.pr_words.specs.Services.{out_service_code};
    ghost use Rattle.pr_model.specs.Worlds.{restored};
    ghost use Rattle.pr_table.specs.Tables.{standing_of, limit_of, removed_of};
    ghost use Rattle.pr_table.specs.Told.{numbered, requested, Does, Keeps, Aborts};
    ghost use Rattle.pr_table.specs.Goes.{goes};
    ghost use Rattle.pr_table.specs.Noted.{Notes, looks_still};
    ghost use Rattle.pr_table.specs.Places.{IsPlace};

    /// An empty table for at most `limit` registrations.
    ///
    /// # Errors
    ///
    /// Want of memory alone.
    pub fn new(alloc: Global, limit: usize) -> Result<Table, AllocError>
        ensures { IfOk result (λ t. (limit_of t ≡ limit)
            × (standing_of t ≡ record {
              pairs = [];
              reservation = Free;
              generation = 0;
              preserve = false;
            }) × (removed_of t ≡ [])) }
    {
        let pairs = Pairs::new(alloc, limit)?;
        let removed = Pairs::new(alloc, limit)?;
        Ok(Table {
            pairs,
            removed,
            reservation: Reservation::Free,
            generation: 0,
            preserve: false,
        })
    }

    /// The table after a power-up, for at most `limit` registrations.
    ///
    /// # Errors
    ///
    /// Want of memory alone.
    pub fn from_kept(alloc: Global, kept: &Kept, limit: usize) -> Result<Table, AllocError>
        requires { IsWellFormed limit (restored kept.now) }
        ensures { IfOk result (λ t. (limit_of t ≡ limit) × (standing_of t ≡ restored kept.now)
            × (removed_of t ≡ [])) }
    {
        let mut table = Table::new(alloc, limit)?;
        if kept.on {
            table.restore(
                kept.pairs.as_slice(),
                reservation_of(kept.kind, kept.holder),
            );
        }
        Ok(table)
    }

    fn restore(&mut self, pairs: &[Pair], reservation: Reservation)
        requires order { IsAscending pairs.now }
        requires within { length pairs.now ≤ limit_of self.old }
        ensures standing { standing_of self.new
            ≡ record {
              pairs = pairs.now;
              reservation = reservation;
              generation = (standing_of self.old).generation;
              preserve = true;
            } }
        ensures limit { limit_of self.new ≡ limit_of self.old }
        ensures removed { removed_of self.new ≡ removed_of self.old }
    {
        self.pairs.fill(pairs);
        self.reservation = reservation;
        self.preserve = true;
    }

    /// Becomes the same as another table of the same limit, but for what its own last act removed.
    pub fn copy_from(&mut self, other: &Table)
        requires { limit_of self.old ≡ limit_of other.now }
        ensures standing { standing_of self.new ≡ standing_of other.now }
        ensures limit { limit_of self.new ≡ limit_of self.old }
        ensures removed { removed_of self.new ≡ removed_of self.old }
    {
        self.pairs.copy_from(&other.pairs);
        self.reservation = other.reservation;
        self.generation = other.generation;
        self.preserve = other.preserve;
    }

    /// The key with which a nexus is registered.
    pub fn key_of(&self, nexus: Nexus) -> Option<Key>
        ensures { option_map (λ (k : Key). k.0) result ≡ key_of (standing_of self.now).pairs nexus }
    {
        self.pairs.key_of(nexus)
    }

    /// Whether a nexus is registered.
    pub fn is_registered(&self, nexus: Nexus) -> bool
        ensures { result ≡ is_registered (standing_of self.now).pairs nexus }
    {
        self.pairs.is_registered(nexus)
    }

    /// A nexus whose registration the last `act` removed, by ascending nexus from 0.
    pub fn removed(&self, i: usize) -> Nexus
        requires { i < length (removed_of self.now) }
        ensures { option_map (λ (p : Pair). p.nexus) (slice_get (removed_of self.now) i)
            ≡ Some result }
    {
        self.removed.at(i).nexus
    }

    /// Whether the last `act` removed a nexus's registration.
    pub fn was_removed(&self, nexus: Nexus) -> bool
        ensures { result ≡ is_registered (removed_of self.now) nexus }
    {
        self.removed.is_registered(nexus)
    }

    /// Serves a PERSISTENT RESERVE OUT whose service action is given by its number, as `serve` does.
    pub fn act(&mut self, nexus: Nexus, action: &OutAction, list: &OutList) -> Verdict
        requires { action.now.action ≤ 6 }
        ensures does { Does (acted (limit_of self.old) (standing_of self.old) nexus
            (numbered action.now list.now)) result (standing_of self.new) (removed_of self.new) }
        ensures keeps { Keeps result (standing_of self.old) (standing_of self.new) }
        ensures abort { Aborts result action.now.action }
        ensures limit { limit_of self.new ≡ limit_of self.old }
        ensures within { length (standing_of self.new).pairs ≤ limit_of self.new }
    {
        let Some(service) = OutService::of(action.action) else {
            return Verdict::Bad(Code::INVALID_FIELD_IN_CDB);
        };
        let request = OutRequest {
            service,
            scope: action.scope,
            kind: action.kind,
        };
        self.serve(nexus, &request, list)
    }

    /// Serves a PERSISTENT RESERVE OUT of a nexus, once the CDB's fields and the list's have passed
    /// their checks: whether its key is the caller's, and the rules of its service action (SPC-4).
    pub fn serve(&mut self, nexus: Nexus, request: &OutRequest, list: &OutList) -> Verdict
        ensures does { Does (acted (limit_of self.old) (standing_of self.old) nexus
            (requested request.now list.now)) result (standing_of self.new) (removed_of self.new) }
        ensures keeps { Keeps result (standing_of self.old) (standing_of self.new) }
        ensures abort { Aborts result (out_service_code request.now.service) }
        ensures limit { limit_of self.new ≡ limit_of self.old }
        ensures within { length (standing_of self.new).pairs ≤ limit_of self.new }
    {
        let note = self.note(nexus);
        let verdict = self.decide(nexus, &note, request, list);
        let keeps = self.keeps(&note);
        match verdict {
            Verdict::Good(change) => Verdict::Good(Change {
                abort: request.aborts(),
                keeps,
                ..change
            }),
            Verdict::Conflict => Verdict::Conflict,
            Verdict::Bad(code) => Verdict::Bad(code),
        }
    }

    /// What stands before an act of a nexus.
    fn note(&self, nexus: Nexus) -> Note
        ensures notes { Notes result (standing_of self.now) nexus }
        ensures order { IsAscending (standing_of self.now).pairs }
    {
        let place = self.pairs.place_of(nexus);
        Note {
            preserve: self.preserve,
            reservation: self.reservation,
            count: self.pairs.len(),
            place,
            key: self.pairs.key_at(place),
        }
    }

    /// Whether something else outlives a power loss than when the note was taken.
    fn keeps(&self, note: &Note) -> bool
        requires { IfOk note.now.place (λ i. i < note.now.count) }
        ensures within { length (standing_of self.now).pairs ≤ limit_of self.now }
        ensures keeps { (s : Standing) (n : Nexus) → Notes note.now s n
            → result ≡ keeps_by s.preserve (standing_of self.now).preserve
            (looks_still s.pairs (standing_of self.now).pairs n note.now.place)
            (same_reservation s.reservation (standing_of self.now).reservation) }
    {
        let pairs = self.is_still(note);
        let reservation = is_same_reservation(&note.reservation, &self.reservation);
        match (note.preserve, self.preserve) {
            (true, true) => !(pairs & reservation),
            (false, false) => false,
            (true, false) | (false, true) => true,
        }
    }

    /// Whether there are as many registrations as when the note was taken, and the same key stands in
    /// the caller's place.
    fn is_still(&self, note: &Note) -> bool
        requires { IfOk note.now.place (λ i. i < note.now.count) }
        ensures within { length (standing_of self.now).pairs ≤ limit_of self.now }
        ensures still { (s : Standing) (n : Nexus) → Notes note.now s n
            → result ≡ looks_still s.pairs (standing_of self.now).pairs n note.now.place }
    {
        if note.count != self.pairs.len() {
            return false;
        }
        is_same_key(note.key, self.pairs.key_at(note.place))
    }

    /// The check of the registration, and the rules of the service action.
    fn decide(&mut self, nexus: Nexus, note: &Note, request: &OutRequest, list: &OutList) -> Verdict
        requires { Notes note.now (standing_of self.old) nexus }
        ensures does { Does (acted (limit_of self.old) (standing_of self.old) nexus
            (requested request.now list.now)) result (standing_of self.new) (removed_of self.new) }
        ensures limit { limit_of self.new ≡ limit_of self.old }
    {
        self.removed.clear();
        if !names_key(request.service, note.key, list.key) {
            return Verdict::Conflict;
        }
        match request.service {
            OutService::Register | OutService::RegisterAndIgnoreExistingKey => self.register(
                nexus,
                note.place,
                list.action_key,
                list.aptpl,
            ),
            OutService::Reserve => self.reserve(nexus, note.place, request.kind),
            OutService::Release => self.release(nexus, note.place, request.scope, request.kind),
            OutService::Clear => self.clear(),
            OutService::Preempt | OutService::PreemptAndAbort => self.preempt(
                nexus,
                note.key,
                request,
                list.action_key,
            ),
        }
    }

    /// REGISTER and REGISTER AND IGNORE EXISTING KEY.
    fn register(
        &mut self,
        nexus: Nexus,
        place: Result<usize, usize>,
        key: u64,
        aptpl: bool,
    ) -> Verdict
        requires removed { removed_of self.old ≡ [] }
        requires place { IsPlace (standing_of self.old).pairs nexus place }
        ensures does { Does (register (limit_of self.old)
            (standing_of self.old) nexus key aptpl) result (standing_of self.new)
            (removed_of self.new) }
        ensures limit { limit_of self.new ≡ limit_of self.old }
    {
        if key == 0 {
            return self.unregister(nexus, place, aptpl);
        }
        if place.is_err() && self.pairs.is_full() {
            return Verdict::Bad(Code::INSUFFICIENT_REGISTRATION_RESOURCES);
        }
        self.pairs.put_in(place, nexus, Key(key));
        self.generation = self.generation.wrapping_add(1);
        self.preserve = aptpl;
        Verdict::Good(Change::telling(None))
    }

    fn unregister(&mut self, nexus: Nexus, place: Result<usize, usize>, aptpl: bool) -> Verdict
        requires removed { removed_of self.old ≡ [] }
        requires place { IsPlace (standing_of self.old).pairs nexus place }
        ensures does { Does (register (limit_of self.old)
            (standing_of self.old) nexus 0 aptpl) result (standing_of self.new)
            (removed_of self.new) }
        ensures limit { limit_of self.new ≡ limit_of self.old }
    {
        let Ok(place) = place else {
            return Verdict::Good(Change::telling(None));
        };
        self.pairs.drop_at(place);
        let stay_code = holder_left(nexus, &self.reservation);
        self.reservation = without_holder(nexus, self.pairs.len(), self.reservation);
        self.generation = self.generation.wrapping_add(1);
        self.preserve = aptpl;
        Verdict::Good(Change::telling(stay_code))
    }

    fn reserve(&mut self, nexus: Nexus, place: Result<usize, usize>, kind: u8) -> Verdict
        requires removed { removed_of self.old ≡ [] }
        requires place { IsPlace (standing_of self.old).pairs nexus place }
        ensures does { Does (reserve (standing_of self.old) nexus kind) result
            (standing_of self.new) (removed_of self.new) }
        ensures limit { limit_of self.new ≡ limit_of self.old }
    {
        if let Some(own) = kind_of(&self.reservation) {
            if !holds(&self.reservation, nexus, place.is_ok()) || own.code() != kind {
                return Verdict::Conflict;
            }
            return Verdict::Good(Change::telling(None));
        }
        let Some(asked) = Kind::of(kind) else {
            return Verdict::Bad(Code::INVALID_FIELD_IN_CDB);
        };
        self.reservation = held(asked, nexus);
        Verdict::Good(Change::telling(None))
    }

    fn release(&mut self, nexus: Nexus, place: Result<usize, usize>, scope: u8, kind: u8) -> Verdict
        requires removed { removed_of self.old ≡ [] }
        requires place { IsPlace (standing_of self.old).pairs nexus place }
        ensures does { Does (release (standing_of self.old) nexus scope kind) result
            (standing_of self.new) (removed_of self.new) }
        ensures limit { limit_of self.new ≡ limit_of self.old }
    {
        let Some(own) = kind_of(&self.reservation) else {
            return Verdict::Good(Change::telling(None));
        };
        if !holds(&self.reservation, nexus, place.is_ok()) {
            return Verdict::Good(Change::telling(None));
        }
        if scope != 0 || own.code() != kind {
            return Verdict::Bad(Code::INVALID_RELEASE_OF_PERSISTENT_RESERVATION);
        }
        self.reservation = Reservation::Free;
        Verdict::Good(Change::telling(missed(own)))
    }

    fn clear(&mut self) -> Verdict
        requires { removed_of self.old ≡ [] }
        ensures does { Does (clear (standing_of self.old)) result (standing_of self.new)
            (removed_of self.new) }
        ensures limit { limit_of self.new ≡ limit_of self.old }
    {
        let verdict = self.remove(Leaving::All, Code::RESERVATIONS_PREEMPTED, None);
        self.reservation = Reservation::Free;
        verdict
    }

    /// PREEMPT and PREEMPT AND ABORT of a nexus with this key.
    fn preempt(&mut self, nexus: Nexus, own: Option<Key>, request: &OutRequest, key: u64) -> Verdict
        requires removed { removed_of self.old ≡ [] }
        requires own { option_map (λ (k : Key). k.0) own
            ≡ key_of (standing_of self.old).pairs nexus }
        ensures does { Does (preempt (standing_of self.old) nexus request.now.scope
            request.now.kind key) result (standing_of self.new) (removed_of self.new) }
        ensures limit { limit_of self.new ≡ limit_of self.old }
    {
        if key == 0 {
            if !is_of_all(&self.reservation) {
                return Verdict::Bad(Code::INVALID_FIELD_IN_PARAMETER_LIST);
            }
            return self.take_over(nexus, request, Leaving::AllBut(nexus));
        }
        if self.is_holders_key(nexus, own, key) {
            return self.take_over(nexus, request, Leaving::KeyBut(Key(key), nexus));
        }
        if !self.pairs.has_key(Key(key)) {
            return Verdict::Conflict;
        }
        let verdict = self.remove(Leaving::Key(Key(key)), Code::REGISTRATIONS_PREEMPTED, None);
        self.reservation = while_any(self.pairs.len(), self.reservation);
        verdict
    }

    /// Whether one nexus holds the reservation and is registered with this key. A nexus with its own
    /// key is given, since it is mostly that one.
    fn is_holders_key(&self, nexus: Nexus, own: Option<Key>, key: u64) -> bool
        requires { option_map (λ (k : Key). k.0) own ≡ key_of (standing_of self.now).pairs nexus }
        ensures { result ≡ is_holders_key (standing_of self.now) key }
    {
        match self.reservation {
            Reservation::OfOne { holder, .. } => {
                if is_same(&holder, &nexus) {
                    is_own(own, key)
                } else {
                    is_own(self.pairs.key_of(holder), key)
                }
            }
            Reservation::Free | Reservation::OfAll { .. } => false,
        }
    }

    /// Removes those that leave, and gives the reservation to the caller with the asked type.
    fn take_over(&mut self, nexus: Nexus, request: &OutRequest, leaving: Leaving) -> Verdict
        requires { removed_of self.old ≡ [] }
        ensures does { Does (taking (standing_of self.old) nexus request.now.scope request.now.kind
            (goes leaving)) result (standing_of self.new) (removed_of self.new) }
        ensures limit { limit_of self.new ≡ limit_of self.old }
    {
        if request.scope != 0 {
            return Verdict::Bad(Code::INVALID_FIELD_IN_CDB);
        }
        let Some(asked) = Kind::of(request.kind) else {
            return Verdict::Bad(Code::INVALID_FIELD_IN_CDB);
        };
        let stay_code = if request.kind == held_code(&self.reservation) {
            None
        } else {
            Some(Code::RESERVATIONS_RELEASED)
        };
        let verdict = self.remove(leaving, Code::REGISTRATIONS_PREEMPTED, stay_code);
        self.reservation = held(asked, nexus);
        verdict
    }

    /// Removes those that leave.
    fn remove(&mut self, leaving: Leaving, removed_code: Code, stay_code: Option<Code>) -> Verdict
        ensures does { Does (removing (standing_of self.old) (goes leaving)
            (standing_of self.old).reservation removed_code stay_code) result
            (standing_of self.new) (removed_of self.new) }
        ensures limit { limit_of self.new ≡ limit_of self.old }
    {
        self.removed.list_those(&self.pairs, leaving);
        self.pairs.take_out(leaving);
        self.generation = self.generation.wrapping_add(1);
        Verdict::Good(Change {
            removed: self.removed.len(),
            removed_code: Some(removed_code),
            stay_code,
            abort: false,
            keeps: false,
        })
    }
}

impl Registrants for Table {
    ghost use Rattle.pr_table.specs.Tables.{standing_of};

    ghost standing = { λ t. standing_of t };

    fn count(&self) -> usize {
        self.pairs.len()
    }

    fn at(&self, i: usize) -> (Nexus, Key) {
        let pair = self.pairs.at(i);
        (pair.nexus, pair.key)
    }

    fn generation(&self) -> u32 {
        self.generation
    }

    fn kind(&self) -> Option<Kind> {
        kind_of(&self.reservation)
    }

    fn holder(&self) -> Option<Nexus> {
        match self.reservation {
            Reservation::OfOne { holder, .. } => Some(holder),
            _ => None,
        }
    }

    fn is_holder(&self, nexus: Nexus) -> bool {
        holds(&self.reservation, nexus, self.pairs.is_registered(nexus))
    }

    fn preserve(&self) -> bool {
        self.preserve
    }
}
