ghost use Rattle.std.specs.Prelude.{option_map, ◌≡◌, List, length};
ghost use Rattle.pr_words.specs.declared.nexus.Pair.{Pair as P};
ghost use Rattle.pr_grammar.specs.Standings.{kind_of, is_holder_in, is_registered as registers};
ghost use Rattle.pr_model.specs.Registrants.{held};
ghost use Rattle.pr_model.specs.Acts.{holder_left, without_holder, missed, is_of_all, is_own, key_or_zero, held_code, while_any};
ghost use Rattle.pr_model.specs.Keeping.{same_reservation, same_key};
ghost use Rattle.pr_words.specs.declared.nexus.Key.{Key as K};
ghost use Rattle.pr_table.specs.Owns.{names_key};

use pr_words::{Code, Key, Kind, Nexus, OutService, Reservation, is_same};

/// The reservation of this type that a nexus takes.
pub fn held(kind: Kind, nexus: Nexus) -> Reservation
    ensures { result ≡ held kind nexus }
{
    match kind {
        Kind::WriteAll | Kind::ExclusiveAll => Reservation::OfAll { kind },
        Kind::WriteExclusive
        | Kind::ExclusiveAccess
        | Kind::WriteRegistrants
        | Kind::ExclusiveRegistrants => Reservation::OfOne {
            kind,
            holder: nexus,
        },
    }
}

/// The type of a reservation.
pub fn kind_of(reservation: &Reservation) -> Option<Kind>
    ensures { result ≡ kind_of reservation.now }
{
    match reservation {
        Reservation::Free => None,
        Reservation::OfOne { kind, .. } => Some(*kind),
        Reservation::OfAll { kind } => Some(*kind),
    }
}

/// The number of the type of a reservation, or 0 where none is held.
pub fn held_code(reservation: &Reservation) -> u8
    ensures { result ≡ held_code reservation.now }
{
    match reservation {
        Reservation::Free => 0,
        Reservation::OfOne { kind, .. } => kind.code(),
        Reservation::OfAll { kind } => kind.code(),
    }
}

/// Whether a nexus holds the reservation, by whether it is registered.
pub fn holds(reservation: &Reservation, nexus: Nexus, is_registered: bool) -> bool
    ensures { (ps : List P) → is_registered ≡ registers ps nexus
        → result ≡ is_holder_in reservation.now ps nexus }
{
    match reservation {
        Reservation::Free => false,
        Reservation::OfOne { holder, .. } => is_same(holder, &nexus),
        Reservation::OfAll { .. } => is_registered,
    }
}

/// Whether a nexus with this key, if it is registered, may ask for a service action with that RESERVATION
/// KEY.
pub fn names_key(service: OutService, own: Option<Key>, key: u64) -> bool
    ensures { result ≡ names_key service (option_map (λ (k : K). k.0) own) key }
{
    match service {
        OutService::Register => key_or_zero(own) == key,
        OutService::RegisterAndIgnoreExistingKey => true,
        OutService::Reserve
        | OutService::Release
        | OutService::Clear
        | OutService::Preempt
        | OutService::PreemptAndAbort => is_own(own, key),
    }
}

/// A nexus's key, or zero where it isn't registered.
fn key_or_zero(own: Option<Key>) -> u64
    ensures { result ≡ key_or_zero (option_map (λ (k : K). k.0) own) }
{
    match own {
        Some(own) => own.0,
        None => 0,
    }
}

/// Whether a nexus is registered, and with this key.
pub fn is_own(own: Option<Key>, key: u64) -> bool
    ensures { result ≡ is_own (option_map (λ (k : K). k.0) own) key }
{
    match own {
        Some(own) => own.0 == key,
        None => false,
    }
}

/// Whether every registrant holds the reservation.
pub fn is_of_all(reservation: &Reservation) -> bool
    ensures { result ≡ is_of_all reservation.now }
{
    matches!(reservation, Reservation::OfAll { .. })
}

/// What the other registrants are told where a reservation of this type ends.
pub fn missed(kind: Kind) -> Option<Code>
    ensures { result ≡ missed kind }
{
    match kind {
        Kind::WriteExclusive | Kind::ExclusiveAccess => None,
        Kind::WriteRegistrants | Kind::ExclusiveRegistrants | Kind::WriteAll | Kind::ExclusiveAll =>
            Some(Code::RESERVATIONS_RELEASED),
    }
}

/// What the others are told where a nexus unregisters.
pub fn holder_left(nexus: Nexus, reservation: &Reservation) -> Option<Code>
    ensures { result ≡ holder_left nexus reservation.now }
{
    match reservation {
        Reservation::OfOne { kind, holder } => {
            if is_same(holder, &nexus) {
                missed(*kind)
            } else {
                None
            }
        }
        Reservation::Free | Reservation::OfAll { .. } => None,
    }
}

/// The reservation after a nexus has unregistered and so many are left.
pub fn without_holder(nexus: Nexus, left: usize, reservation: Reservation) -> Reservation
    ensures { (ps : List P) → length ps ≡ left → result ≡ without_holder nexus ps reservation }
{
    match reservation {
        Reservation::Free => Reservation::Free,
        Reservation::OfOne { kind, holder } => {
            if is_same(&holder, &nexus) {
                Reservation::Free
            } else {
                Reservation::OfOne { kind, holder }
            }
        }
        Reservation::OfAll { kind } => {
            if left == 0 {
                Reservation::Free
            } else {
                Reservation::OfAll { kind }
            }
        }
    }
}

/// The reservation after others were removed and so many are left.
pub fn while_any(left: usize, reservation: Reservation) -> Reservation
    ensures { (ps : List P) → length ps ≡ left → result ≡ while_any ps reservation }
{
    match reservation {
        Reservation::OfAll { kind } => {
            if left == 0 {
                Reservation::Free
            } else {
                Reservation::OfAll { kind }
            }
        }
        other => other,
    }
}

/// Whether two reservations are one.
pub fn is_same_reservation(a: &Reservation, b: &Reservation) -> bool
    ensures { result ≡ same_reservation a.now b.now }
{
    match (a, b) {
        (Reservation::Free, Reservation::Free) => true,
        (Reservation::OfOne { kind: a, holder: m }, Reservation::OfOne { kind: b, holder: n }) =>
            a.code() == b.code() && is_same(m, n),
        (Reservation::OfAll { kind: a }, Reservation::OfAll { kind: b }) => a.code() == b.code(),
        _ => false,
    }
}

/// Whether two nexuses' keys are one, or both have none.
pub fn is_same_key(a: Option<Key>, b: Option<Key>) -> bool
    ensures { result ≡ same_key (option_map (λ (k : K). k.0) a) (option_map (λ (k : K). k.0) b) }
{
    match (a, b) {
        (None, None) => true,
        (Some(a), Some(b)) => a.0 == b.0,
        _ => false,
    }
}
