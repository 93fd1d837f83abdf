//! What the answers on which the agent rests tell of a target, as clauses of functions that do
//! nothing.

ghost use Rattle.pr_rig.specs.Laws.{KeysTell, PreemptKeeps, ReservationTells, ReserveHolds};

/// A key that READ KEYS doesn't list is registered for nobody.
pub fn keys_tell()
    ensures { KeysTell }
{}

/// A reservation of which READ RESERVATION tells stands; one stands behind RESERVE, and behind
/// PREEMPT AND ABORT of another key where one stood before.
pub fn a_reservation_stands()
    ensures tells { ReservationTells }
    ensures holds { ReserveHolds }
    ensures keeps { PreemptKeeps }
{}
