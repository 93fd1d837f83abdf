//! The single steps on a gate's table.
ghost use Rattle.std.specs.Prelude.{◌≡◌, ℕ, ◌≤◌, ◌^◌, ◌<◌, [], ◌∷◌, ◌++◌, Some, None, IsSome, true, MatchOption, MatchBool, length, ◌+◌, if◌then◌else◌, nat_lt};
ghost use Rattle.pr_gate.specs.Rules.{elder, newer, noted, joined_view, Told, IsIn};
ghost use Rattle.pr_gate.specs.Seats.{IsSized, IsSameSeat, IsIdle, IsServed};
ghost use Rattle.pr_gate.specs.declared.view.Stage.TheVariants.{Idle, Permitted, Waiting, Inside};

use crate::plays::{Another, Draw, Look, Meeting, Met, Noting, Permit, Publish};
use crate::stands::Stands;
use crate::view::{Board, Held, Place};
use std::sync::Wait;
use std::thread;

/// At this ticket no turn is given any more, and this many passes can be made beside the first.
pub(crate) const TICKET_LIMIT: u64 = 1 << 62;

/// Asks whether the seat may draw; else the answer is the ticket word.
pub(crate) fn permit<T: Stands>(board: &Board<T>, seat: &mut Place<T>) -> Option<u64>
    requires table { (seat.old.table_id ≡ board.now.table_id) × IsSized board.now.table_id }
    requires free { IsIdle seat.old }
    ensures same { IsSameSeat seat.old seat.new }
    ensures ticket { MatchOption result (seat.new.me
        ≡ (record seat.old.me.0 { stage = Permitted }, []))
        (λ n. (2 ^ 62 ≤ n) × (seat.new.me ≡ seat.old.me)) }
{
    let ticket = board.load::<Permit>(seat, 0);
    if ticket >= TICKET_LIMIT {
        Some(ticket)
    } else {
        None
    }
}

/// Draws a ticket.
pub(crate) fn draw<T: Stands>(board: &Board<T>, seat: &mut Place<T>) -> u64
    requires table { (seat.old.table_id ≡ board.now.table_id) × IsSized board.now.table_id }
    requires permitted { (seat.old.me.0.stage ≡ Permitted) × IsSome seat.old.me.0.number }
    ensures same { IsSameSeat seat.old seat.new }
    ensures ticket { seat.new.me ≡ (
      record seat.old.me.0 { stage = Waiting result },
      seat.old.me.1,
    ) }
{
    board.fetch_add::<Draw>(seat, 0, 1)
}

/// Whether it is the ticket's turn, which the seat then has.
pub(crate) fn look<T: Stands>(board: &Board<T>, seat: &mut Place<T>, ticket: u64) -> bool
    requires table { (seat.old.table_id ≡ board.now.table_id) × IsSized board.now.table_id }
    requires waits { (seat.old.me.0.stage ≡ Waiting ticket) × IsSome seat.old.me.0.ground }
    ensures same { IsSameSeat seat.old seat.new }
    ensures inside { MatchBool result (IsIn T.number T.ground T.stands seat.old.me ticket
        seat.new.me) (seat.new.me ≡ seat.old.me) }
{
    board.load::<Look<T>>(seat, 1) == ticket
}

/// Waits for the ticket's turn.
pub(crate) fn wait<T: Stands, R: Wait>(board: &Board<T>, rt: &R, seat: &mut Place<T>, ticket: u64)
    requires table { (seat.old.table_id ≡ board.now.table_id) × IsSized board.now.table_id }
    requires waits { (seat.old.me.0.stage ≡ Waiting ticket) × IsSome seat.old.me.0.ground }
    ensures same { IsSameSeat seat.old seat.new }
    ensures inside { IsIn T.number T.ground T.stands seat.old.me ticket seat.new.me }
{
    for _ in rt.forever() {
        if look(board, seat, ticket) {
            return;
        }
        thread::yield_now();
    }
    unreachable!()
}

/// Takes the value out of the slot.
pub(crate) fn take_out<T: Stands>(board: &Board<T>, seat: &mut Place<T>) -> Box<T>
    requires table { (seat.old.table_id ≡ board.now.table_id) × IsSized board.now.table_id }
    requires inside { (held : Held T T.Entry) × (seat.old.me.1 ≡ (0, Some held) ∷ []) }
    ensures same { IsSameSeat seat.old seat.new }
    ensures out { (seat.new.me ≡ (seat.old.me.0, (0, None) ∷ []))
        × ((held : Held T T.Entry) → seat.old.me.1 ≡ (0, Some held) ∷ [] → held.value ≡ result) }
{
    let Held { value, made: _ } = board.exchange(seat, 0, None).unwrap();
    value
}

/// Puts the value back with its entry, and ends the turn. The answer is the number of entries before.
pub(crate) fn publish<T: Stands>(
    board: &Board<T>,
    seat: &mut Place<T>,
    value: Box<T>,
    made: T::Entry,
) -> u64
    requires table { (seat.old.table_id ≡ board.now.table_id) × IsSized board.now.table_id }
    requires inside { IsServed seat.old }
    requires ground { seat.old.me.0.ground ≡ Some (T.ground value.value) }
    requires names { seat.old.me.0.number ≡ Some (T.number made) }
    requires stands { T.stands value.value (seat.old.me.0.seen ++ made ∷ []) }
    ensures same { IsSameSeat seat.old seat.new }
    ensures left { seat.new.me ≡ (
      record seat.old.me.0 {
        seen = seat.old.me.0.seen ++ made ∷ [];
        mine = seat.old.me.0.mine ++ made ∷ [];
        stage = Idle;
      },
      [],
    ) }
    ensures count { (result ≡ length seat.old.me.0.seen) × (result + 1 < 18446744073709551616) }
{
    let held = Held {
        value,
        made: Some(made),
    };
    let out = board.exchange(seat, 0, Some(held));
    let None = out else { unreachable!() };
    board.fetch_add::<Publish>(seat, 1, 1)
}

/// A seat for one more pass.
pub(crate) fn another<T: Stands>(board: &Board<T>, seat: &mut Place<T>) -> Place<T>
    requires table { (seat.old.table_id ≡ board.now.table_id) × IsSized board.now.table_id }
    requires spare { 0 < seat.old.me.0.spare }
    ensures same { IsSameSeat seat.old seat.new
        × (seat.new.me ≡ (elder seat.old.me.0, seat.old.me.1)) }
    ensures other { (result.table_id ≡ seat.old.table_id)
        × (result.me ≡ (newer seat.old.me.0, [])) }
{
    board.split_seat::<Another>(seat)
}

/// A seat that keeps what was seen.
pub(crate) fn note_of<T: Stands>(board: &Board<T>, seat: &mut Place<T>) -> Place<T>
    requires table { (seat.old.table_id ≡ board.now.table_id) × IsSized board.now.table_id }
    ensures same { IsSameSeat seat.old seat.new × (seat.new.me ≡ seat.old.me) }
    ensures other { (result.table_id ≡ seat.old.table_id)
        × (result.me ≡ (noted seat.old.me.0, [])) }
{
    board.split_seat::<Noting>(seat)
}

/// Joins a note with a pass.
pub(crate) fn join<T: Stands>(board: &Board<T>, seat: &mut Place<T>, note: Place<T>)
    requires table { (seat.old.table_id ≡ board.now.table_id) × IsSized board.now.table_id }
    requires note { (note.table_id ≡ board.now.table_id) × (note.me.1 ≡ [])
        × (note.me.0.number ≡ None) × (note.me.0.stage ≡ Idle) }
    ensures same { IsSameSeat seat.old seat.new
        × (seat.new.me ≡ (joined_view seat.old.me.0 note.me.0, seat.old.me.1)) }
    ensures told { Told T.number seat.new.me.0 }
{
    board.join_seat::<Meeting>(seat, note);
    board.load::<Met<T>>(seat, 1);
}
