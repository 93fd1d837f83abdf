//! The calls of a gate.
ghost use Rattle.std.specs.Prelude.{◌≡◌, ◌≢◌, ℕ, ◌≤◌, ◌+◌, ◌<◌, ◌-◌, ◌^◌, [], ◌∷◌, ◌++◌, Some, None, IfOk, IfErr, IsSome, length};
ghost use Rattle.std.specs.Borrow.{sem};
ghost use mathlib.Core.List.{IsPrefix};
ghost use Rattle.pr_gate.specs.Entries.{longer, own};
ghost use Rattle.pr_gate.specs.Lending.{LendsValue};
ghost use Rattle.pr_gate.specs.Passes.{IsOf, IsNoteOf, number_of, seen_of, own_of, ground_of, spare_of, IsFree, IsInside, noted_of, note_ground_of, IsRetiredOf, retired_number, retired_seen, retired_own, IsSamePass, IsUnchanged, HasMade, IsLeft};

use crate::latch::Latch;
use crate::pass::{Gate, Note, Pass, Retired, Spent, Turn, Unreturned};
use crate::stands::Stands;
use crate::steps::{TICKET_LIMIT, another, draw, join, note_of, permit, publish, take_out, wait};
use crate::view::Held;
use atomic_table::{Refused, Table};
use std::alloc::{AllocFailed, Global};
use std::snapshot::Snapshot;
use std::sync::Wait;

impl<T> Turn<T> {
    /// Lends the value, to be read and changed.
    pub fn value(&mut self) -> &mut T
        ensures* writes_back { sem 𝓛 (LendsValue T.row self.entry result) }
        ensures value { result.now ≡ self.old.value.value }
    {
        &mut *self.value
    }
}

impl<T: Stands> Pass<T> {
    /// The number by which entries name this pass; 0 for the first pass of a gate, and for no
    /// other.
    pub fn number(&self) -> u64
        ensures { result ≡ number_of self.now }
    {
        self.number
    }

    /// How many entries the pass has seen. The pass keeps the number, so this takes no atomic step.
    pub fn length(&self) -> u64
        ensures { result ≡ length (seen_of self.now) }
    {
        self.count
    }
}

impl<T: Stands> Pass<T> {
    /// Gives the pass up, which has no turn. `Gate::settle` tells later what it made.
    pub fn retire(self) -> Retired<T>
        requires free { IsFree self }
        ensures gate { result.seat.table_id ≡ self.seat.table_id }
        ensures number { retired_number result ≡ Some (number_of self) }
        ensures lists { (retired_seen result ≡ seen_of self) × (retired_own result ≡ own_of self) }
    {
        let Pass {
            seat,
            number: _,
            next: _,
            count: _,
        } = self;
        Retired { seat }
    }
}

impl<T: Stands> Gate<T> {
    /// Makes a gate over a value that stands for no entries yet, with the gate's first pass, which
    /// can make 2^62 others. For want of memory the value comes back.
    pub fn new(alloc: Global, value: T) -> Result<(Gate<T>, Pass<T>), T>
        requires { T.stands value [] }
        ensures pass { IfOk result (λ made. IsOf made.0 made.1 × IsFree made.1) }
        ensures lists { IfOk result (λ made. (seen_of made.1 ≡ []) × (own_of made.1 ≡ [])) }
        ensures number { IfOk result (λ made. (number_of made.1 ≡ 0) × (spare_of made.1 ≡ 2 ^ 62)) }
        ensures ground { IfOk result (λ made. ground_of made.1 ≡ Some (T.ground value)) }
        ensures back { IfErr result (λ back. back ≡ value) }
    {
        let Ok(latch) = Latch::hung(alloc) else {
            return Err(value);
        };
        let about = Snapshot::of(&value);
        let boxed = boxed(alloc, value)?;
        let slots = row_of(alloc, boxed)?;
        match Table::new(alloc, &[0, 0], slots, &about) {
            Ok((table, seat)) => {
                let pass = Pass {
                    seat,
                    number: 0,
                    next: 1,
                    count: 0,
                };
                Ok((Gate { table, latch }, pass))
            }
            Err(Refused { mut slots }) => {
                let held = slots.pop().unwrap();
                slots.destroy_empty();
                Err(value_of(held))
            }
        }
    }

    /// Makes one more pass, as for one more thread, which has seen what `pass` has and made no
    /// entry. Only the first pass of a gate can make others. `pass` may have a turn meanwhile.
    pub fn new_pass(&self, pass: &mut Pass<T>) -> Pass<T>
        requires gate { IsOf self.now pass.old }
        requires spare { 0 < spare_of pass.old }
        ensures gate { IsOf self.now pass.new × IsOf self.now result }
        ensures made { HasMade pass.old pass.new }
        ensures free { IsFree result × (spare_of result ≡ 0) }
        ensures ground { ground_of result ≡ ground_of pass.old }
        ensures lists { (seen_of result ≡ seen_of pass.old) × (own_of result ≡ []) }
        ensures new { number_of result + spare_of pass.old ≡ 2 ^ 62 + 1 }
        ensures differs { number_of result ≢ number_of pass.old }
    {
        let seat = another(&self.table.shared, &mut pass.seat);
        let number = pass.next;
        pass.next += 1;
        Pass {
            seat,
            number,
            next: TICKET_LIMIT + 1,
            count: pass.count,
        }
    }

    /// Waits for a turn, spinning for a short time before it sleeps.
    ///
    /// The value stands for all that was published so far, which the pass has then seen. Give it
    /// back by `leave` soon: all other threads wait for it. `Spent` means that 2^62 turns were
    /// taken; the gate gives no more.
    pub fn enter<R: Wait>(&self, rt: &R, pass: &mut Pass<T>) -> Result<Turn<T>, Spent>
        requires gate { IsOf self.now pass.old }
        requires free { IsFree pass.old }
        ensures same { IsSamePass pass.old pass.new }
        ensures inside { IfOk result (λ _. IsInside pass.new) }
        ensures value { IfOk result (λ turn. T.stands turn.value.value (seen_of pass.new)) }
        ensures ground { IfOk result (λ turn. ground_of pass.new ≡ Some (T.ground turn.value.value)) }
        ensures begins { IfOk result (λ _. IsPrefix (seen_of pass.old) (seen_of pass.new)) }
        ensures own { IfOk result (λ _. own_of pass.new ≡ own_of pass.old) }
        ensures spent { IfErr result (λ spent. (2 ^ 62 ≤ spent.ticket)
            × IsUnchanged pass.old pass.new) }
    {
        self.latch.lock(rt);
        if let Some(ticket) = permit(&self.table.shared, &mut pass.seat) {
            self.latch.unlock();
            return Err(Spent { ticket });
        }
        let ticket = draw(&self.table.shared, &mut pass.seat);
        wait(&self.table.shared, rt, &mut pass.seat, ticket);
        pass.count = ticket;
        let value = take_out(&self.table.shared, &mut pass.seat);
        Ok(Turn { value })
    }

    /// Gives the value back, changed by the one entry `made`, and ends the turn. The entry is then
    /// published: each later turn of any thread has it. It wakes another thread only where one may
    /// sleep.
    pub fn leave(&self, pass: &mut Pass<T>, turn: Turn<T>, made: T::Entry)
        requires gate { IsOf self.now pass.old }
        requires inside { IsInside pass.old }
        requires ground { ground_of pass.old ≡ Some (T.ground turn.value.value) }
        requires number { T.number made ≡ number_of pass.old }
        requires stands { T.stands turn.value.value (seen_of pass.old ++ made ∷ []) }
        ensures same { IsSamePass pass.old pass.new }
        ensures free { IsFree pass.new }
        ensures seen { seen_of pass.new ≡ seen_of pass.old ++ made ∷ [] }
        ensures own { own_of pass.new ≡ own_of pass.old ++ made ∷ [] }
    {
        let Turn { value } = turn;
        let before = publish(&self.table.shared, &mut pass.seat, value, made);
        pass.count = before + 1;
        self.latch.unlock();
    }

    /// Notes what the pass has seen, for another pass to `meet`. It may have a turn meanwhile.
    pub fn note(&self, pass: &mut Pass<T>) -> Note<T>
        requires gate { IsOf self.now pass.old }
        ensures same { IsUnchanged pass.old pass.new }
        ensures gate { IsNoteOf self.now result }
        ensures note { noted_of result ≡ seen_of pass.old }
        ensures ground { note_ground_of result ≡ ground_of pass.old }
    {
        let count = pass.count;
        let seat = note_of(&self.table.shared, &mut pass.seat);
        Note { seat, count }
    }

    /// Lets the pass see what the note has seen too. Both are beginnings of one history, so the
    /// longer of them has the other in it. A pass that has a turn has seen all there is.
    pub fn meet(&self, pass: &mut Pass<T>, note: Note<T>)
        requires gate { IsOf self.now pass.old × IsNoteOf self.now note }
        ensures same { IsSamePass pass.old pass.new }
        ensures seen { seen_of pass.new ≡ longer (seen_of pass.old) (noted_of note) }
        ensures begins { IsPrefix (seen_of pass.old) (seen_of pass.new) }
        ensures noted { IsPrefix (noted_of note) (seen_of pass.new) }
        ensures own { own_of pass.new ≡ own_of pass.old }
        ensures free { IsFree pass.old → IsFree pass.new }
        ensures inside { IsInside pass.old → IsInside pass.new }
        ensures whole { IsInside pass.old → seen_of pass.new ≡ seen_of pass.old }
    {
        let Note { seat, count } = note;
        join(&self.table.shared, &mut pass.seat, seat);
        if pass.count < count {
            pass.count = count;
        }
    }

    /// Lets it be known what a retired pass made: of all that `pass` has seen by now, which has what
    /// the retired one had seen, just its own entries name its number.
    pub fn settle(&self, retired: Retired<T>, pass: &mut Pass<T>)
        requires gate { IsOf self.now pass.old × IsRetiredOf self.now retired }
        requires seen { IsPrefix (retired_seen retired) (seen_of pass.old) }
        ensures same { IsUnchanged pass.old pass.new }
        ensures own { (n : ℕ) → retired_number retired ≡ Some n
            → own T.number n (seen_of pass.new) ≡ retired_own retired }
    {
        let Retired { mut seat } = retired;
        let note = note_of(&self.table.shared, &mut pass.seat);
        join(&self.table.shared, &mut seat, note);
        drop(seat);
    }

    /// Ends the gate and gives the value back, or says that a turn is out, with which the value is
    /// lost.
    pub fn close(self, pass: Pass<T>) -> Result<T, Unreturned>
    where
        T: Drop,
        requires gate { IsOf self pass }
        ensures value { IfOk result (λ value. IsLeft T.number T.ground T.stands pass value) }
        ensures lost { IfErr result (λ lost. (length (seen_of pass) ≤ lost.serving)
            × (lost.serving < lost.ticket)) }
    {
        let Gate { table, latch: _ } = self;
        let Pass {
            seat,
            number: _,
            next: _,
            count: _,
        } = pass;
        let mut closed = table.close_with(seat);
        let ticket = closed.word(0);
        let serving = closed.word(1);
        let slot = closed.take(0);
        closed.free();
        if ticket == serving {
            Ok(value_of(slot))
        } else {
            drop(slot);
            Err(Unreturned { serving, ticket })
        }
    }
}

// The value, of a slot that has one.
fn value_of<T, E: Drop>(held: Option<Held<T, E>>) -> T
    requires { IsSome held }
    ensures { (x : Held T E) → held ≡ Some x → result ≡ x.value.value }
{
    let Held { value, made: _ } = held.unwrap();
    Box::into_inner(value)
}

// The value in a box; for want of memory it comes back.
fn boxed<T>(alloc: Global, value: T) -> Result<Box<T>, T>
    ensures boxed { IfOk result (λ boxed. boxed.value ≡ value) }
    ensures back { IfErr result (λ back. back ≡ value) }
{
    match Box::new(alloc, value) {
        Ok(boxed) => Ok(boxed),
        Err(AllocFailed { value }) => Err(value),
    }
}

// The one slot of a table, with the value and no entry.
fn row_of<T, E: Drop>(alloc: Global, value: Box<T>) -> Result<Vec<Option<Held<T, E>>>, T>
    ensures row { IfOk result (λ row. row.items ≡ Some (record { value = value; made = None })
        ∷ []) }
    ensures back { IfErr result (λ back. back ≡ value.value) }
{
    let mut row = Vec::new(alloc);
    let held = Held { value, made: None };
    if let Err(AllocFailed { value: held }) = row.push(Some(held)) {
        row.destroy_empty();
        return Err(value_of(held));
    }
    Ok(row)
}
