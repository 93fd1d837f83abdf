ghost use Rattle.std.specs.Prelude.{◌≡◌, ◌⊎◌, ◌+◌, ◌<◌, ◌≤◌, true, not, nat_lt, Some, None, is_some, IfOk, IfSome, option_map, map, slice_get, length, vec_len, vec_capacity, if◌then◌else◌};
ghost use Rattle.pr_words.specs.declared.nexus.Nexus.{Nexus};
ghost use Rattle.pr_words.specs.declared.limits.TheConstants.{KNOWN};
ghost use Rattle.pr_model.specs.Worlds.{set_at};
ghost use Rattle.pr_model.specs.Attentions.{is_attention};
ghost use Rattle.pr_table.specs.Tables.{standing_of, removed_of};
ghost use Rattle.pr_core.specs.Places.{IsAscending, IsPlace, Divides};
ghost use Rattle.pr_core.specs.Telling.{told_seat, marked_seat};
ghost use Rattle.pr_core.specs.Stepping.{Did, HasWithin, Keeps, is_moving, task_after, with_task};

use pr_io::Medium;
use pr_param::Registrants;
use pr_rules::Attentions;
use pr_table::{Change, Table};
use pr_tasks::{StepOut, Task};
use pr_words::{Code, KNOWN, Nexus, is_same, stands_before};
use std::alloc::{AllocError, Global};

/// A nexus that is known.
#[derive(Drop)]
pub struct Seat {
    pub nexus: Nexus,
    /// Who has it logged in.
    pub owner: Option<u64>,
    /// The unit attentions that wait for it.
    pub attentions: Attentions,
    /// Its READ or WRITE under way.
    pub task: Option<Task>,
}

/// The known nexuses, in their order. The memory of all is taken by `known`.
#[derive(Drop)]
pub struct Seats {
    items: Vec<Seat>,
    ghost ascending: { IsAscending items.items },
    ghost within: { vec_len items ≤ KNOWN },
    ghost room: { KNOWN ≤ vec_capacity items },
}

impl Seats {
    ghost use Rattle.pr_core.specs.Seats.{seat_of, count_of, owner_in, attentions_in, task_in, logged_in, logged_out, told_first, new_seat};
    ghost use Rattle.pr_grammar.specs.Standings.{is_registered};

    /// Those of the registered nexuses, none of whom is logged in.
    pub fn known(alloc: Global, table: &Table) -> Result<Seats, AllocError>
        requires { length (standing_of table.now).pairs ≤ KNOWN }
        ensures seat { IfOk result (λ s. seat_of s ≡ (λ n.
            if is_registered (standing_of table.now).pairs n then Some (new_seat n) else None)) }
        ensures count { IfOk result (λ s. count_of s ≡ length (standing_of table.now).pairs) }
    {
        Ok(Seats {
            items: Seats::new_seats(alloc, table)?,
        })
    }

    /// A seat for each registered nexus, with room for all that can be known.
    fn new_seats(alloc: Global, table: &Table) -> Result<Vec<Seat>, AllocError>
        requires { length (standing_of table.now).pairs ≤ KNOWN }
        ensures seats { IfOk result (λ s. s.items ≡ map (λ p. new_seat p.nexus)
            (standing_of table.now).pairs) }
        ensures order { IfOk result (λ s. IsAscending s.items) }
        ensures room { IfOk result (λ s. KNOWN ≤ vec_capacity s) }
    {
        let mut seats = Vec::with_capacity(alloc, KNOWN)?;
        while seats.len() < table.count() {
            let (nexus, _) = table.at(seats.len());
            seats.push(Seat::new(nexus))?;
        }
        Ok(seats)
    }

    /// The place of the seat of a nexus, or else the place where it would stand.
    fn place_of(&self, nexus: Nexus) -> Result<usize, usize>
        ensures { IsPlace self.now.items.items nexus result }
    {
        place_of(self.items.as_slice(), nexus)
    }

    /// Whether no further nexus can be known.
    pub fn is_full(&self) -> bool
        ensures { result ≡ not (nat_lt (count_of self.now) KNOWN) }
    {
        self.items.len() >= KNOWN
    }

    /// Whether a nexus is known.
    pub fn is_known(&self, nexus: Nexus) -> bool
        ensures { result ≡ is_some (seat_of self.now nexus) }
    {
        self.place_of(nexus).is_ok()
    }

    /// Who has a nexus logged in.
    pub fn owner(&self, nexus: Nexus) -> Option<u64>
        ensures { result ≡ owner_in (seat_of self.now nexus) }
    {
        match self.place_of(nexus) {
            Ok(place) => self.items[place].owner,
            Err(_) => None,
        }
    }

    /// A nexus is logged in, and known from then on.
    pub fn log_in(&mut self, who: u64, nexus: Nexus)
        requires { is_some (seat_of self.old nexus) ≡ true ⊎ count_of self.old < KNOWN }
        ensures seat { seat_of self.new ≡ set_at (seat_of self.old) nexus
            (Some (logged_in who nexus (seat_of self.old nexus))) }
        ensures count { count_of self.new
            ≡ (if is_some (seat_of self.old nexus) then count_of self.old else count_of self.old + 1) }
    {
        match self.place_of(nexus) {
            Ok(place) => self.items[place].owner = Some(who),
            Err(place) => {
                let _ = self.items.insert(
                    place,
                    Seat {
                        nexus,
                        owner: Some(who),
                        attentions: Attentions::fresh(),
                        task: None,
                    },
                );
            }
        }
    }

    /// A nexus is logged out, and its task is gone.
    pub fn log_out(&mut self, nexus: Nexus)
        ensures seat { seat_of self.new ≡ set_at (seat_of self.old) nexus
            (option_map logged_out (seat_of self.old nexus)) }
        ensures count { count_of self.new ≡ count_of self.old }
    {
        if let Ok(place) = self.place_of(nexus) {
            let seat = &mut self.items[place];
            seat.owner = None;
            seat.task = None;
        }
    }

    /// Whether a task of a nexus runs.
    pub fn has_task(&self, nexus: Nexus) -> bool
        ensures { result ≡ is_some (task_in (seat_of self.now nexus)) }
    {
        match self.place_of(nexus) {
            Ok(place) => self.items[place].task.is_some(),
            Err(_) => false,
        }
    }

    /// A task of a known nexus begins.
    pub fn begin(&mut self, nexus: Nexus, task: Task)
        ensures seat { seat_of self.new ≡ set_at (seat_of self.old) nexus
            (option_map (with_task (Some task)) (seat_of self.old nexus)) }
        ensures count { count_of self.new ≡ count_of self.old }
    {
        if let Ok(place) = self.place_of(nexus) {
            self.items[place].task = Some(task);
        }
    }

    /// One step of the task of a nexus, between the medium and the block.
    pub fn step<M: Medium>(
        &mut self,
        nexus: Nexus,
        medium: &mut M,
        block: &mut [u8; 512],
    ) -> StepOut
        requires { HasWithin (M.count medium.old) (task_in (seat_of self.old nexus)) }
        ensures did { IfSome (task_in (seat_of self.old nexus)) (λ t. Did t result
            (M.contents medium.old) (M.contents medium.new) block.old block.new) }
        ensures seat { IfSome (task_in (seat_of self.old nexus)) (λ t. seat_of self.new
            ≡ set_at (seat_of self.old) nexus
            (option_map (with_task (task_after result t)) (seat_of self.old nexus))) }
        ensures count { count_of self.new ≡ count_of self.old }
        ensures medium { Keeps M.Medium medium.old medium.new result }
    {
        match self.place_of(nexus) {
            Ok(place) => self.items[place].step(medium, block),
            Err(_) => unreachable!(),
        }
    }

    /// Takes the attention of a known nexus that is reported first.
    pub fn take_attention(&mut self, nexus: Nexus) -> Option<Code>
        requires { is_some (seat_of self.old nexus) ≡ true }
        ensures first { result ≡ slice_get (attentions_in (seat_of self.old nexus)) 0 }
        ensures known { IfSome result (λ c. is_attention c ≡ true) }
        ensures seat { seat_of self.new ≡ set_at (seat_of self.old) nexus
            (option_map told_first (seat_of self.old nexus)) }
        ensures count { count_of self.new ≡ count_of self.old }
    {
        match self.place_of(nexus) {
            Ok(place) => self.items[place].attentions.take(),
            Err(_) => None,
        }
    }

    /// Raises the attentions of a PERSISTENT RESERVE OUT that the table has served last.
    pub fn tell(&mut self, caller: Nexus, table: &Table, change: &Change)
        requires stay { (c : Code) → change.now.stay_code ≡ Some c → is_attention c ≡ true }
        requires gone { (c : Code) → change.now.removed_code ≡ Some c → is_attention c ≡ true }
        ensures seat { seat_of self.new ≡ (λ n. option_map
            (told_seat caller (standing_of table.now).pairs change.now.stay_code
            (removed_of table.now) change.now.removed_code) (seat_of self.old n)) }
        ensures count { count_of self.new ≡ count_of self.old }
    {
        if change.stay_code.is_none() && change.removed_code.is_none() {
            return;
        }
        tell_each(self.items.as_mut_slice(), caller, table, change);
    }

    /// Marks the tasks of the nexuses that a PERSISTENT RESERVE OUT removed, which the table has
    /// served last, where they are to be aborted.
    pub fn mark(&mut self, table: &Table, change: &Change)
        ensures seat { seat_of self.new ≡ (λ n. option_map
            (marked_seat change.now.abort (removed_of table.now)) (seat_of self.old n)) }
        ensures count { count_of self.new ≡ count_of self.old }
    {
        mark_each(self.items.as_mut_slice(), table, change);
    }
}

/// The place of the seat of a nexus, or else the place where it would stand.
fn place_of(seats: &[Seat], nexus: Nexus) -> Result<usize, usize>
    requires { IsAscending seats.now }
    ensures { IsPlace seats.now nexus result }
{
    let place = first_not_before(seats, nexus);
    if place == seats.len() {
        return Err(place);
    }
    if is_same(&seats[place].nexus, &nexus) {
        Ok(place)
    } else {
        Err(place)
    }
}

/// The number of seats whose nexuses come before this one.
fn first_not_before(seats: &[Seat], nexus: Nexus) -> usize
    requires { IsAscending seats.now }
    ensures { Divides seats.now nexus result }
{
    seats.partition_point(|seat| stands_before(&seat.nexus, &nexus))
}

/// Raises what the nexus of each seat is told.
fn tell_each(seats: &mut [Seat], caller: Nexus, table: &Table, change: &Change)
    requires stay { (c : Code) → change.now.stay_code ≡ Some c → is_attention c ≡ true }
    requires gone { (c : Code) → change.now.removed_code ≡ Some c → is_attention c ≡ true }
    ensures { seats.new ≡ map (told_seat caller (standing_of table.now).pairs change.now.stay_code
        (removed_of table.now) change.now.removed_code) seats.old }
{
    for seat in seats.iter_mut() {
        seat.tell(caller, table, change);
    }
}

/// Marks the task of each seat whose nexus was removed.
fn mark_each(seats: &mut [Seat], table: &Table, change: &Change)
    ensures { seats.new ≡ map (marked_seat change.now.abort (removed_of table.now)) seats.old }
{
    for seat in seats.iter_mut() {
        seat.mark(table, change);
    }
}

/// Whether a task goes on after such a step.
fn goes_on(out: StepOut) -> bool
    ensures { result ≡ is_moving out }
{
    matches!(out, StepOut::Wrote { .. } | StepOut::Read { .. })
}

impl Seat {
    ghost use Rattle.pr_core.specs.Seats.{new_seat};

    /// That of a nexus that the power-up made known.
    fn new(nexus: Nexus) -> Seat
        ensures { result ≡ new_seat nexus }
    {
        Seat {
            nexus,
            owner: None,
            attentions: Attentions::fresh(),
            task: None,
        }
    }

    /// Marks its task, where its nexus was removed and tasks are aborted.
    fn mark(&mut self, table: &Table, change: &Change)
        ensures { self.new ≡ marked_seat change.now.abort (removed_of table.now) self.old }
    {
        if change.abort
            && let Some(task) = &mut self.task
            && table.was_removed(self.nexus)
        {
            task.abort();
        }
    }

    /// One step of its task.
    fn step<M: Medium>(&mut self, medium: &mut M, block: &mut [u8; 512]) -> StepOut
        requires { HasWithin (M.count medium.old) self.old.task }
        ensures did { IfSome self.old.task (λ t. Did t result
            (M.contents medium.old) (M.contents medium.new) block.old block.new) }
        ensures seat { IfSome self.old.task (λ t. self.new
            ≡ with_task (task_after result t) self.old) }
        ensures medium { Keeps M.Medium medium.old medium.new result }
    {
        let Some(task) = &mut self.task else {
            unreachable!()
        };
        let out = task.step(medium, block);
        if !goes_on(out) {
            self.task = None;
        }
        out
    }

    /// Raises what its nexus is told.
    fn tell(&mut self, caller: Nexus, table: &Table, change: &Change)
        requires stay { (c : Code) → change.now.stay_code ≡ Some c → is_attention c ≡ true }
        requires gone { (c : Code) → change.now.removed_code ≡ Some c → is_attention c ≡ true }
        ensures { self.new ≡ told_seat caller (standing_of table.now).pairs change.now.stay_code
            (removed_of table.now) change.now.removed_code self.old }
    {
        if is_same(&self.nexus, &caller) {
            return;
        }
        if let Some(code) = change.removed_code
            && table.was_removed(self.nexus)
        {
            self.attentions.raise(code);
        }
        if let Some(code) = change.stay_code
            && table.is_registered(self.nexus)
        {
            self.attentions.raise(code);
        }
    }
}
