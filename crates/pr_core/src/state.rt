ghost use Rattle.std.specs.Prelude.{◌≡◌, ◌≤◌, ◌^◌, ℕ, Bool, List, Some, None, is_some, true, not, ◌==◌, length, IfOk, IsTrue, All};
ghost use Rattle.pr_words.specs.declared.nexus.Nexus.{Nexus};
ghost use Rattle.pr_words.specs.declared.limits.TheConstants.{LIMIT};
ghost use Rattle.pr_grammar.specs.Standings.{is_registered};
ghost use Rattle.pr_model.specs.Worlds.{Blocks, opened};
ghost use Rattle.pr_model.specs.Registrants.{IsAscending, IsSound};
ghost use Rattle.pr_model.specs.Entries.{entry, Login, Logout, Step, Login_code, Left};
ghost use Rattle.pr_table.specs.Tables.{standing_of, limit_of};
ghost use Rattle.pr_tasks.specs.Steps.{LeavesBlock};
ghost use Rattle.pr_core.specs.Seats.{seat_of};
ghost use Rattle.pr_core.specs.Fitting.{AllFit, AreOwned, HavePorts, is_one_fact};
ghost use Rattle.pr_core.specs.Stepping.{Keeps};

use crate::seats::Seats;
use pr_io::Medium;
use pr_table::{Kept, Table};
use pr_tasks::StepOut;
use pr_words::{LIMIT, Nexus};
use std::alloc::{AllocError, Global};

/// What the target knows: registrations, reservation, nexuses and their tasks, over a medium of so
/// many blocks. Each registered nexus is known, and each that has a task is logged in. All memory
/// is taken by `restored`.
#[derive(Drop)]
pub struct State {
    pub table: Table,
    /// Where a PERSISTENT RESERVE OUT acts before it is saved.
    pub spare: Table,
    pub seats: Seats,
    pub blocks: u64,
    ghost limit: { limit_of table ≡ LIMIT },
    ghost same_limit: { limit_of spare ≡ LIMIT },
    ghost within: { length (standing_of table).pairs ≤ LIMIT },
    ghost ascending: { IsAscending (standing_of table).pairs },
    ghost keys: { All (λ p. IsTrue (not (p.key.0 == 0))) (standing_of table).pairs },
    ghost sound: { IsSound (standing_of table) } by { is_one_fact (standing_of table) },
    ghost seated: { (n : Nexus) → is_registered (standing_of table).pairs n ≡ true → is_some (seat_of seats n) ≡ true },
    ghost ports: { HavePorts (seat_of seats) },
    ghost fits: { AllFit blocks (seat_of seats) },
    ghost owned: { AreOwned (seat_of seats) },
    ghost some: { 1 ≤ blocks },
    ghost most: { blocks ≤ 2 ^ 40 },
}

impl State {
    ghost use Rattle.pr_aptpl.specs.Doubts.{IsKeepable};
    ghost use Rattle.pr_core.specs.States.{Depicts, Enters, EntersOver, owner_at, progress_at, KeepsOthersAt};
    ghost use Rattle.pr_core.specs.Outs.{step_out, IsCarried, Progresses};

    /// After a power-up that restored this: nobody is logged in. All memory is taken here.
    pub fn restored(alloc: Global, kept: &Kept, blocks: u64) -> Result<State, AllocError>
        requires keepable { IsKeepable kept.now }
        requires some { 1 ≤ blocks }
        requires most { blocks ≤ 2 ^ 40 }
        ensures depicts { IfOk result (λ s. (m : Blocks) (tells : Bool) → m.count ≡ blocks
            → Depicts s (opened m tells kept.now)) }
        ensures blocks { IfOk result (λ s. s.blocks ≡ blocks) }
    {
        let table = Table::from_kept(alloc, kept, LIMIT)?;
        let spare = Table::new(alloc, LIMIT)?;
        let seats = Seats::known(alloc, &table)?;
        Ok(State {
            table,
            spare,
            seats,
            blocks,
        })
    }

    /// The code of the first refusal that applies, or 0.
    pub fn login(&mut self, who: u64, version: u8, nexus: Nexus) -> u8
        ensures enters { Enters self.old self.new
            (entry who nexus (Login version) (Login_code result)) }
        ensures accepted { result ≡ 0 → owner_at self.new nexus ≡ Some who }
        ensures idle { result ≡ 0 → progress_at self.new nexus ≡ None }
        ensures refused { (result ≡ 0 → ⊥) → self.new ≡ self.old }
        ensures others { KeepsOthersAt who self.old self.new }
        ensures blocks { self.new.blocks ≡ self.old.blocks }
    {
        if version != 1 {
            return 4;
        }
        if nexus.port == 0 || nexus.port > 16 {
            return 2;
        }
        if self.seats.owner(nexus).is_some() {
            return 1;
        }
        if self.seats.is_full() && !self.seats.is_known(nexus) {
            return 3;
        }
        self.seats.log_in(who, nexus);
        0
    }

    pub fn logout(&mut self, who: u64, nexus: Nexus)
        requires { owner_at self.old nexus ≡ Some who }
        ensures enters { Enters self.old self.new (entry who nexus Logout Left) }
        ensures others { KeepsOthersAt who self.old self.new }
        ensures blocks { self.new.blocks ≡ self.old.blocks }
    {
        self.seats.log_out(nexus);
    }

    /// One step of the task of a nexus.
    pub fn step<M: Medium>(
        &mut self,
        nexus: Nexus,
        medium: &mut M,
        block: &mut [u8; 512],
    ) -> StepOut
        requires task { is_some (progress_at self.old nexus) ≡ true }
        requires size { M.count medium.old ≡ self.old.blocks }
        ensures enters { (who : ℕ) (sent : List ℕ) → owner_at self.old nexus ≡ Some who
            → IsCarried result sent block.old
            → EntersOver (M.contents medium.old) (M.contents medium.new) self.old self.new
            (entry who nexus (Step sent) (step_out result block.new)) }
        ensures owner { owner_at self.new ≡ owner_at self.old }
        ensures progress { Progresses result (progress_at self.old nexus)
            (progress_at self.new nexus) }
        ensures kept { LeavesBlock result block.old block.new }
        ensures others { (who : ℕ) → owner_at self.old nexus ≡ Some who
            → KeepsOthersAt who self.old self.new }
        ensures medium { Keeps M.Medium medium.old medium.new result }
        ensures blocks { self.new.blocks ≡ self.old.blocks }
    {
        self.seats.step(nexus, medium, block)
    }
}
