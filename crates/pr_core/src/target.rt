ghost use Rattle.std.specs.Prelude.{◌≡◌, ◌<◌, ◌≤◌, ◌∷◌, ◌^◌, [], ℕ, Bool, List, Some, None, is_some, true, false, IfOk, IfErr, MatchResult, length, take};
ghost use Rattle.pr_model.specs.Worlds.{Blocks, World, opened};
ghost use Rattle.pr_model.specs.Keeping.{Kept as Kepts};
ghost use Rattle.pr_grammar.specs.Files.{file_head, file_layout};
ghost use Rattle.pr_io.specs.Images.{Stays};
ghost use Rattle.pr_words.specs.declared.limits.TheConstants.{DATA};
ghost use Rattle.pr_aptpl.specs.Opens.{FailsAt, IsFaultOf};
ghost use Rattle.pr_aptpl.specs.Doubts.{IsKeepable};
ghost use Rattle.pr_aptpl.specs.Keepers as keepers;
ghost use Rattle.pr_model.specs.Entries.{entry, power_up, Login, Command, Step, Logout, Login_code, Left};
ghost use Rattle.pr_model.specs.Histories.{AreBlocksOf};
ghost use Rattle.pr_tasks.specs.Steps.{LeavesBlock};
ghost use Rattle.pr_core.specs.States.{Depicts};
ghost use Rattle.pr_core.specs.Outs.{out_of, step_out, IsCarried, IsFed, IsProper, Begins, Progresses, LeavesData};

use crate::answers::CommandOut;
use crate::state::State;
use pr_aptpl::{Keeper, OpenFault};
use pr_io::{Disk, Medium};
use pr_table::Kept;
use pr_tasks::StepOut;
use pr_words::Nexus;
use std::alloc::Global;

/// With what a target was opened: what its disk had kept, and how often its devices had failed.
#[derive(Drop)]
pub struct Opening {
    pub kept: Kept,
    pub medium_faults: u64,
    pub disk_faults: u64,
}

/// A target over a medium, and over a disk that keeps what outlives a power loss.
#[derive(Drop)]
pub struct Core<M: Medium, D: Disk> {
    medium: M,
    keeper: Keeper<D>,
    opening: Opening,
    state: State,
    ghost size: { M.count medium ≡ state.blocks },
}

/// What the disk has kept, and what a target over a medium of so many blocks knows after a power-up
/// that restored it.
fn restore<D: Disk>(
    alloc: Global,
    disk: D,
    blocks: u64,
) -> Result<(Keeper<D>, State, Kept), (OpenFault, D)>
    requires some { 1 ≤ blocks }
    requires most { blocks ≤ 2 ^ 40 }
    ensures opens { IfOk result (λ r. keepers.Opens (D.story disk) r.0 r.2) }
    ensures sound { IfOk result (λ r. IsKeepable r.2) }
    ensures depicts { IfOk result (λ r. (m : Blocks) (tells : Bool) → m.count ≡ blocks
        → Depicts r.1 (opened m tells r.2)) }
    ensures blocks { IfOk result (λ r. r.1.blocks ≡ blocks) }
    ensures calm { IfOk result (λ r. (D.faults (keepers.disk_of r.0) ≡ D.faults disk)
        × (keepers.is_in_doubt r.0 ≡ false)) }
    ensures reference { MatchResult result
        (λ r. D.reference (keepers.disk_of r.0) ≡ D.reference disk)
        (λ e. D.reference e.1 ≡ D.reference disk) }
    ensures fails { IfErr result (λ e. FailsAt file_head file_layout e.0 (D.story disk)
        × Stays (D.story disk) (D.story e.1)) }
    ensures fault { IfErr result (λ e. IsFaultOf e.0 (D.faults disk) (D.faults e.1)) }
{
    let (keeper, kept) = Keeper::open(alloc, disk)?;
    match State::restored(alloc, &kept, blocks) {
        Ok(state) => Ok((keeper, state, kept)),
        Err(_) => Err((OpenFault::OutOfMemory, keeper.into_disk())),
    }
}

impl<M: Medium, D: Disk> Core<M, D> {
    ghost use Rattle.pr_core.specs.View.{StandsFor, IsUntold, Opens, medium_of, disk_of, story_of, blocks_of, opening_of, owner_of, progress_of, KeepsOthers, Extends};

    /// The target after a power-up, with what the disk has kept (SPC-4, preserving persistent
    /// reservations). All memory is taken here: of 64 registrations and of 256 known nexuses. The
    /// disk is synced and read; nothing is written, and the medium isn't touched.
    ///
    /// # Errors
    ///
    /// `BadFile` where what was read isn't a registrations' file, `DiskFault` where the disk has
    /// failed, and want of memory, each with the parts handed back.
    pub fn open(alloc: Global, medium: M, disk: D) -> Result<Core<M, D>, (OpenFault, M, D)>
        ensures stands { IfOk result (λ c. (m : Blocks) (tells : Bool) → m.count ≡ M.count medium
            → AreBlocksOf (M.contents medium) m
            → (tells ≡ true → is_some (D.story disk).now ≡ true)
            → StandsFor c (opened m tells (opening_of c))) }
        ensures opens { IfOk result (λ c. Opens (D.story disk) (story_of c) (opening_of c)) }
        ensures blocks { IfOk result (λ c. blocks_of c ≡ M.count medium) }
        ensures over { IfOk result (λ c. (medium_of c ≡ medium)
            × (D.reference (disk_of c) ≡ D.reference disk)
            × (D.faults (disk_of c) ≡ D.faults disk)) }
        ensures counts { IfOk result (λ c. (c.opening.medium_faults ≡ M.faults medium)
            × (c.opening.disk_faults ≡ D.faults disk)) }
        ensures parts { IfErr result (λ e. (e.1 ≡ medium)
            × (D.reference e.2 ≡ D.reference disk) × Stays (D.story disk) (D.story e.2)) }
        ensures fails { IfErr result (λ e. FailsAt file_head file_layout e.0 (D.story disk)) }
        ensures fault { IfErr result (λ e. IsFaultOf e.0 (D.faults disk) (D.faults e.2)) }
    {
        let medium_faults = medium.faults();
        let disk_faults = disk.faults();
        match restore(alloc, disk, medium.blocks()) {
            Ok((keeper, state, kept)) => Ok(Core {
                medium,
                keeper,
                opening: Opening {
                    kept,
                    medium_faults,
                    disk_faults,
                },
                state,
            }),
            Err((fault, disk)) => Err((fault, medium, disk)),
        }
    }

    /// Power is lost and comes back: the file is opened again as the disk reads, nobody is logged
    /// in, no task goes on, and each nexus is told of the power-up (SPC-4, preserving persistent
    /// reservations; SAM-5, power on). The blocks of the medium stay. The memory is taken anew.
    ///
    /// # Errors
    ///
    /// As `open`, but a `BadFile` only where the disk doesn't tell what it holds.
    pub fn power(self, alloc: Global) -> Result<Core<M, D>, (OpenFault, M, D)>
        ensures entry { IfOk result (λ c. (value : Kepts) × Extends self c (power_up value ∷ [])) }
        ensures parts { IfErr result (λ e. (e.1 ≡ medium_of self)
            × (D.reference e.2 ≡ D.reference (disk_of self)) × Stays (story_of self) (D.story e.2)) }
        ensures fails { IfErr result (λ e. FailsAt file_head file_layout e.0 (story_of self)) }
        ensures untold { IfErr result (λ e. (w : World) → StandsFor self w
            → IsUntold e.0 (story_of self).now) }
        ensures fault { IfErr result (λ e. IsFaultOf e.0 (D.faults (disk_of self))
            (D.faults e.2)) }
    {
        let Core {
            medium,
            keeper,
            opening,
            state: _,
        } = self;
        match restore(alloc, keeper.into_disk(), medium.blocks()) {
            Ok((keeper, state, _)) => Ok(Core {
                medium,
                keeper,
                opening,
                state,
            }),
            Err((fault, disk)) => Err((fault, medium, disk)),
        }
    }

    /// The number of the lane or pass that has the nexus logged in.
    pub fn owner(&self, nexus: Nexus) -> Option<u64>
        ensures { result ≡ owner_of self.now nexus }
    {
        self.state.seats.owner(nexus)
    }

    /// Whether a READ or WRITE of the nexus is under way: its steps come before its next command.
    pub fn has_task(&self, nexus: Nexus) -> bool
        ensures { result ≡ is_some (progress_of self.now nexus) }
    {
        self.state.seats.has_task(nexus)
    }

    /// The medium and the disk, where no command is to come any more.
    pub fn into_parts(self) -> (M, D)
        ensures { (result.0 ≡ medium_of self) × (result.1 ≡ disk_of self) }
    {
        (self.medium, self.keeper.into_disk())
    }

    /// A Login of link version `version`: 0 where it is accepted, else the first of these codes
    /// that applies: 4, the version isn't 1; 2, the port isn't 1 to 16; 1, the nexus is logged in;
    /// 3, it isn't known and 256 others are.
    pub fn login(&mut self, who: u64, version: u8, nexus: Nexus) -> u8
        ensures entry { Extends self.old self.new
            (entry who nexus (Login version) (Login_code result) ∷ []) }
        ensures accepted { result ≡ 0 → owner_of self.new nexus ≡ Some who }
        ensures idle { result ≡ 0 → progress_of self.new nexus ≡ None }
        ensures refused { (result ≡ 0 → ⊥) → self.new ≡ self.old }
        ensures others { KeepsOthers who self.old self.new }
    {
        self.state.login(who, version, nexus)
    }

    /// The nexus is logged out, and a READ or WRITE of it ends where it has come to. Its
    /// registration stays, and it stays known.
    pub fn logout(&mut self, who: u64, nexus: Nexus)
        requires { owner_of self.old nexus ≡ Some who }
        ensures entry { Extends self.old self.new (entry who nexus Logout Left ∷ []) }
        ensures others { KeepsOthers who self.old self.new }
    {
        self.state.logout(who, nexus);
    }

    /// A command of 1 to 16 CDB bytes, of a nexus that has no task. Its data-out is the first
    /// `out_len` bytes of `buf`, whose first bytes hold its data-in afterwards. A READ or WRITE of
    /// one block or more just begins here: a step for each block and one more follow.
    pub fn command(
        &mut self,
        who: u64,
        nexus: Nexus,
        lun: u16,
        cdb: &[u8],
        buf: &mut [u8],
        out_len: usize,
    ) -> CommandOut
        requires owner { owner_of self.old nexus ≡ Some who }
        requires idle { progress_of self.old nexus ≡ None }
        requires cdb { (0 < length cdb.now) × (length cdb.now ≤ 16) }
        requires room { DATA ≤ length buf.old }
        requires sent { out_len ≤ length buf.old }
        ensures entry { Extends self.old self.new
            (entry who nexus (Command lun cdb.now (take out_len buf.old)) (out_of result buf.new)
            ∷ []) }
        ensures owner { owner_of self.new ≡ owner_of self.old }
        ensures begins { Begins result (progress_of self.new nexus) }
        ensures fed { IsFed result out_len }
        ensures others { KeepsOthers who self.old self.new }
        ensures proper { IsProper result }
        ensures kept { LeavesData result buf.old buf.new }
    {
        self.state
            .command(&mut self.keeper, nexus, lun, cdb, buf, out_len)
    }

    /// One step of the READ or WRITE of a nexus: the next block goes from `block` to the medium, or
    /// from the medium to `block`. Done, Aborted and Fault end it (SAM-5, aborted commands; SBC-3).
    pub fn step(&mut self, who: u64, nexus: Nexus, block: &mut [u8; 512]) -> StepOut
        requires owner { owner_of self.old nexus ≡ Some who }
        requires task { is_some (progress_of self.old nexus) ≡ true }
        ensures entry { (sent : List ℕ) → IsCarried result sent block.old
            → Extends self.old self.new
            (entry who nexus (Step sent) (step_out result block.new) ∷ []) }
        ensures owner { owner_of self.new ≡ owner_of self.old }
        ensures progress { Progresses result (progress_of self.old nexus)
            (progress_of self.new nexus) }
        ensures kept { LeavesBlock result block.old block.new }
        ensures others { KeepsOthers who self.old self.new }
    {
        self.state.step(nexus, &mut self.medium, block)
    }
}
