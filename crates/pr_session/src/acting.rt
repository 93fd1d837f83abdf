//! Acts of a target on the bytes of a work buffer.

ghost use Rattle.std.specs.Prelude.{◌≡◌, ◌+◌, ◌≤◌, ◌<◌, ◌∷◌, [], ℕ, List, Some, is_some, true, take, length};
ghost use Rattle.pr_words.specs.declared.limits.TheConstants.{BLOCK, DATA, HELD};
ghost use Rattle.pr_model.specs.Entries.{entry, Command, Step};
ghost use Rattle.pr_tasks.specs.Steps.{LeavesBlock};
ghost use Rattle.pr_core.specs.Outs.{out_of, step_out, IsProper, IsFed, IsCarried, Begins, Progresses, LeavesData};
ghost use Rattle.pr_core.specs.View.{owner_of, progress_of, KeepsOthers, Extends};
ghost use Rattle.pr_session.specs.Places.{block_from, data_in};
ghost use Rattle.pr_session.specs.Coming.{IsIdleIn};

use pr_core::{CommandOut, Core};
use pr_io::{Disk, Medium};
use pr_tasks::StepOut;
use pr_words::{BLOCK, COMMAND_HEAD, Nexus};

/// A command whose data stands at its place in the slice.
pub(crate) fn command_on<M: Medium, D: Disk>(
    core: &mut Core<M, D>,
    who: u64,
    nexus: Nexus,
    lun: u16,
    cdb: &[u8],
    work: &mut [u8],
    out_len: usize,
) -> CommandOut
    requires idle { IsIdleIn core.old who nexus }
    requires cdb { (0 < length cdb.now) × (length cdb.now ≤ 16) }
    requires room { length work.old ≡ HELD }
    requires sent { out_len ≤ DATA }
    ensures entry { Extends core.old core.new (entry who nexus
        (Command lun cdb.now (take out_len (data_in work.old)))
        (out_of result (data_in work.new)) ∷ []) }
    ensures owner { owner_of core.new ≡ owner_of core.old }
    ensures begins { Begins result (progress_of core.new nexus) }
    ensures fed { IsFed result out_len }
    ensures proper { IsProper result }
    ensures kept { LeavesData result (data_in work.old) (data_in work.new) }
    ensures others { KeepsOthers who core.old core.new }
{
    let (_, data) = work.split_at_mut(COMMAND_HEAD);
    core.command(who, nexus, lun, cdb, data, out_len)
}

/// A step whose block stands at this place in the slice.
pub(crate) fn step_on<M: Medium, D: Disk>(
    core: &mut Core<M, D>,
    who: u64,
    nexus: Nexus,
    work: &mut [u8],
    at: usize,
) -> StepOut
    requires owner { owner_of core.old nexus ≡ Some who }
    requires task { is_some (progress_of core.old nexus) ≡ true }
    requires within { at + BLOCK ≤ length work.old }
    ensures entry { (sent : List ℕ) → IsCarried result sent (block_from at work.old) →
        Extends core.old core.new (entry who nexus (Step sent)
        (step_out result (block_from at work.new)) ∷ []) }
    ensures owner { owner_of core.new ≡ owner_of core.old }
    ensures progress { Progresses result (progress_of core.old nexus) (progress_of core.new nexus) }
    ensures before { take at work.new ≡ take at work.old }
    ensures kept { LeavesBlock result work.old work.new }
    ensures others { KeepsOthers who core.old core.new }
{
    let (_, rest) = work.split_at_mut(at);
    let (block, _) = rest.split_at_mut(BLOCK);
    step_block(core, who, nexus, block)
}

/// A step of a task on its block.
fn step_block<M: Medium, D: Disk>(
    core: &mut Core<M, D>,
    who: u64,
    nexus: Nexus,
    block: &mut [u8],
) -> StepOut
    requires owner { owner_of core.old nexus ≡ Some who }
    requires task { is_some (progress_of core.old nexus) ≡ true }
    requires size { length block.old ≡ BLOCK }
    ensures entry { (sent : List ℕ) → IsCarried result sent block.old → Extends core.old core.new
        (entry who nexus (Step sent) (step_out result block.new) ∷ []) }
    ensures owner { owner_of core.new ≡ owner_of core.old }
    ensures progress { Progresses result (progress_of core.old nexus) (progress_of core.new nexus) }
    ensures size { length block.new ≡ BLOCK }
    ensures kept { LeavesBlock result block.old block.new }
    ensures others { KeepsOthers who core.old core.new }
{
    match block.as_mut_array() {
        Some(block) => core.step(who, nexus, block),
        None => unreachable!(),
    }
}
