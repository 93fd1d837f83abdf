ghost use Rattle.std.specs.Prelude.{◌≡◌, ◌≤◌, ◌+◌, ◌-◌, IfOk, IsTrue};
ghost use Rattle.pr_io.specs.Causes.{HasCause};
ghost use Rattle.pr_io.specs.Contents.{ReadsBlock, WritesBlock};
ghost use Rattle.pr_model.specs.Tasks.{IsUnderWay, aborted, next_block};
ghost use Rattle.pr_tasks.specs.Steps.{Steps, answered, begun};

use crate::StepOut;
use pr_io::Medium;
use pr_words::{Code, TRANSFER, Way};
use std::marker::Model;

/// A READ or WRITE under way (SBC-3). A step moves one block of 512 bytes.
///
/// A task has ended with the step that answers Done, Aborted or Fault.
#[derive(Drop)]
pub struct Task {
    way: Way,
    lba: u64,
    count: u32,
    done: u32,
    aborted: bool,
}

impl Model for Task {
    ghost use Rattle.std.specs.Prelude.{◌≤◌, ◌<◌, ◌+◌, ◌^◌};
    ghost use Rattle.pr_model.specs.Worlds as model;

    ghost Value = { model.Task };

    ghost view = { λ t. record { way = t.way; lba = t.lba; count = t.count; done = t.done; aborted = t.aborted } };

    ghost invariant = { λ t. (t.done ≤ t.count) × (t.lba + t.count < 2 ^ 64) };
}

impl Task {
    /// A task that moves `count` blocks, of a medium of `blocks`, from `lba` on.
    ///
    /// # Errors
    ///
    /// INVALID FIELD IN CDB where there are more than 1,024, and otherwise LOGICAL BLOCK ADDRESS
    /// OUT OF RANGE where not all of them lie within the medium.
    pub fn begin(way: Way, lba: u64, count: u32, blocks: u64) -> Result<Task, Code>
        ensures begun { result ≡ begun way lba count blocks }
        ensures within { IfOk result (λ t. t.lba + t.count ≤ blocks) }
    {
        if count as usize > TRANSFER {
            return Err(Code::INVALID_FIELD_IN_CDB);
        }
        match lba.checked_add(u64::from(count)) {
            Some(end) if end <= blocks => Ok(Task {
                way,
                lba,
                count,
                done: 0,
                aborted: false,
            }),
            _ => Err(Code::LOGICAL_BLOCK_ADDRESS_OUT_OF_RANGE),
        }
    }

    /// Marks the task, whose next step then ends it (SPC-4, PREEMPT AND ABORT).
    pub fn abort(&mut self)
        ensures { self.new ≡ aborted self.old }
    {
        self.aborted = true;
    }

    /// Which way it moves blocks.
    pub fn way(&self) -> Way
        ensures { result ≡ self.now.way }
    {
        self.way
    }

    /// How many blocks are left to move.
    pub fn left(&self) -> u32
        ensures { result ≡ self.now.count - self.now.done }
    {
        self.count - self.done
    }

    /// Moves the next block between the medium and the buffer, or ends the task.
    pub fn step<M: Medium>(&mut self, medium: &mut M, block: &mut [u8; 512]) -> StepOut
        requires { self.old.lba + self.old.count ≤ M.count medium.old }
        ensures steps { Steps self.old result self.new }
        ensures blocks { (self.new.lba ≡ self.old.lba) × (self.new.count ≡ self.old.count) }
        ensures writes { IsUnderWay self.old → self.old.way ≡ Way.Write
            → WritesBlock (M.contents medium.old) (M.contents medium.new) (next_block self.old)
            (answered result) block.old }
        ensures reads { IsUnderWay self.old → self.old.way ≡ Way.Read
            → ReadsBlock (M.contents medium.old) (next_block self.old) (answered result) block.new }
        ensures held { self.old.way ≡ Way.Read → M.contents medium.new ≡ M.contents medium.old }
        ensures given { self.old.way ≡ Way.Write → block.new ≡ block.old }
        ensures marked { IsTrue self.old.aborted → (medium.new ≡ medium.old)
            × (block.new ≡ block.old) }
        ensures spent { self.old.done ≡ self.old.count → (medium.new ≡ medium.old)
            × (block.new ≡ block.old) }
        ensures count { M.count medium.new ≡ M.count medium.old }
        ensures reference { M.reference medium.new ≡ M.reference medium.old }
        ensures cause { HasCause (M.faults medium.old) (M.faults medium.new) (answered result) }
    {
        if self.aborted {
            return StepOut::Aborted;
        }
        if self.done == self.count {
            return StepOut::Done;
        }
        let lba = self.lba + u64::from(self.done);
        let (moved, out, code) = match self.way {
            Way::Read => (
                medium.read_block(lba, block),
                StepOut::Read { lba },
                Code::UNRECOVERED_READ_ERROR,
            ),
            Way::Write => (
                medium.write_block(lba, block),
                StepOut::Wrote { lba },
                Code::WRITE_ERROR,
            ),
        };
        match moved {
            Ok(()) => {
                self.done += 1;
                out
            }
            Err(_) => StepOut::Fault(code),
        }
    }
}
