use pr_words::Code;

/// What one step of a task did.
#[derive(Clone, Copy, Debug, PartialEq, Eq)]
pub enum StepOut {
    /// The block with this address was written.
    Wrote { lba: u64 },
    /// The block with this address was read.
    Read { lba: u64 },
    /// No block was left: the task has ended, with GOOD.
    Done,
    /// The task was marked: it has ended, with TASK ABORTED.
    Aborted,
    /// The medium failed: the task has ended, with CHECK CONDITION and this code.
    Fault(Code),
}
