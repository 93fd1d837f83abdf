ghost use Rattle.std.specs.Prelude.{◌≡◌, ◌≤◌};
ghost use Rattle.pr_io.specs.Causes.{HasCause, next_fault};

use crate::Failed;
use std::io;

/// A count of faults, which stands still at 2^64 - 1.
#[derive(Debug, Drop)]
pub(crate) struct Faults {
    count: u64,
}

impl Faults {
    pub(crate) fn new() -> Faults
        ensures { result.count ≡ 0 }
    {
        Faults { count: 0 }
    }

    pub(crate) fn count(&self) -> u64
        ensures { result ≡ self.now.count }
    {
        self.count
    }

    /// Counts one fault more, and hands out the answer that it excuses.
    pub(crate) fn raise(&mut self) -> Failed
        ensures later { self.old.count ≤ self.new.count }
        ensures once { self.new.count ≡ next_fault self.old.count }
    {
        self.count = self.count.saturating_add(1);
        Failed
    }
}

/// The answer to a call of a file, whose failure is counted.
pub(crate) fn counted(answer: io::Result<()>, faults: &mut Faults) -> Result<(), Failed>
    ensures { HasCause faults.old.count faults.new.count result }
{
    match answer {
        Ok(()) => Ok(()),
        Err(_) => Err(faults.raise()),
    }
}
