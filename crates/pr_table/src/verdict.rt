ghost use Rattle.std.specs.Prelude.{◌≡◌, None, false};

use pr_words::Code;

/// What an accepted PERSISTENT RESERVE OUT changed.
#[derive(Clone, Copy, Debug, PartialEq, Eq)]
pub struct Change {
    /// How many registrations were removed by CLEAR, PREEMPT or PREEMPT AND ABORT. `Table::removed`
    /// has their nexuses.
    pub removed: usize,
    /// The unit attention condition for their nexuses, the caller's own apart.
    pub removed_code: Option<Code>,
    /// The unit attention condition for the nexuses that are still registered, the caller's own apart.
    pub stay_code: Option<Code>,
    /// Whether tasks of the removed nexuses are aborted: so of PREEMPT AND ABORT.
    pub abort: bool,
    /// Whether what outlives a power loss is other than before.
    pub keeps: bool,
}

/// The answer to a PERSISTENT RESERVE OUT.
#[derive(Clone, Copy, Debug, PartialEq, Eq)]
pub enum Verdict {
    /// GOOD.
    Good(Change),
    /// RESERVATION CONFLICT. Nothing has changed.
    Conflict,
    /// CHECK CONDITION with this code. Nothing has changed.
    Bad(Code),
}

impl Change {
    /// A change of which nobody is told but by `stay_code`.
    pub(crate) fn telling(stay_code: Option<Code>) -> Change
        ensures { result ≡ record {
          removed = 0;
          removed_code = None;
          stay_code = stay_code;
          abort = false;
          keeps = false;
        } }
    {
        Change {
            removed: 0,
            removed_code: None,
            stay_code,
            abort: false,
            keeps: false,
        }
    }
}
