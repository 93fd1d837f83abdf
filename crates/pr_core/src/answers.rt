ghost use Rattle.std.specs.Prelude.{◌≡◌, ◌<◌, ℕ, List, None};
ghost use Rattle.pr_model.specs.Commands.{checking, good};
ghost use Rattle.pr_core.specs.Outs.{out_of, IsProper, IsEnded};

use pr_words::{Code, Sense, Status, Way};

/// How a command was answered.
#[derive(Clone, Copy, Debug, PartialEq, Eq)]
pub enum CommandOut {
    /// The command has ended. Its data-in is the first `len` bytes of the buffer that it was given.
    Ended {
        status: Status,
        sense: Option<Sense>,
        len: usize,
    },
    /// A READ or WRITE of so many blocks has begun: its steps follow, the last of which ends it.
    Started {
        way: Way,
        count: u32,
    },
}

impl CommandOut {
    /// GOOD, with so many bytes of data-in.
    pub(crate) fn good(len: usize) -> CommandOut
        ensures { result ≡ CommandOut.Ended Status.Good None len }
    {
        CommandOut::Ended {
            status: Status::Good,
            sense: None,
            len,
        }
    }

    /// RESERVATION CONFLICT.
    pub(crate) fn conflict() -> CommandOut
        ensures { result ≡ CommandOut.Ended Status.ReservationConflict None 0 }
    {
        CommandOut::Ended {
            status: Status::ReservationConflict,
            sense: None,
            len: 0,
        }
    }

    /// CHECK CONDITION, with a code.
    pub(crate) fn checking(code: Code) -> CommandOut
        ensures out { (buf : List ℕ) → out_of result buf ≡ checking code }
        ensures proper { code.key < 16 → IsProper result }
        ensures ended { IsEnded result }
    {
        CommandOut::Ended {
            status: Status::CheckCondition,
            sense: Some(Sense { code, info: None }),
            len: 0,
        }
    }
}
