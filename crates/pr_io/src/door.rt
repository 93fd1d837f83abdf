ghost use Rattle.std.specs.Prelude.{◌≡◌, ℕ, List, Option};
ghost use Rattle.pr_io.specs.Causes.{HasCause};
ghost use Rattle.pr_io.specs.Doors.{Counts, Takes};
ghost use Rattle.pr_io.specs.Told.{ToldStreams, told_streams};

use crate::{Failed, Sink, Source};

/// Where connections to a target come in, one after another.
pub trait Door {
    /// What comes in on a connection. It may be read by another thread than what goes out.
    type In: Source + Send + Drop;

    /// What goes out on a connection. The connection ends when both are dropped.
    type Out: Sink + Send + Drop;

    /// What each connection that wasn't taken yet tells, in the order in which they come, where it
    /// is told.
    ghost waiting: { Self → Option (List ToldStreams) };

    /// How many connections were taken.
    ghost taken: { Self → ℕ };

    /// How often the door has failed.
    ghost faults: { Self → ℕ };

    /// Takes the connection that comes next. A door over a network waits for it.
    ///
    /// # Errors
    ///
    /// Where the door has failed. No connection was taken then, and it may be asked again.
    fn accept(&mut self) -> Result<(Self::In, Self::Out), Failed>
        ensures waiting { Takes (waiting self.old) (waiting self.new) result
            (λ c. told_streams Self.In.Source Self.Out.Sink c.0 c.1) }
        ensures taken { Counts (taken self.old) (taken self.new) result }
        ensures cause { HasCause (faults self.old) (faults self.new) result };
}

impl<A: Door> Door for &mut A {
    type In = A::In;

    type Out = A::Out;

    ghost waiting = { λ d. A.waiting d.now };

    ghost taken = { λ d. A.taken d.now };

    ghost faults = { λ d. A.faults d.now };

    fn accept(&mut self) -> Result<(A::In, A::Out), Failed> {
        (**self).accept()
    }
}
