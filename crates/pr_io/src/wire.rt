ghost use Rattle.std.specs.Prelude.{◌≡◌, ◌≤◌, ℕ, Option, Some, length, IfOk};
ghost use Rattle.std.specs.Borrow.{GName};
ghost use Rattle.pr_io.specs.Causes.{HasCause};
ghost use Rattle.pr_io.specs.Talks.{Talk, Dials, Sends, Receives};

use crate::Failed;

/// A client's way to targets: one connection at a time.
pub trait Wire {
    /// All connections, with what was sent and received on each, where they are told.
    ghost talk: { Self → Option Talk };

    /// Which reference the wire is, where it is one; no call changes that.
    ghost reference: { Self → Option GName };

    /// How often the wire has failed.
    ghost faults: { Self → ℕ };

    /// What is behind the second wire comes, by calls of wires, from what is behind the first.
    ghost comes: { Self → Self → Type 0 };

    /// Connects to the target with this address. The connection before is given up.
    ///
    /// # Errors
    ///
    /// Where the wire has failed, so also where there is no such target.
    fn dial(&mut self, address: &str) -> Result<(), Failed>
        ensures talk { Dials (talk self.old) (talk self.new) result address.now }
        ensures reference { reference self.new ≡ reference self.old }
        ensures cause { HasCause (faults self.old) (faults self.new) result }
        ensures comes { comes self.old self.new };

    /// Sends all bytes.
    ///
    /// # Errors
    ///
    /// Where the wire has failed, or isn't connected.
    fn send(&mut self, bytes: &[u8]) -> Result<(), Failed>
        ensures talk { Sends (talk self.old) (talk self.new) result bytes.now }
        ensures reference { reference self.new ≡ reference self.old }
        ensures cause { HasCause (faults self.old) (faults self.new) result }
        ensures comes { comes self.old self.new };

    /// Moves received bytes into the front of the buffer, and says how many. It waits for them; none
    /// into a buffer that isn't empty is the end of the connection.
    ///
    /// # Errors
    ///
    /// Where the wire has failed, or isn't connected.
    fn receive(&mut self, buf: &mut [u8]) -> Result<usize, Failed>
        ensures count { IfOk result (λ n. n ≤ length buf.old) }
        ensures talk { Receives (talk self.old) (talk self.new) result buf.new }
        ensures reference { reference self.new ≡ reference self.old }
        ensures cause { HasCause (faults self.old) (faults self.new) result }
        ensures comes { comes self.old self.new };

    ghost comes_at_once: { (a : Self) → comes a a };

    ghost comes_later: { (a b c : Self) → comes a b → comes b c → comes a c };
}

impl<W: Wire> Wire for &mut W {
    ghost talk = { λ w. W.talk w.now };

    ghost reference = { λ w. Some w.ghost_name };

    ghost faults = { λ w. W.faults w.now };

    ghost comes = { λ a b. W.comes a.now b.now };

    ghost comes_at_once = { λ a. W.comes_at_once a.now };

    ghost comes_later = { λ a b c p q. W.comes_later a.now b.now c.now p q };

    fn dial(&mut self, address: &str) -> Result<(), Failed> {
        (**self).dial(address)
    }

    fn send(&mut self, bytes: &[u8]) -> Result<(), Failed> {
        (**self).send(bytes)
    }

    fn receive(&mut self, buf: &mut [u8]) -> Result<usize, Failed> {
        (**self).receive(buf)
    }
}
