ghost use Rattle.std.specs.Prelude.{◌≡◌, ◌≤◌, ℕ, length};
ghost use Rattle.pr_io.specs.Lines.{Line, hearing, saying, hung_up};

/// A target in memory, which a client's wire can reach. None of its calls takes memory or fails.
pub trait Peer {
    /// How many bytes it has room to hear.
    ghost room: { Self → ℕ };

    /// Whether it is a peer that has heard and said this.
    ghost stands: { Self → Line → Type 0 };

    /// The second peer, which has heard and said so much, comes from the first, which had heard and
    /// said less.
    ghost comes: { Self → Line → Self → Line → Type 0 };

    /// How many bytes it has room to hear.
    fn room(&self) -> usize
        ensures { result ≡ room self.now };

    /// Hears bytes on the last connection.
    fn hear(&mut self, bytes: &[u8])
        requires { length bytes.now ≤ room self.old }
        ensures stands { (l : Line) → stands self.old l → stands self.new (hearing l bytes.now) }
        ensures comes { (l : Line) → stands self.old l →
            comes self.old l self.new (hearing l bytes.now) };

    /// Says bytes on the last connection: it moves what it has to say into the front of the buffer,
    /// and tells how many bytes that is. None into a buffer that isn't empty is all for now.
    fn say(&mut self, buf: &mut [u8]) -> usize
        ensures count { result ≤ length buf.old }
        ensures stands { (l : Line) → stands self.old l →
            stands self.new (saying l result (length buf.new) buf.new) }
        ensures comes { (l : Line) → stands self.old l →
            comes self.old l self.new (saying l result (length buf.new) buf.new) };

    /// The last connection is given up, and a new one begins.
    fn hang_up(&mut self)
        ensures stands { (l : Line) → stands self.old l → stands self.new (hung_up l) }
        ensures comes { (l : Line) → stands self.old l → comes self.old l self.new (hung_up l) };

    ghost comes_at_once: { (p : Self) (l : Line) → comes p l p l };

    ghost comes_later: { (p q r : Self) (l m n : Line) → comes p l q m → comes q m r n →
        comes p l r n };
}
