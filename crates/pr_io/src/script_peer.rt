ghost use Rattle.std.specs.Prelude.{◌≡◌, ◌≤◌, ◌^◌, ◌-◌, length};

use crate::Peer;

/// A peer that says what it was given, whatever it hears, and no more. Each call of a wire gets so
/// many bytes at most.
#[derive(Drop)]
pub struct ScriptPeer {
    script: Vec<u8>,
    at: usize,
    most: usize,
    ghost within: { at ≤ length script.items },
}

impl ScriptPeer {
    /// A peer that says these bytes, `most` of them at a time.
    pub fn new(script: Vec<u8>, most: usize) -> ScriptPeer
        ensures script { result.script ≡ script }
        ensures most { result.most ≡ most }
    {
        ScriptPeer {
            script,
            at: 0,
            most,
        }
    }
}

impl Peer for ScriptPeer {
    ghost room = { λ _. 2 ^ 64 - 1 };

    ghost stands = { λ _ _. Unit {0} };

    ghost comes = { λ _ _ _ _. Unit {0} };

    ghost comes_at_once = { λ _ _. tt };

    ghost comes_later = { λ _ _ _ _ _ _ _ _. tt };

    fn room(&self) -> usize {
        usize::MAX
    }

    fn hear(&mut self, _bytes: &[u8]) {}

    fn say(&mut self, buf: &mut [u8]) -> usize {
        let left = &self.script[self.at..];
        let n = left.len().min(buf.len()).min(self.most);
        buf[..n].copy_from_slice(&left[..n]);
        self.at += n;
        n
    }

    fn hang_up(&mut self) {}
}
