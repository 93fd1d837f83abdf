ghost use Rattle.std.specs.Prelude.{◌≡◌, ◌≤◌, ◌+◌, ◌*◌, ◌/◌, length};
ghost use Rattle.pr_io.specs.Causes.{HasCause};
ghost use Rattle.pr_io.specs.Contents.{ReadsBlocks};

use crate::{Failed, Medium};

/// A medium of which blocks that follow one another can be read at once.
pub trait BulkMedium: Medium {
    /// Reads the blocks from this address on, as many as fill the buffer. After a failure the
    /// buffer may hold anything.
    ///
    /// # Errors
    ///
    /// Where the medium has failed.
    fn read_blocks(&mut self, lba: u64, blocks: &mut [u8]) -> Result<(), Failed>
        requires whole { 512 * (length blocks.old / 512) ≡ length blocks.old }
        requires within { lba + length blocks.old / 512 ≤ Self.Medium.count self.old }
        ensures size { length blocks.new ≡ length blocks.old }
        ensures given { ReadsBlocks (Self.Medium.contents self.old) lba result blocks.new }
        ensures contents { Self.Medium.contents self.new ≡ Self.Medium.contents self.old }
        ensures count { Self.Medium.count self.new ≡ Self.Medium.count self.old }
        ensures reference { Self.Medium.reference self.new ≡ Self.Medium.reference self.old }
        ensures cause { HasCause (Self.Medium.faults self.old) (Self.Medium.faults self.new)
            result };
}

impl<M: BulkMedium> BulkMedium for &mut M {
    fn read_blocks(&mut self, lba: u64, blocks: &mut [u8]) -> Result<(), Failed> {
        (**self).read_blocks(lba, blocks)
    }
}
