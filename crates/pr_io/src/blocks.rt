ghost use Rattle.std.specs.Prelude.{◌≡◌, ◌≤◌, ◌<◌, ◌+◌, ◌*◌, ◌^◌, ◌/◌, ◌⊎◌, ℕ, List, Some, length, OnOk};
ghost use Rattle.pr_io.specs.Blocks.{AreBlocks};
ghost use Rattle.pr_io.specs.Contents.{OthersStay, block_at};

use crate::{BulkMedium, Failed};

/// The length of a block, in bytes.
pub(crate) const BLOCK: usize = 512;

/// Blocks in memory, one after another.
#[derive(Drop)]
pub(crate) struct Blocks {
    bytes: Vec<u8>,
    ghost blocks: { AreBlocks (length bytes.items) },
}

impl Blocks {
    pub(crate) fn new(bytes: Vec<u8>) -> Blocks
        requires { AreBlocks (length bytes.items) }
        ensures { result.bytes ≡ bytes }
    {
        Blocks { bytes }
    }

    /// The number of blocks.
    pub(crate) fn count(&self) -> u64
        ensures count { result ≡ length self.now.bytes.items / 512 }
        ensures some { 1 ≤ result }
        ensures most { result ≤ 2 ^ 40 }
    {
        (self.bytes.len() / BLOCK) as u64
    }

    /// All blocks, one after another.
    pub(crate) fn bytes(&self) -> &[u8]
        ensures { result.now ≡ self.now.bytes.items }
    {
        &self.bytes
    }

    pub(crate) fn read(&self, lba: u64, block: &mut [u8; 512])
        requires { lba < length self.now.bytes.items / 512 }
        ensures { block.new ≡ block_at self.now.bytes.items lba }
    {
        let at = lba as usize * BLOCK;
        block.copy_from_slice(&self.bytes[at..at + BLOCK]);
    }

    pub(crate) fn write(&mut self, lba: u64, block: &[u8; 512])
        requires { lba < length self.old.bytes.items / 512 }
        ensures written { block_at self.new.bytes.items lba ≡ block.now }
        ensures others { OthersStay (block_at self.old.bytes.items)
            (block_at self.new.bytes.items) lba }
        ensures size { length self.new.bytes.items ≡ length self.old.bytes.items }
    {
        let at = lba as usize * BLOCK;
        self.bytes[at..at + BLOCK].copy_from_slice(block);
    }

    /// Reads all blocks that fill the buffer, from this one on.
    pub(crate) fn read_many(&self, lba: u64, blocks: &mut [u8])
        requires whole { 512 * (length blocks.old / 512) ≡ length blocks.old }
        requires within { lba + length blocks.old / 512 ≤ length self.now.bytes.items / 512 }
        ensures size { length blocks.new ≡ length blocks.old }
        ensures given { (i : ℕ) → i < length blocks.new / 512
            → block_at blocks.new i ≡ block_at self.now.bytes.items (lba + i) }
    {
        let at = lba as usize * BLOCK;
        blocks.copy_from_slice(&self.bytes[at..at + blocks.len()]);
    }

    /// Reads as many blocks of a medium, from this address on, to where they stand from a slot on.
    pub(crate) fn read_from<M: BulkMedium>(
        &mut self,
        medium: &mut M,
        lba: u64,
        slot: u64,
        count: u64,
    ) -> Result<(), Failed>
        requires within { lba + count ≤ M.Medium.count medium.old }
        requires room { slot + count ≤ length self.old.bytes.items / 512 }
        ensures size { length self.new.bytes.items ≡ length self.old.bytes.items }
        ensures others { (other : ℕ) → (other < slot) ⊎ (slot + count ≤ other)
            → block_at self.new.bytes.items other ≡ block_at self.old.bytes.items other }
        ensures given { (held : ℕ → List ℕ) → M.Medium.contents medium.old ≡ Some held
            → OnOk result ((i : ℕ) → i < count
            → block_at self.new.bytes.items (slot + i) ≡ held (lba + i)) }
        ensures contents { M.Medium.contents medium.new ≡ M.Medium.contents medium.old }
        ensures number { M.Medium.count medium.new ≡ M.Medium.count medium.old }
    {
        let at = slot as usize * BLOCK;
        medium.read_blocks(lba, &mut self.bytes[at..at + count as usize * BLOCK])
    }
}
