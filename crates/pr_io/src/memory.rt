ghost use Rattle.std.specs.Prelude.{None, ◌≡◌, ◌≤◌, ◌<◌, ◌+◌, ◌-◌, ◌/◌, ◌^◌, ◌↔◌, ◌⊎◌, Some, [], min, length, drop, IfOk, IsErr};
ghost use Rattle.pr_io.specs.Blocks.{AreBlocks};
ghost use Rattle.pr_io.specs.Calls.{IsToFail, next_call};
ghost use Rattle.pr_io.specs.Causes.{HasCause, Rose};
ghost use Rattle.pr_io.specs.Contents.{ReadsBlock, WritesBlock, block_at};
ghost use Rattle.pr_io.specs.Streams.{HasEnded, MovesInto, Reaches};

use crate::blocks::Blocks;
use crate::calls::Calls;
use crate::faults::Faults;
use crate::{BulkMedium, Failed, Medium, Sink, Source};
use std::alloc::Global;

/// A source over bytes in memory, some of whose calls fail.
#[derive(Drop)]
pub struct MemSource {
    bytes: Vec<u8>,
    at: usize,
    most: usize,
    calls: Calls,
    faults: Faults,
    ghost within: { at ≤ length bytes.items },
    ghost some: { 1 ≤ most },
}

impl MemSource {
    /// A source that gives these bytes and then ends.
    ///
    /// `failing` holds the numbers of the calls that are to fail. The first call is number 1.
    pub fn new(bytes: Vec<u8>, failing: Vec<u64>) -> MemSource
        ensures rest { ⟦<MemSource as Source>⟧.rest result ≡ Some bytes.items }
        ensures faults { ⟦<MemSource as Source>⟧.faults result ≡ 0 }
        ensures made { result.calls.made ≡ 0 }
        ensures failing { result.calls.failing ≡ failing }
        ensures most { result.most ≡ 2 ^ 64 - 1 }
    {
        MemSource::in_pieces(bytes, usize::MAX, failing)
    }

    /// The same, but a call gives `most` bytes at most, as a slow connection does.
    pub fn in_pieces(bytes: Vec<u8>, most: usize, failing: Vec<u64>) -> MemSource
        requires { 1 ≤ most }
        ensures rest { ⟦<MemSource as Source>⟧.rest result ≡ Some bytes.items }
        ensures faults { ⟦<MemSource as Source>⟧.faults result ≡ 0 }
        ensures made { result.calls.made ≡ 0 }
        ensures failing { result.calls.failing ≡ failing }
        ensures most { result.most ≡ most }
    {
        MemSource {
            bytes,
            at: 0,
            most,
            calls: Calls::new(failing),
            faults: Faults::new(),
        }
    }
}

impl Source for MemSource {
    ghost rest = { λ s. Some (drop s.at s.bytes.items) };

    ghost faults = { λ s. s.faults.count };

    fn take(&mut self, buf: &mut [u8]) -> Result<usize, Failed>
        ensures count { IfOk result (λ n. n ≤ length buf.old) }
        ensures bytes { MovesInto (⟦<MemSource as Source>⟧.rest self.old)
            (⟦<MemSource as Source>⟧.rest self.new) result buf.new }
        ensures end { IfOk result (λ n. HasEnded (⟦<MemSource as Source>⟧.rest self.new) n
            (length buf.old)) }
        ensures cause { HasCause (⟦<MemSource as Source>⟧.faults self.old)
            (⟦<MemSource as Source>⟧.faults self.new) result }
        ensures amount { IfOk result (λ n. n
            ≡ min (min (length self.old.bytes.items - self.old.at)
            (length buf.old)) self.old.most) }
        ensures listed { IsErr result ↔ IsToFail self.old.calls.failing.items self.old.calls.made }
        ensures made { self.new.calls.made ≡ next_call self.old.calls.made }
        ensures failing { self.new.calls.failing ≡ self.old.calls.failing }
        ensures most { self.new.most ≡ self.old.most }
    {
        if self.calls.next_fails() {
            return Err(self.faults.raise());
        }
        let left = &self.bytes[self.at..];
        let n = left.len().min(buf.len()).min(self.most);
        buf[..n].copy_from_slice(&left[..n]);
        self.at += n;
        Ok(n)
    }
}

/// A sink that keeps in memory what is put, and some of whose calls fail.
#[derive(Drop)]
pub struct MemSink {
    bytes: Vec<u8>,
    most: usize,
    calls: Calls,
    faults: Faults,
    starved: u64,
    ghost some: { 1 ≤ most },
}

impl MemSink {
    /// A sink into which nothing was put yet. It takes memory from `alloc` as it grows.
    ///
    /// `failing` holds the numbers of the calls that are to fail. The first call is number 1.
    pub fn new(alloc: Global, failing: Vec<u64>) -> MemSink
        ensures written { ⟦<MemSink as Sink>⟧.written result ≡ Some [] }
        ensures faults { ⟦<MemSink as Sink>⟧.faults result ≡ 0 }
        ensures starved { result.starved ≡ 0 }
        ensures made { result.calls.made ≡ 0 }
        ensures failing { result.calls.failing ≡ failing }
        ensures most { result.most ≡ 2 ^ 64 - 1 }
    {
        MemSink::in_pieces(alloc, usize::MAX, failing)
    }

    /// The same, but a call takes `most` bytes at most, as a full connection does.
    pub fn in_pieces(alloc: Global, most: usize, failing: Vec<u64>) -> MemSink
        requires { 1 ≤ most }
        ensures written { ⟦<MemSink as Sink>⟧.written result ≡ Some [] }
        ensures faults { ⟦<MemSink as Sink>⟧.faults result ≡ 0 }
        ensures starved { result.starved ≡ 0 }
        ensures made { result.calls.made ≡ 0 }
        ensures failing { result.calls.failing ≡ failing }
        ensures most { result.most ≡ most }
    {
        MemSink {
            bytes: Vec::new(alloc),
            most,
            calls: Calls::new(failing),
            faults: Faults::new(),
            starved: 0,
        }
    }

    /// All bytes that were put.
    pub fn bytes(&self) -> &[u8]
        ensures { ⟦<MemSink as Sink>⟧.written self.now ≡ Some result.now }
    {
        &self.bytes
    }

    /// How many calls failed because the memory that they need was refused.
    pub fn starved(&self) -> u64
        ensures { result ≡ self.now.starved }
    {
        self.starved
    }
}

impl Sink for MemSink {
    ghost written = { λ s. Some s.bytes.items };

    ghost faults = { λ s. s.faults.count };

    fn put(&mut self, piece: &[u8]) -> Result<usize, Failed>
        ensures count { IfOk result (λ n. n ≤ length piece.now) }
        ensures some { IfOk result (λ n. 0 < length piece.now → 0 < n) }
        ensures bytes { Reaches (⟦<MemSink as Sink>⟧.written self.old)
            (⟦<MemSink as Sink>⟧.written self.new) result piece.now }
        ensures cause { HasCause (⟦<MemSink as Sink>⟧.faults self.old)
            (⟦<MemSink as Sink>⟧.faults self.new) result }
        ensures amount { IfOk result (λ n. n ≡ min (length piece.now) self.old.most) }
        ensures listed { IsToFail self.old.calls.failing.items self.old.calls.made → IsErr result }
        ensures starving { self.old.starved < self.new.starved → IsErr result }
        ensures why { IsErr result → IsToFail self.old.calls.failing.items self.old.calls.made
            ⊎ Rose self.old.starved self.new.starved }
        ensures starved { self.old.starved ≤ self.new.starved }
        ensures made { self.new.calls.made ≡ next_call self.old.calls.made }
        ensures failing { self.new.calls.failing ≡ self.old.calls.failing }
        ensures most { self.new.most ≡ self.old.most }
    {
        if self.calls.next_fails() {
            return Err(self.faults.raise());
        }
        let n = piece.len().min(self.most);
        match self.bytes.extend_from_slice(&piece[..n]) {
            Ok(()) => Ok(n),
            Err(_) => {
                self.starved = self.starved.saturating_add(1);
                Err(self.faults.raise())
            }
        }
    }
}

/// A medium in memory, some of whose calls fail. A call that fails leaves every block as it was.
#[derive(Drop)]
pub struct MemMedium {
    blocks: Blocks,
    calls: Calls,
    faults: Faults,
}

impl MemMedium {
    /// A medium of these blocks, one after another.
    ///
    /// `failing` holds the numbers of the calls that are to fail, reads and writes counted
    /// together. The first call is number 1.
    pub fn new(bytes: Vec<u8>, failing: Vec<u64>) -> MemMedium
        requires { AreBlocks (length bytes.items) }
        ensures count { ⟦<MemMedium as Medium>⟧.count result ≡ length bytes.items / 512 }
        ensures contents { ⟦<MemMedium as Medium>⟧.contents result ≡ Some (block_at bytes.items) }
        ensures faults { ⟦<MemMedium as Medium>⟧.faults result ≡ 0 }
        ensures made { result.calls.made ≡ 0 }
        ensures failing { result.calls.failing ≡ failing }
    {
        MemMedium {
            blocks: Blocks::new(bytes),
            calls: Calls::new(failing),
            faults: Faults::new(),
        }
    }

    /// All blocks, one after another.
    pub fn bytes(&self) -> &[u8]
        ensures held { ⟦<MemMedium as Medium>⟧.contents self.now ≡ Some (block_at result.now) }
        ensures size { length result.now / 512 ≡ ⟦<MemMedium as Medium>⟧.count self.now }
    {
        self.blocks.bytes()
    }
}

impl Medium for MemMedium {
    ghost count = { λ s. length s.blocks.bytes.items / 512 };

    ghost contents = { λ s. Some (block_at s.blocks.bytes.items) };

    ghost reference = { λ s. None };

    ghost faults = { λ s. s.faults.count };

    fn blocks(&self) -> u64 {
        self.blocks.count()
    }

    fn read_block(&mut self, lba: u64, block: &mut [u8; 512]) -> Result<(), Failed>
        requires { lba < ⟦<MemMedium as Medium>⟧.count self.old }
        ensures given { ReadsBlock (⟦<MemMedium as Medium>⟧.contents self.old) lba result
            block.new }
        ensures contents { ⟦<MemMedium as Medium>⟧.contents self.new
            ≡ ⟦<MemMedium as Medium>⟧.contents self.old }
        ensures count { ⟦<MemMedium as Medium>⟧.count self.new
            ≡ ⟦<MemMedium as Medium>⟧.count self.old }
        ensures cause { HasCause (⟦<MemMedium as Medium>⟧.faults self.old)
            (⟦<MemMedium as Medium>⟧.faults self.new) result }
        ensures listed { IsErr result ↔ IsToFail self.old.calls.failing.items self.old.calls.made }
        ensures made { self.new.calls.made ≡ next_call self.old.calls.made }
        ensures failing { self.new.calls.failing ≡ self.old.calls.failing }
    {
        if self.calls.next_fails() {
            return Err(self.faults.raise());
        }
        self.blocks.read(lba, block);
        Ok(())
    }

    fn write_block(&mut self, lba: u64, block: &[u8; 512]) -> Result<(), Failed>
        requires { lba < ⟦<MemMedium as Medium>⟧.count self.old }
        ensures contents { WritesBlock (⟦<MemMedium as Medium>⟧.contents self.old)
            (⟦<MemMedium as Medium>⟧.contents self.new) lba result block.now }
        ensures count { ⟦<MemMedium as Medium>⟧.count self.new
            ≡ ⟦<MemMedium as Medium>⟧.count self.old }
        ensures cause { HasCause (⟦<MemMedium as Medium>⟧.faults self.old)
            (⟦<MemMedium as Medium>⟧.faults self.new) result }
        ensures listed { IsErr result ↔ IsToFail self.old.calls.failing.items self.old.calls.made }
        ensures made { self.new.calls.made ≡ next_call self.old.calls.made }
        ensures failing { self.new.calls.failing ≡ self.old.calls.failing }
    {
        if self.calls.next_fails() {
            return Err(self.faults.raise());
        }
        self.blocks.write(lba, block);
        Ok(())
    }

    fn faults(&self) -> u64 {
        self.faults.count()
    }
}

impl BulkMedium for MemMedium {
    fn read_blocks(&mut self, lba: u64, blocks: &mut [u8]) -> Result<(), Failed> {
        if self.calls.next_fails() {
            return Err(self.faults.raise());
        }
        self.blocks.read_many(lba, blocks);
        Ok(())
    }
}
