ghost use Rattle.std.specs.Prelude.{◌≡◌, ◌≤◌, ◌<◌, ◌^◌, ◌*◌, ◌/◌, ◌+◌, Some, None, [], length, drop};
ghost use Rattle.pr_io.specs.Blocks.{AreBlocks, disk_size};
ghost use Rattle.pr_io.specs.Contents.{block_at};
ghost use Rattle.pr_io.specs.Images.{image_of};

use crate::blocks::Blocks;
use crate::{Disk, Failed, Medium, Sink, Source};

/// A source over bytes in memory, which never fails.
#[derive(Drop)]
pub struct SureSource {
    bytes: Vec<u8>,
    at: usize,
    ghost within: { at ≤ length bytes.items },
}

impl SureSource {
    /// A source that gives these bytes and then ends.
    pub fn new(bytes: Vec<u8>) -> SureSource
        ensures rest { ⟦<SureSource as Source>⟧.rest result ≡ Some bytes.items }
        ensures faults { ⟦<SureSource as Source>⟧.faults result ≡ 0 }
    {
        SureSource { bytes, at: 0 }
    }
}

impl Source for SureSource {
    ghost rest = { λ s. Some (drop s.at s.bytes.items) };

    ghost faults = { λ _. 0 };

    fn take(&mut self, buf: &mut [u8]) -> Result<usize, Failed> {
        let left = &self.bytes[self.at..];
        let n = left.len().min(buf.len());
        buf[..n].copy_from_slice(&left[..n]);
        self.at += n;
        Ok(n)
    }
}

/// A sink that takes every byte, keeps none, and never fails.
#[derive(Clone, Copy, Debug)]
pub struct SureSink(());

impl SureSink {
    /// A sink. What is put into it isn't told.
    pub fn new() -> SureSink
        ensures faults { ⟦<SureSink as Sink>⟧.faults result ≡ 0 }
    {
        SureSink(())
    }
}

impl Sink for SureSink {
    ghost written = { λ _. None };

    ghost faults = { λ _. 0 };

    fn put(&mut self, piece: &[u8]) -> Result<usize, Failed> {
        Ok(piece.len())
    }
}

/// A medium in memory, which never fails.
#[derive(Drop)]
pub struct SureMedium {
    blocks: Blocks,
}

impl SureMedium {
    /// A medium of these blocks, one after another.
    pub fn new(bytes: Vec<u8>) -> SureMedium
        requires { AreBlocks (length bytes.items) }
        ensures count { ⟦<SureMedium as Medium>⟧.count result ≡ length bytes.items / 512 }
        ensures contents { ⟦<SureMedium as Medium>⟧.contents result ≡ Some (block_at bytes.items) }
        ensures faults { ⟦<SureMedium as Medium>⟧.faults result ≡ 0 }
    {
        SureMedium {
            blocks: Blocks::new(bytes),
        }
    }
}

impl Medium for SureMedium {
    ghost count = { λ s. length s.blocks.bytes.items / 512 };

    ghost contents = { λ s. Some (block_at s.blocks.bytes.items) };

    ghost reference = { λ s. None };

    ghost faults = { λ _. 0 };

    fn blocks(&self) -> u64 {
        self.blocks.count()
    }

    fn read_block(&mut self, lba: u64, block: &mut [u8; 512]) -> Result<(), Failed> {
        self.blocks.read(lba, block);
        Ok(())
    }

    fn write_block(&mut self, lba: u64, block: &[u8; 512]) -> Result<(), Failed> {
        self.blocks.write(lba, block);
        Ok(())
    }

    fn faults(&self) -> u64 {
        0
    }
}

/// A disk in memory, which never fails. It keeps no record, so what a power loss may leave isn't
/// told.
#[derive(Drop)]
pub struct SureDisk {
    image: Vec<u8>,
    ghost size: { length image.items ≡ disk_size },
}

impl SureDisk {
    /// A disk that holds this image.
    pub fn new(image: Vec<u8>) -> SureDisk
        requires { length image.items ≡ disk_size }
        ensures now { (⟦<SureDisk as Disk>⟧.story result).now ≡ Some (image_of image.items) }
        ensures faults { ⟦<SureDisk as Disk>⟧.faults result ≡ 0 }
    {
        SureDisk { image }
    }
}

impl Disk for SureDisk {
    ghost use Rattle.pr_io.specs.Images.{read_alone};

    ghost story = { λ d. read_alone d.image.items };

    ghost reference = { λ _. None };

    ghost faults = { λ _. 0 };

    ghost since = { λ d t u c le may. may };

    ghost as_read = { λ d c e now may. absurd may };

    fn read_at(&mut self, at: u64, buf: &mut [u8]) -> Result<(), Failed> {
        let at = at as usize;
        buf.copy_from_slice(&self.image[at..at + buf.len()]);
        Ok(())
    }

    fn write_at(&mut self, at: u64, bytes: &[u8]) -> Result<(), Failed> {
        let at = at as usize;
        self.image[at..at + bytes.len()].copy_from_slice(bytes);
        Ok(())
    }

    fn sync(&mut self) -> Result<(), Failed> {
        Ok(())
    }

    fn faults(&self) -> u64 {
        0
    }
}
