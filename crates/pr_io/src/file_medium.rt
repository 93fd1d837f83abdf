ghost use Rattle.std.specs.Prelude.{◌≡◌, ◌≤◌, ◌<◌, ◌^◌, ◌⊎◌, None, IfOk, OnOk};
ghost use Rattle.pr_io.specs.Files.{IsNoCount};

use crate::faults::{Faults, counted};
use crate::{BulkMedium, Failed, Medium, blocks};
use std::fs::{File, Files, OpenOptions};
use std::io;
use std::os::unix::fs::FileExt;

/// The length of a block, in bytes.
const BLOCK: u64 = blocks::BLOCK as u64;

/// The most blocks that a medium may have.
const MOST: u64 = 1 << 40;

/// Why a file can't be opened as a medium.
#[derive(Debug, Drop)]
pub enum MediumFault {
    /// The file can't be opened, or its length isn't told.
    File(io::Error),
    /// The file has this many whole blocks: none, or more than 2^40.
    Blocks(u64),
}

/// A medium over a file, which has as many blocks as the file has whole pieces of 512 bytes. What
/// it holds isn't told, as what a real file holds can't be.
///
/// A block that was written is in the file, but a loss of power may take it away. Each call is one
/// of the system; `ReadAhead` makes fewer where blocks are read that follow one another.
#[derive(Drop)]
pub struct FileMedium {
    file: File,
    blocks: u64,
    faults: Faults,
    ghost some: { 1 ≤ blocks },
    ghost most: { blocks ≤ 2 ^ 40 },
}

impl FileMedium {
    /// The medium over the file with this path. No other program may write the file meanwhile.
    ///
    /// # Errors
    ///
    /// Where the file can't be opened, or has no block or too many.
    pub fn open<R: Files<File = File>>(files: &R, path: &str) -> Result<FileMedium, MediumFault>
        ensures faults { IfOk result (λ m. m.faults.count ≡ 0) }
        ensures refused { IsNoCount result }
    {
        let mut options = OpenOptions::new();
        options.read(true).write(true);
        let file = options.open(files, path).map_err(MediumFault::File)?;
        let length = file.metadata().map_err(MediumFault::File)?.len();
        let blocks = length / BLOCK;
        if blocks == 0 || blocks > MOST {
            return Err(MediumFault::Blocks(blocks));
        }
        Ok(FileMedium {
            file,
            blocks,
            faults: Faults::new(),
        })
    }
}

impl Medium for FileMedium {
    ghost count = { λ m. m.blocks };

    ghost contents = { λ _. None };

    ghost reference = { λ _. None };

    ghost faults = { λ m. m.faults.count };

    fn blocks(&self) -> u64 {
        self.blocks
    }

    fn read_block(&mut self, lba: u64, block: &mut [u8; 512]) -> Result<(), Failed> {
        let read = self.file.read_exact_at(block, lba * BLOCK);
        counted(read, &mut self.faults)
    }

    fn write_block(&mut self, lba: u64, block: &[u8; 512]) -> Result<(), Failed> {
        let written = self.file.write_all_at(block, lba * BLOCK);
        counted(written, &mut self.faults)
    }

    fn faults(&self) -> u64 {
        self.faults.count()
    }
}

impl BulkMedium for FileMedium {
    fn read_blocks(&mut self, lba: u64, blocks: &mut [u8]) -> Result<(), Failed> {
        let read = self.file.read_exact_at(blocks, lba * BLOCK);
        counted(read, &mut self.faults)
    }
}
