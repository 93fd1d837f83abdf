ghost use Rattle.std.specs.Prelude.{◌≡◌, None, IfOk};
ghost use Rattle.pr_io.specs.Causes.{HasCause};

use crate::faults::{Faults, counted};
use crate::{DISK, Disk, FRESH_HEAD, Failed};
use std::fs::{File, Files, OpenOptions};
use std::io;
use std::io::ErrorKind;
use std::os::unix::fs::FileExt;

/// A disk over a file of 262,144 bytes. What it holds isn't told, as what a real file holds can't be.
#[derive(Drop)]
pub struct FileDisk {
    file: File,
    faults: Faults,
}

impl FileDisk {
    /// The disk over the file with this path. Where there is none it is made, with nothing kept. A
    /// loss of power while it is made may leave a file that can't be opened.
    ///
    /// # Errors
    ///
    /// Where the file can't be opened or made, and `InvalidData` where it has another length.
    pub fn open<R: Files<File = File>>(files: &R, path: &str) -> io::Result<FileDisk>
        ensures faults { IfOk result (λ d. d.faults.count ≡ 0) }
    {
        let mut options = OpenOptions::new();
        options.read(true).write(true);
        let file = match options.open(files, path) {
            Ok(file) => file,
            Err(e) if e.kind() == ErrorKind::NotFound => make(files, path)?,
            Err(e) => return Err(e),
        };
        if file.metadata()?.len() != DISK as u64 {
            return Err(ErrorKind::InvalidData.into());
        }
        Ok(FileDisk {
            file,
            faults: Faults::new(),
        })
    }
}

/// Makes a file in which nothing is kept: its head, and zeros.
fn make<R: Files<File = File>>(files: &R, path: &str) -> io::Result<File> {
    let mut options = OpenOptions::new();
    options.read(true).write(true).create_new(true);
    let file = options.open(files, path)?;
    file.set_len(DISK as u64)?;
    file.write_all_at(&FRESH_HEAD, 0)?;
    file.sync_all()?;
    Ok(file)
}

impl Disk for FileDisk {
    ghost use Rattle.pr_io.specs.Images.{untold};

    ghost story = { λ _. untold };

    ghost reference = { λ _. None };

    ghost faults = { λ d. d.faults.count };

    ghost since = { λ d t u c le may. may };

    ghost as_read = { λ d c e now may. absurd may };

    fn read_at(&mut self, at: u64, buf: &mut [u8]) -> Result<(), Failed> {
        let read = self.file.read_exact_at(buf, at);
        counted(read, &mut self.faults)
    }

    fn write_at(&mut self, at: u64, bytes: &[u8]) -> Result<(), Failed> {
        let written = self.file.write_all_at(bytes, at);
        counted(written, &mut self.faults)
    }

    fn sync(&mut self) -> Result<(), Failed> {
        let synced = self.file.sync_all();
        counted(synced, &mut self.faults)
    }

    fn faults(&self) -> u64 {
        self.faults.count()
    }
}
