ghost use Rattle.std.specs.Prelude.{◌≡◌};
ghost use Rattle.prtool.specs.Refusals.{status_of, of_medium};

use pr_io::{FileDisk, FileMedium, MediumFault, ReadAhead, StdoutSink, TcpDoor};
use pr_serve::{ServeExit, ServeWords, serve_main, serve_words};
use std::alloc::AllocError;
use std::io;
use std::io::ErrorKind;
use std::sync::Wait;
use std::thread::Threads;
use thiserror::Error;

/// Why no target is served.
#[derive(Debug, Drop, Error)]
pub(crate) enum Refusal {
    /// The words of the command line aren't those of `serve`.
    #[error("`serve` takes an address, a registrations' file, a file of blocks, and maybe `--accept` with a number from 1 to 1000000")]
    Words,
    /// There was no memory for what a run needs.
    #[error("no memory for the run")]
    Memory(#[from] AllocError),
    /// The registrations' file can't be opened.
    #[error("the registrations' file can't be opened: {0}")]
    Registrations(io::Error),
    /// The registrations' file has another length than a disk.
    #[error("the registrations' file can't be opened: it has another length than 262144 bytes")]
    Length,
    /// The file of blocks can't be opened.
    #[error("the file of blocks can't be opened: {0}")]
    Blocks(io::Error),
    /// The file of blocks has so many of them.
    #[error("the file of blocks has {0} blocks of 512 bytes, and not 1 to 2^40")]
    Count(u64),
    /// Connections can't come in at the address.
    #[error("the address can't be listened on: {0}")]
    Address(io::Error),
}

impl Refusal {
    /// The exit status of the process.
    pub(crate) fn status(&self) -> u8
        ensures { result ≡ status_of self.now }
    {
        match self {
            Refusal::Words => 2,
            Refusal::Memory(_) => 7,
            Refusal::Registrations(_) | Refusal::Length | Refusal::Blocks(_) => 23,
            Refusal::Count(_) => 24,
            Refusal::Address(_) => 25,
        }
    }

    /// Why the registrations' file isn't opened.
    fn of_disk(error: io::Error) -> Refusal
        ensures { status_of result ≡ 23 }
    {
        match error.kind() {
            ErrorKind::InvalidData => Refusal::Length,
            _ => Refusal::Registrations(error),
        }
    }

    /// Why the file of blocks isn't opened.
    fn of_medium(fault: MediumFault) -> Refusal
        ensures { result ≡ of_medium fault }
    {
        match fault {
            MediumFault::File(error) => Refusal::Blocks(error),
            MediumFault::Blocks(count) => Refusal::Count(count),
        }
    }
}

/// What a target stands on, and where its connections come in.
#[derive(Drop)]
struct Opened {
    disk: FileDisk,
    medium: ReadAhead<FileMedium>,
    door: TcpDoor,
}

/// Opens what the words name.
fn open(rt: &HostRuntime, words: &ServeWords<'_>) -> Result<Opened, Refusal> {
    let alloc = rt.alloc();
    let disk = FileDisk::open(rt, words.registrations).map_err(Refusal::of_disk)?;
    let blocks = FileMedium::open(rt, words.blocks).map_err(Refusal::of_medium)?;
    let door = TcpDoor::listen(rt, alloc, words.address).map_err(Refusal::Address)?;
    let medium = ReadAhead::new(alloc, blocks)?;
    Ok(Opened { disk, medium, door })
}

/// Serves a target over the files that the words name, and says first where it listens.
pub(crate) fn serve_files<R: Threads + Wait + Sync>(
    rt: &HostRuntime,
    threads: &R,
    words: &[&str],
) -> Result<ServeExit, Refusal> {
    let Some(words) = serve_words(words) else {
        return Err(Refusal::Words);
    };
    let Opened { disk, medium, door } = open(rt, &words)?;
    let address = door.address().map_err(Refusal::Address)?;
    // Where the line can't be written, connections come in all the same.
    let _ = eprintln!(rt; "prtool: listening on {address}");
    let mut sink = StdoutSink::new(rt.stdout());
    let (exit, door) = serve_main(
        rt.alloc(),
        threads,
        words.accept,
        door,
        medium,
        disk,
        &mut sink,
    );
    drop(door);
    Ok(exit)
}
