ghost use Rattle.std.specs.Prelude.{◌≡◌, ◌≤◌, ◌<◌, ◌++◌, None, length, take, slice_range, IfOk, OnOk, OnErr};
ghost use Rattle.std.specs.Io.KnownBytes.{Consumes, IsAtEnd, Keeps, ReadConsumes, WriteAppends};
ghost use Rattle.pr_io.specs.Ahead.{left_of};
ghost use Rattle.pr_io.specs.Causes.{HasCause};
ghost use Rattle.pr_io.specs.Streams.{HasEnded, MovesInto, Reaches};
ghost use Rattle.pr_io.specs.declared.standard.TheConstants.{AHEAD};

use crate::faults::Faults;
use crate::{Failed, Sink, Source};
use std::alloc::{AllocError, Global};
use std::io::{ErrorKind, Read, Write};

/// How many bytes are read ahead.
const AHEAD: usize = 65_536;

/// How often a call is made again that a signal interrupted.
const TRIES: u32 = 1000;

/// A source over a reader, as standard input. Its rest isn't told, as what a real stream holds
/// can't be; what it gives is what the reader gave, in order, each byte once.
///
/// It reads ahead in pieces of 64 KiB, so that small takes cost no system call.
#[derive(Drop)]
pub struct StdinSource<R: Read + Drop> {
    reader: R,
    ahead: Vec<u8>,
    from: usize,
    to: usize,
    faults: Faults,
    ghost order: { from ≤ to },
    ghost within: { to ≤ length ahead.items },
    ghost room: { length ahead.items ≡ AHEAD },
}

impl<R: Read + Drop> StdinSource<R> {
    /// A source over this reader. Later calls take no memory.
    ///
    /// # Errors
    ///
    /// Where the memory for what is read ahead is refused.
    pub fn new(alloc: Global, reader: R) -> Result<StdinSource<R>, AllocError>
        ensures faults { IfOk result (λ s. s.faults.count ≡ 0) }
        ensures reader { IfOk result (λ s. s.reader ≡ reader) }
        ensures none { IfOk result (λ s. s.from ≡ s.to) }
    {
        Ok(StdinSource {
            reader,
            ahead: vec![in alloc; 0u8; AHEAD]?,
            from: 0,
            to: 0,
            faults: Faults::new(),
        })
    }

    /// Reads ahead, where nothing is held.
    fn read_ahead(&mut self) -> Result<(), Failed>
        ensures front { self.new.from ≡ 0 }
        ensures told { OnOk result (Consumes (R.remaining self.old.reader)
            (R.remaining self.new.reader) (take self.new.to self.new.ahead.items)) }
        ensures end { OnOk result (self.new.to ≡ 0 → IsAtEnd (R.remaining self.new.reader)) }
        ensures kept { OnErr result (Keeps (R.remaining self.old.reader)
            (R.remaining self.new.reader)) }
        ensures none { OnErr result (self.new.to ≡ 0) }
        ensures cause { HasCause self.old.faults.count self.new.faults.count result }
    {
        self.from = 0;
        self.to = 0;
        self.to = read_some(&mut self.reader, &mut self.ahead, &mut self.faults)?;
        Ok(())
    }

    /// Moves what is held into the front of the buffer, as far as it has room.
    fn give(&mut self, buf: &mut [u8]) -> usize
        ensures count { result ≤ length buf.old }
        ensures held { slice_range self.old.ahead.items self.old.from self.old.to
            ≡ take result buf.new ++ slice_range self.new.ahead.items self.new.from self.new.to }
        ensures none { result ≡ 0 → 0 < length buf.old → self.old.from ≡ self.old.to }
        ensures reader { self.new.reader ≡ self.old.reader }
        ensures faults { self.new.faults.count ≡ self.old.faults.count }
    {
        let held = &self.ahead[self.from..self.to];
        let n = held.len().min(buf.len());
        buf[..n].copy_from_slice(&held[..n]);
        self.from += n;
        n
    }
}

impl<R: Read + Drop> Source for StdinSource<R> {
    ghost rest = { λ _. None };

    ghost faults = { λ s. s.faults.count };

    fn take(&mut self, buf: &mut [u8]) -> Result<usize, Failed>
        ensures count { IfOk result (λ n. n ≤ length buf.old) }
        ensures bytes { MovesInto None None result buf.new }
        ensures end { IfOk result (λ n. HasEnded None n (length buf.old)) }
        ensures cause { HasCause self.old.faults.count self.new.faults.count result }
        ensures told { ReadConsumes (left_of self.old.ahead.items self.old.from self.old.to
            (R.remaining self.old.reader)) (left_of self.new.ahead.items self.new.from self.new.to
            (R.remaining self.new.reader)) result buf.new }
    {
        if self.from < self.to || buf.is_empty() {
            return Ok(self.give(buf));
        }
        if buf.len() >= AHEAD {
            return read_some(&mut self.reader, buf, &mut self.faults);
        }
        self.read_ahead()?;
        Ok(self.give(buf))
    }
}

/// A sink over a writer, as standard output. What was put isn't told, as what a real stream took
/// can't be.
///
/// Each piece goes out at once, in one call of the writer.
#[derive(Drop)]
pub struct StdoutSink<W: Write + Drop> {
    writer: W,
    faults: Faults,
}

impl<W: Write + Drop> StdoutSink<W> {
    /// A sink over this writer.
    pub fn new(writer: W) -> StdoutSink<W>
        ensures faults { result.faults.count ≡ 0 }
        ensures writer { result.writer ≡ writer }
    {
        StdoutSink {
            writer,
            faults: Faults::new(),
        }
    }
}

impl<W: Write + Drop> Sink for StdoutSink<W> {
    ghost written = { λ _. None };

    ghost faults = { λ s. s.faults.count };

    fn put(&mut self, piece: &[u8]) -> Result<usize, Failed>
        ensures count { IfOk result (λ n. n ≤ length piece.now) }
        ensures some { IfOk result (λ n. 0 < length piece.now → 0 < n) }
        ensures bytes { Reaches None None result piece.now }
        ensures cause { HasCause self.old.faults.count self.new.faults.count result }
        ensures told { WriteAppends (W.contents self.old.writer)
            (W.contents self.new.writer) result piece.now }
    {
        put_some(&mut self.writer, piece, &mut self.faults)
    }
}

/// One read, made again where a signal interrupts it.
pub(crate) fn read_some<R: Read>(
    reader: &mut R,
    buf: &mut [u8],
    faults: &mut Faults,
) -> Result<usize, Failed>
    ensures count { IfOk result (λ n. n ≤ length buf.old) }
    ensures told { ReadConsumes (R.remaining reader.old) (R.remaining reader.new) result buf.new }
    ensures cause { HasCause faults.old.count faults.new.count result }
{
    for _ in 0..TRIES {
        match reader.read(buf) {
            Ok(n) => return Ok(n),
            Err(error) => {
                if error.kind() != ErrorKind::Interrupted {
                    break;
                }
            }
        }
    }
    Err(faults.raise())
}

/// One write, which fails where the writer takes nothing.
pub(crate) fn put_some<W: Write>(
    writer: &mut W,
    piece: &[u8],
    faults: &mut Faults,
) -> Result<usize, Failed>
    ensures count { IfOk result (λ n. n ≤ length piece.now) }
    ensures some { IfOk result (λ n. 0 < length piece.now → 0 < n) }
    ensures told { WriteAppends (W.contents writer.old) (W.contents writer.new) result piece.now }
    ensures cause { HasCause faults.old.count faults.new.count result }
{
    let n = write_some(writer, piece, faults)?;
    if n == 0 && !piece.is_empty() {
        return Err(faults.raise());
    }
    Ok(n)
}

/// One write, made again where a signal interrupts it.
fn write_some<W: Write>(writer: &mut W, piece: &[u8], faults: &mut Faults) -> Result<usize, Failed>
    ensures count { IfOk result (λ n. n ≤ length piece.now) }
    ensures told { WriteAppends (W.contents writer.old) (W.contents writer.new) result piece.now }
    ensures cause { HasCause faults.old.count faults.new.count result }
{
    for _ in 0..TRIES {
        match writer.write(piece) {
            Ok(n) => return Ok(n),
            Err(error) => {
                if error.kind() != ErrorKind::Interrupted {
                    break;
                }
            }
        }
    }
    Err(faults.raise())
}
