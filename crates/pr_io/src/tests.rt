ghost use Rattle.std.specs.Prelude.{◌≡◌, ◌<◌};

use super::*;
use std::io;
use std::io::{ErrorKind, Read, Write};
use std::test::*;

/// A stream whose calls end as the script says: a count of bytes at most, or an error.
#[derive(Drop)]
struct Scripted {
    bytes: Vec<u8>,
    at: usize,
    script: Vec<Result<usize, ErrorKind>>,
    calls: usize,
}

impl Scripted {
    fn next(&mut self) -> io::Result<usize> {
        let step = self.script.get(self.calls).copied();
        self.calls = self.calls.saturating_add(1);
        match step {
            Some(Ok(most)) => Ok(most),
            Some(Err(kind)) => Err(kind.into()),
            None => Ok(usize::MAX),
        }
    }
}

impl Read for Scripted {
    fn read(&mut self, buf: &mut [u8]) -> io::Result<usize> {
        let most = self.next()?;
        let left = self.bytes.get(self.at..).unwrap_or(&[]);
        let n = left.len().min(buf.len()).min(most);
        buf[..n].copy_from_slice(&left[..n]);
        self.at = self.at.saturating_add(n);
        Ok(n)
    }
}

impl Write for Scripted {
    fn write(&mut self, buf: &[u8]) -> io::Result<usize> {
        let n = self.next()?.min(buf.len());
        self.bytes.extend_from_slice(&buf[..n])?;
        Ok(n)
    }

    fn flush(&mut self) -> io::Result<()> {
        Ok(())
    }
}

#[test]
fn a_stream_that_fails_in_the_middle_goes_on(rt: HostRuntime) -> Result<(), Fail> {
    let alloc = rt.alloc();
    let interrupted = Err(ErrorKind::Interrupted);
    let broken = Err(ErrorKind::BrokenPipe);
    let script = [interrupted, Ok(3), broken, Ok(9), broken];
    let reader = Scripted {
        bytes: b"abcdefgh".to_vec(alloc)?,
        at: 0,
        script: script.to_vec(alloc)?,
        calls: 0,
    };
    let mut source = StdinSource::new(alloc, reader)?;
    let mut buf = [0u8; 4];
    let wanted: [(Result<usize, Failed>, &[u8]); 6] = [
        (Ok(3), b"abc"),
        (Err(Failed), b""),
        (Ok(4), b"defg"),
        (Ok(1), b"h"),
        (Err(Failed), b""),
        (Ok(0), b""),
    ];
    for (result, bytes) in wanted {
        let taken = source.take(&mut buf);
        assert_eq!(rt; taken, result);
        let n = taken.unwrap_or(0);
        assert!(rt; buf.get(..n) == Some(bytes));
    }
    Ok(())
}

#[test]
fn a_writer_that_takes_nothing_is_a_fault(rt: HostRuntime) -> Result<(), Fail> {
    let alloc = rt.alloc();
    let script = [
        Err(ErrorKind::Interrupted),
        Ok(2),
        Ok(0),
        Err(ErrorKind::BrokenPipe),
        Ok(9),
    ];
    let mut sink = StdoutSink::new(Scripted {
        bytes: Vec::new(alloc),
        at: 0,
        script: script.to_vec(alloc)?,
        calls: 0,
    });
    assert_eq!(rt; sink.put(b"abc"), Ok(2));
    assert_eq!(rt; sink.put(b"c"), Err(Failed));
    assert_eq!(rt; sink.put(b"c"), Err(Failed));
    assert_eq!(rt; sink.put(b"cd"), Ok(2));
    Ok(())
}

#[test]
fn bytes_pass_through_a_pipe(rt: HostRuntime) -> Result<(), Fail> {
    let alloc = rt.alloc();
    let (reader, writer) = io::pipe(&rt)?;
    let mut sink = StdoutSink::new(writer);
    put_three(&mut sink, b"one ", b"", b"two")?;
    drop(sink);
    let mut source = StdinSource::new(alloc, reader)?;
    let mut head = [0u8; 4];
    let mut rest = vec![in alloc; 0u8; 70_000]?;
    assert_eq!(rt; read_up_to(&mut source, &mut head), Ok(4));
    assert_eq!(rt; read_up_to(&mut source, &mut rest), Ok(3));
    assert_eq!(rt; head, *b"one ");
    assert!(rt; rest.starts_with(b"two"));
    Ok(())
}

#[test]
fn a_source_in_memory_fails_where_it_is_told(rt: HostRuntime) -> Result<(), Fail> {
    let alloc = rt.alloc();
    let bytes = b"abcdefg".to_vec(alloc)?;
    let mut source = MemSource::in_pieces(bytes, 2, [2].to_vec(alloc)?);
    let mut buf = [0u8; 3];
    assert!(rt; read_up_to(&mut &mut source, &mut buf).is_err());
    assert!(rt; read_up_to(&mut source, &mut buf) == Ok(3));
    assert!(rt; buf == *b"cde");
    Ok(())
}

#[test]
fn a_sink_in_memory_fails_where_it_is_told(rt: HostRuntime) -> Result<(), Fail> {
    let alloc = rt.alloc();
    let mut sink = MemSink::in_pieces(alloc, 3, [4].to_vec(alloc)?);
    put_two(&mut &mut sink, b"one ", b"two")?;
    assert!(rt; put_all(&mut sink, b"!").is_err());
    assert!(rt; sink.bytes() == b"one two".as_slice());
    assert!(rt; sink.starved() == 0);
    Ok(())
}

#[test]
fn streams_that_never_fail(rt: HostRuntime) -> Result<(), Fail> {
    let mut source = SureSource::new(b"abc".to_vec(rt.alloc())?);
    assert!(rt; read_up_to(&mut source, &mut [0u8; 4]) == Ok(3));
    assert!(rt; put_all(&mut SureSink::new(), b"abc").is_ok());
    Ok(())
}

#[test]
fn a_medium_that_never_fails(rt: HostRuntime) -> Result<(), Fail> {
    let mut medium = SureMedium::new(vec![in rt.alloc(); 0u8; 1024]?);
    assert!(rt; (&mut medium).blocks() == 2);
    assert!(rt; write_and_read(&mut medium, 1, 0xA1) == Ok(0xA1));
    assert!(rt; Medium::faults(&medium) == 0);
    Ok(())
}

/// Writes a block of this byte, and reads it back.
fn write_and_read<M: Medium>(medium: &mut M, lba: u64, byte: u8) -> Result<u8, Failed>
    requires { lba < M.count medium.old }
    ensures count { M.count medium.new ≡ M.count medium.old }
{
    let mut block = [byte; 512];
    medium.write_block(lba, &block)?;
    block = [0; 512];
    medium.read_block(lba, &mut block)?;
    Ok(block[511])
}

#[test]
fn a_medium_fails_at_its_third_write_and_at_a_read(rt: HostRuntime) -> Result<(), Fail> {
    let alloc = rt.alloc();
    let failing = [5, 7].to_vec(alloc)?;
    let mut medium = MemMedium::new(vec![in alloc; 0u8; 2048]?, failing);
    let mut outer = &mut medium;
    assert_eq!(rt; write_and_read(&mut outer, 0, 0xA0), Ok(0xA0));
    assert_eq!(rt; write_and_read(&mut outer, 3, 0xA3), Ok(0xA3));
    assert_eq!(rt; write_and_read(&mut outer, 1, 0xA1), Err(Failed));
    assert_eq!(rt; write_and_read(&mut outer, 2, 0xA2), Err(Failed));
    assert_eq!(rt; Medium::faults(&medium), 2);
    let wanted = [0xA0, 0xA0, 0x00, 0x00, 0xA2, 0xA2, 0xA3, 0xA3];
    for (place, byte) in [0, 511, 512, 1023, 1024, 1535, 1536, 2047]
        .into_iter()
        .zip(wanted)
    {
        assert_eq!(rt; medium.bytes().get(place).copied(), Some(byte));
    }
    Ok(())
}
