//! A connection that can't go on before another one, which is taken later, has ended.

ghost use Rattle.std.specs.Prelude.{None};

use super::*;
use crate::samples::{FIRST, REPLIES, SECOND, fresh_disk, medium, talk};
use pr_io::{Failed, MemDoor, MemSink, Sink, Source, SureSource};
use std::alloc::Global;
use std::sync::atomic::{AtomicU64, Ordering};
use std::test::*;
use std::thread::yield_now;

/// How many bytes a call gives at most: fewer than a Login has.
const PIECE: usize = 16;

/// How often a thread looks for a word before it gives up.
const PATIENCE: u64 = 1_000_000_000;

/// Waits until another thread has raised the word, and says whether it did.
fn watch(word: &AtomicU64) -> bool {
    for _ in 0..PATIENCE {
        if word.load(Ordering::SeqCst) == 1 {
            return true;
        }
        yield_now();
    }
    false
}

/// Bytes in small pieces. Behind the first of them they wait for a word, and end without it.
#[derive(Drop)]
struct Pausing<'a> {
    bytes: SureSource,
    is_first: bool,
    awaited: Option<&'a AtomicU64>,
}

impl Source for Pausing<'_> {
    ghost rest = { λ _. None };

    ghost faults = { λ _. 0 };

    fn take(&mut self, buf: &mut [u8]) -> Result<usize, Failed> {
        if !self.is_first {
            if let Some(word) = self.awaited {
                if !watch(word) {
                    return Ok(0);
                }
            }
        }
        self.is_first = false;
        let most = buf.len().min(PIECE);
        self.bytes.take(&mut buf[..most])
    }
}

/// A sink that raises a word once all replies were put.
#[derive(Drop)]
struct Telling<'a> {
    sink: &'a mut MemSink,
    told: &'a AtomicU64,
}

impl Sink for Telling<'_> {
    ghost written = { λ s. ⟦<MemSink as Sink>⟧.written s.sink.now };

    ghost faults = { λ s. ⟦<MemSink as Sink>⟧.faults s.sink.now };

    fn put(&mut self, piece: &[u8]) -> Result<usize, Failed> {
        let count = self.sink.put(piece)?;
        if self.sink.bytes() == REPLIES {
            self.told.store(1, Ordering::SeqCst);
        }
        Ok(count)
    }
}

/// What a connection sends that begins with this Login.
fn source_of<'a>(
    alloc: Global,
    login: &[u8],
    awaited: Option<&'a AtomicU64>,
) -> Result<Pausing<'a>, Fail> {
    Ok(Pausing {
        bytes: SureSource::new(talk(alloc, login)?),
        is_first: true,
        awaited,
    })
}

// The first connection has given no whole Login when the second one comes in and is served.
#[test]
fn connections_are_served_side_by_side(rt: HostRuntime) -> Result<(), Fail> {
    let alloc = rt.alloc();
    let (one, two) = (AtomicU64::new(0), AtomicU64::new(0));
    let mut first = MemSink::new(alloc, Vec::new(alloc));
    let mut second = MemSink::new(alloc, Vec::new(alloc));
    let mut line = MemSink::new(alloc, Vec::new(alloc));
    let source = source_of(alloc, FIRST, Some(&two))?;
    let sink = Telling {
        sink: &mut first,
        told: &one,
    };
    let mut connections = Vec::new(alloc);
    connections.push((source, sink))?;
    let source = source_of(alloc, SECOND, None)?;
    let sink = Telling {
        sink: &mut second,
        told: &two,
    };
    connections.push((source, sink))?;
    let door = MemDoor::new(connections, Vec::new(alloc));
    let disk = fresh_disk(alloc)?;
    let (exit, door) = serve_main(alloc, &rt, Some(2), door, medium(alloc)?, disk, &mut line);
    drop(door);
    assert_eq!(rt; exit, ServeExit::Done);
    assert_eq!(rt; line.bytes(), b"turns 6\n".as_slice());
    assert_eq!(rt; first.bytes(), REPLIES);
    assert_eq!(rt; second.bytes(), REPLIES);
    Ok(())
}
