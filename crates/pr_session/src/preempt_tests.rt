//! A WRITE under way in one thread, which another thread aborts.

ghost use denote.Param.Send.{IsSync};
ghost use Rattle.pr_gate.specs.Passes.{IsOf, IsFree};

use super::*;
use crate::requests::{
    PREEMPT, REGISTER, add_login, add_logout, add_read, add_read_keys, add_ready, add_reserve_out,
    add_write, connect, mark,
};
use crate::samples::{Target, fresh_gate, joined};
use pr_gate::{Gate, Pass};
use pr_io::{Breath, MemSink, NoBreath};
use pr_words::BLOCK;
use std::alloc::{AllocError, Global};
use std::sync::Wait;
use std::sync::atomic::{AtomicU64, Ordering};
use std::test::*;
use std::thread::{Threads, join, yield_now};

/// The writer's name and key, and those of the nexus that preempts it.
const WRITER: u64 = 0x11;

const OTHER: u64 = 0x12;

/// How many blocks are written, and behind how many the writer is aborted.
const BLOCKS: u8 = 8;

const WRITTEN: u32 = 3;

/// How often a thread looks for a word before it gives up.
const PATIENCE: u64 = 1_000_000_000;

fn raise(word: &AtomicU64) {
    word.store(1, Ordering::SeqCst);
}

/// Waits until another thread has raised the word.
fn watch(word: &AtomicU64) {
    for _ in 0..PATIENCE {
        if word.load(Ordering::SeqCst) == 1 {
            break;
        }
        yield_now();
    }
}

/// Behind some blocks it lets another thread go on, and waits until that has done its part.
#[derive(Clone, Copy)]
struct Pause<'a> {
    reached: &'a AtomicU64,
    answered: &'a AtomicU64,
}

impl Breath for Pause<'_> {
    fn between(&mut self, nexus: (u64, u16), done: u32) {
        if nexus == (WRITER, 1) && done == WRITTEN {
            raise(self.reached);
            watch(self.answered);
        }
    }
}

/// Serves the writer's frames in one thread; and in another, once the writer pauses, those of the
/// other nexus. It says how both ended, and what was written.
fn serve_both<R: Threads + Wait + Sync>(
    alloc: Global,
    rt: &R,
    gate: &Gate<Target>,
    mut one: Pass<Target>,
    mut two: Pass<Target>,
    writes: Vec<u8>,
    preempts: Vec<u8>,
) -> ((SessionEnd, MemSink), (SessionEnd, MemSink))
    requires { IsOf gate.now one × IsFree one × IsOf gate.now two × IsFree two }
{
    let (reached_word, answered_word) = (AtomicU64::new(0), AtomicU64::new(0));
    let (reached, answered) = (&reached_word, &answered_word);
    join(
        rt,
        move || -> (SessionEnd, MemSink)
            requires { IsSync R.row × IsOf gate.now one × IsFree one }
        {
            let mut pause = Pause { reached, answered };
            connect(alloc, rt, gate, &mut one, writes, &mut pause)
        },
        move || -> (SessionEnd, MemSink)
            requires { IsSync R.row × IsOf gate.now two × IsFree two }
        {
            watch(reached);
            let came = connect(alloc, rt, gate, &mut two, preempts, &mut NoBreath);
            raise(answered);
            came
        },
    )
}

/// What the writer sends: the WRITE that is aborted, and a command that is told why.
fn writes(alloc: Global) -> Result<Vec<u8>, AllocError> {
    let mut frames = Vec::new(alloc);
    add_login(&mut frames, WRITER)?;
    add_ready(&mut frames)?;
    add_reserve_out(&mut frames, REGISTER, 0, WRITER)?;
    add_write(&mut frames, 0, BLOCKS, 0)?;
    add_ready(&mut frames)?;
    add_logout(&mut frames)?;
    Ok(frames)
}

/// What the other nexus sends meanwhile.
fn preempts(alloc: Global) -> Result<Vec<u8>, AllocError> {
    let mut frames = Vec::new(alloc);
    add_login(&mut frames, OTHER)?;
    add_ready(&mut frames)?;
    add_reserve_out(&mut frames, REGISTER, 0, OTHER)?;
    add_reserve_out(&mut frames, PREEMPT, OTHER, WRITER)?;
    add_logout(&mut frames)?;
    Ok(frames)
}

/// And afterwards.
fn looks(alloc: Global) -> Result<Vec<u8>, AllocError> {
    let mut frames = Vec::new(alloc);
    add_login(&mut frames, OTHER)?;
    add_read_keys(&mut frames)?;
    add_read(&mut frames, 0, BLOCKS)?;
    add_logout(&mut frames)?;
    Ok(frames)
}

/// The replies, all with tag 0: a Login is accepted; GOOD; TASK ABORTED; 6/29/00 and 6/2A/05; the
/// key of the other nexus alone, registered by the third change; the head of eight blocks of
/// data-in; and a Logout's.
const ACCEPTED: &[u8] = b"\0\0\0\x0C\x81\0\0\0\0\0\0\0\0\0\0\0";

const GOOD: &[u8] = b"\0\0\0\x0C\x82\0\0\0\0\0\0\0\0\0\0\0";

const ABORTED: &[u8] = b"\0\0\0\x0C\x82\0\0\0\0\0\0\0\x40\0\0\0";

const POWERED: &[u8] = b"\0\0\0\x1E\x82\0\0\0\0\0\0\0\x02\x12\0\0\
    \x70\0\x06\0\0\0\0\x0A\0\0\0\0\x29\0\0\0\0\0";

const PREEMPTED: &[u8] = b"\0\0\0\x1E\x82\0\0\0\0\0\0\0\x02\x12\0\0\
    \x70\0\x06\0\0\0\0\x0A\0\0\0\0\x2A\x05\0\0\0\0";

const ONE_KEY: &[u8] = b"\0\0\0\x1C\x82\0\0\0\0\0\0\0\0\0\0\0\
    \0\0\0\x03\0\0\0\x08\0\0\0\0\0\0\0\x12";

const EIGHT_BLOCKS: &[u8] = b"\0\0\x10\x0C\x82\0\0\0\0\0\0\0\0\0\0\0";

const LEFT: &[u8] = b"\0\0\0\x08\x83\0\0\0\0\0\0\0";

/// The blocks of which the first ones were written.
fn blocks(alloc: Global) -> Result<Vec<u8>, AllocError> {
    let mut bytes = Vec::new(alloc);
    for lba in 0..BLOCKS {
        let is_written = u32::from(lba) < WRITTEN;
        let value = if is_written { mark(lba, 0) } else { 0 };
        bytes.extend_from_slice(&[value; BLOCK])?;
    }
    Ok(bytes)
}

// The writer's reply is TASK ABORTED, the blocks before its pause are written and none behind it,
// and its next command is told that its registration was preempted.
#[test]
fn a_write_is_aborted_in_its_middle(rt: HostRuntime) -> Result<(), Fail> {
    let alloc = rt.alloc();
    let (gate, mut first) = fresh_gate(alloc)?;
    let one = gate.new_pass(&mut first);
    let two = gate.new_pass(&mut first);
    let (writer, other) = serve_both(
        alloc,
        &rt,
        &gate,
        one,
        two,
        writes(alloc)?,
        preempts(alloc)?,
    );
    let last = connect(alloc, &rt, &gate, &mut first, looks(alloc)?, &mut NoBreath);
    let held = blocks(alloc)?;
    let wanted = [
        joined(alloc, &[ACCEPTED, POWERED, GOOD, ABORTED, PREEMPTED, LEFT])?,
        joined(alloc, &[ACCEPTED, POWERED, GOOD, GOOD, LEFT])?,
        joined(alloc, &[ACCEPTED, ONE_KEY, EIGHT_BLOCKS, &held, LEFT])?,
    ];
    for ((end, sink), wanted) in [writer, other, last].into_iter().zip(wanted) {
        assert_eq!(rt; end, SessionEnd::Closed);
        assert_eq!(rt; sink.bytes(), wanted.as_slice());
    }
    Ok(())
}
