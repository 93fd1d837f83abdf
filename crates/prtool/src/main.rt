//! The program: it makes the real objects, calls one function of the library, and says what came of it.
#![tactic(auto)]

mod line;
mod media;
mod serve;

use line::{command_line, cut};
use media::{fresh_image, zero_blocks};
use pr_fence::{explain as explain_fence, fence_main};
use pr_io::{StdinSource, StdoutSink, SureDisk, SureMedium, TcpWire};
use pr_persist::{explain, persist_main};
use pr_tool::{Exit, replay_main, show_main};
use serve::serve_files;
use std::alloc::AllocError;
use std::fmt::Display;
use std::io::ErrorKind;
use std::process::ExitCode;
use std::sync::Wait;
use std::thread::Threads;

fn main(rt: HostRuntime) -> ExitCode {
    ExitCode::from(run(&rt, &rt))
}

/// Runs the command that the words of the command line make, and gives its status.
fn run<R: Threads + Wait + Sync>(rt: &HostRuntime, threads: &R) -> u8 {
    match command_line(rt) {
        Ok(line) => match command(rt, threads, line.as_str()) {
            Ok(status) => status,
            Err(_) => ended(rt, Exit::NoMemory),
        },
        Err(error) if error.kind() == ErrorKind::OutOfMemory => ended(rt, Exit::NoMemory),
        Err(_) => ended(rt, Exit::BadWords),
    }
}

/// Runs the command of these words, the first of which is the program's name.
fn command<R: Threads + Wait + Sync>(
    rt: &HostRuntime,
    threads: &R,
    line: &str,
) -> Result<u8, AllocError> {
    let words = cut(rt.alloc(), line)?;
    match &words[1..] {
        ["show"] => Ok(ended(rt, show(rt)?)),
        words @ ["persist", ..] => Ok(persist(rt, words)),
        words @ ["fence", ..] => Ok(fence(rt, words)),
        words @ ["serve", ..] => Ok(target(rt, threads, words)),
        words => Ok(ended(rt, replay(rt, words)?)),
    }
}

/// Tells the user what is wrong.
fn complain<F: Display>(rt: &HostRuntime, fault: &F) {
    // Where the line can't be written, the status still says what was wrong.
    let _ = eprintln!(rt; "prtool: {fault}");
}

/// The status of a run over streams, of whose fault the user is told.
fn ended(rt: &HostRuntime, exit: Exit) -> u8 {
    if let Some(fault) = exit.fault() {
        complain(rt, &fault);
    }
    exit.status()
}

/// Shows the frames on standard input.
fn show(rt: &HostRuntime) -> Result<Exit, AllocError> {
    let alloc = rt.alloc();
    let mut source = StdinSource::new(alloc, rt.stdin())?;
    let mut sink = StdoutSink::new(rt.stdout());
    Ok(show_main(alloc, &mut source, &mut sink))
}

/// Replays standard input over a target whose blocks and registrations are in memory.
fn replay(rt: &HostRuntime, words: &[&str]) -> Result<Exit, AllocError> {
    let alloc = rt.alloc();
    let mut source = StdinSource::new(alloc, rt.stdin())?;
    let mut sink = StdoutSink::new(rt.stdout());
    let mut medium = SureMedium::new(zero_blocks(alloc)?);
    let mut disk = SureDisk::new(fresh_image(alloc)?);
    Ok(replay_main(alloc, words, &mut source, &mut sink, &mut medium, &mut disk))
}

/// Asks a target over TCP what the words ask, and tells the user of a fault.
fn persist(rt: &HostRuntime, words: &[&str]) -> u8 {
    let alloc = rt.alloc();
    let mut wire = TcpWire::new(rt);
    let mut sink = StdoutSink::new(rt.stdout());
    let exit = persist_main(alloc, words, &mut wire, &mut sink);
    if let Ok(Some(line)) = explain(alloc, words, exit) {
        complain(rt, &line);
    }
    exit.status()
}

/// Lets nodes in on devices over TCP, or fences them off, and tells the user of a fault.
fn fence(rt: &HostRuntime, words: &[&str]) -> u8 {
    let alloc = rt.alloc();
    let mut wire = TcpWire::new(rt);
    let mut sink = StdoutSink::new(rt.stdout());
    let exit = fence_main(alloc, words, &mut wire, &mut sink);
    if let Ok(Some(line)) = explain_fence(alloc, words, exit) {
        complain(rt, &line);
    }
    exit.status()
}

/// Serves a target over TCP, and tells the user of a fault.
fn target<R: Threads + Wait + Sync>(rt: &HostRuntime, threads: &R, words: &[&str]) -> u8 {
    match serve_files(rt, threads, words) {
        Ok(exit) => {
            if let Some(fault) = exit.fault() {
                complain(rt, &fault);
            }
            exit.status()
        }
        Err(refusal) => {
            complain(rt, &refusal);
            refusal.status()
        }
    }
}
