//! A target in a gate that serves the connections of a door.

ghost use Rattle.std.specs.Prelude.{◌≡◌, ◌≤◌, ℕ, List, OnOk, IfErr, length};
ghost use Rattle.pr_io.specs.Told.{ToldStreams, told_sink};
ghost use Rattle.pr_gate.specs.Passes.{IsOf, IsFree, spare_of, seen_of};
ghost use Rattle.pr_session.specs.declared.session_end.SessionEnd.{SessionEnd};
ghost use Rattle.pr_serve.specs.Connections.{IsRightPass};
ghost use Rattle.pr_serve.specs.Accepting.{told_door, asked, Serves, EndsSo, IsCause, Found};

use crate::accepting::serve_all;
use crate::attending::no_sessions;
use crate::exit::ServeExit;
use crate::stop::Stop;
use crate::telling::tell_turns;
use pr_core::Core;
use pr_gate::{Gate, Pass};
use pr_io::{Disk, Door, Medium, Sink};
use pr_session::Session;
use std::alloc::Global;
use std::sync::Wait;
use std::thread::Threads;

/// How many connections are taken where no number is given: more than ever come.
const UNBOUNDED: u64 = 1 << 62;

/// How many connections are taken.
fn most(accept: Option<u64>) -> u64
    ensures { result ≡ asked accept }
{
    accept.unwrap_or(UNBOUNDED)
}

/// Says how many turns the target has done, where all connections were taken.
fn tell<K: Sink>(sink: &mut K, stopped: Result<(), Stop>, turns: u64) -> ServeExit
    ensures ends { (many taken : ℕ) (ends : List SessionEnd) (faults faults_now : ℕ)
        → OnOk stopped (taken ≡ many)
        → IfErr stopped (λ stop. IsCause stop (Found ends) faults faults_now)
        → EndsSo result many taken ends faults faults_now (told_sink K.Sink sink.old)
        (told_sink K.Sink sink.new) turns }
{
    match stopped {
        Ok(()) => match tell_turns(sink, turns) {
            Ok(()) => ServeExit::Done,
            Err(_) => ServeExit::WriteFault,
        },
        Err(Stop::Door) => ServeExit::DoorFault,
        Err(Stop::Spent(ticket)) => ServeExit::Spent { ticket },
    }
}

/// Serves the connections that come in at a door with a target in a gate, each in a thread of its
/// own, with a pass of its own that `pass` makes: so many, or, without a number, for ever. Then it
/// waits until all sessions have ended, and puts `turns T` and a line feed, where T is the number of
/// entries of the target's history. The door and the pass come back, and the pass has seen them all.
///
/// A thread is taken in before the next connection is taken after its session has ended. Where the
/// memory of a session or a thread is refused, the connection is served before others are taken.
/// `NoMemory` comes before any was taken alone. At another fault no more are taken, and it waits for
/// those that were.
pub fn serve_gate<A, M, D, K, R>(
    alloc: Global,
    rt: &R,
    accept: Option<u64>,
    door: A,
    gate: &Gate<Core<M, D>>,
    pass: Pass<Core<M, D>>,
    sink: &mut K,
) -> (ServeExit, A, Pass<Core<M, D>>)
where
    A: Door + Drop,
    M: Medium + Send + Drop,
    D: Disk + Send + Drop,
    K: Sink,
    R: Threads + Wait + Sync,
    requires gate { IsOf gate.now pass × IsFree pass }
    requires spare { asked accept ≤ spare_of pass }
    requires right { IsRightPass M.Medium D.Disk pass }
    ensures gate { IsOf gate.now result.2 × IsFree result.2 }
    ensures right { IsRightPass M.Medium D.Disk result.2 }
    ensures serves { (cs : List ToldStreams) × (ends : List SessionEnd)
        × Serves (told_door (A.waiting door) (A.taken door))
        (told_door (A.waiting result.1) (A.taken result.1)) pass result.2 cs ends
        × EndsSo result.0 (asked accept) (length cs) ends (A.faults door) (A.faults result.1)
        (told_sink K.Sink sink.old) (told_sink K.Sink sink.new) (length (seen_of result.2)) }
{
    let many = most(accept);
    let (Ok(spare), Ok(sessions)) = (Session::new(alloc), no_sessions(alloc, many as usize)) else {
        return (ServeExit::NoMemory, door, pass);
    };
    let (door, pass, stopped) = serve_all(rt, gate, door, pass, spare, sessions, many);
    let exit = tell(sink, stopped, pass.length());
    (exit, door, pass)
}
