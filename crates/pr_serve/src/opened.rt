//! A target over a medium and a disk that serves the connections of a door.

ghost use Rattle.std.specs.Prelude.{◌≡◌, ◌≤◌, ◌^◌, List, length};
ghost use Rattle.pr_io.specs.Told.{ToldStreams, told_sink};
ghost use Rattle.pr_serve.specs.Accepting.{told_door, asked};
ghost use Rattle.pr_serve.specs.Opened.{Ran};

use crate::exit::ServeExit;
use crate::serving::serve_gate;
use pr_io::{Disk, Door, Medium, Sink};
use pr_session::open_gate;
use std::alloc::Global;
use std::sync::Wait;
use std::thread::Threads;

/// Opens a target over a medium and a disk, and serves the connections that come in at a door, as
/// `serve_gate` does: so many, or, without a number, for ever. The door comes back.
pub fn serve_main<A, M, D, K, R>(
    alloc: Global,
    rt: &R,
    accept: Option<u64>,
    door: A,
    medium: M,
    disk: D,
    sink: &mut K,
) -> (ServeExit, A)
where
    A: Door + Drop,
    M: Medium + Send + Drop,
    D: Disk + Send + Drop,
    K: Sink,
    R: Threads + Wait + Sync,
    requires few { asked accept ≤ 2 ^ 62 }
    ensures ran { Ran M.Medium D.Disk result.0 (asked accept) (D.story disk) (D.faults disk)
        (M.count medium)
        (told_door (A.waiting door) (A.taken door))
        (told_door (A.waiting result.1) (A.taken result.1)) (A.faults door) (A.faults result.1)
        (told_sink K.Sink sink.old) (told_sink K.Sink sink.new) }
{
    match open_gate(alloc, medium, disk) {
        Ok((gate, pass)) => {
            let (exit, door, pass) = serve_gate(alloc, rt, accept, door, &gate, pass, sink);
            drop(pass);
            drop(gate);
            (exit, door)
        }
        Err(fault) => (ServeExit::OpenFault(fault), door),
    }
}
