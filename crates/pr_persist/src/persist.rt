ghost use Rattle.std.specs.Prelude.{◌≡◌, ◌<◌, None, map};
ghost use Rattle.pr_io.specs.Told.{told_sink};
ghost use Rattle.pr_initiator.specs.Links.{link_of};
ghost use Rattle.pr_persist.specs.Asking.{wanted_by, wanted_of};
ghost use Rattle.pr_persist.specs.Whole.{Ends, HasRun, told_wire, wire_of, exit_of as spec_exit};

use crate::exit::PersistExit;
use crate::plan::Plan;
use crate::running::run;
use crate::words::{Refusal, plan_of};
use pr_initiator::Initiator;
use pr_io::{Sink, Wire};
use std::alloc::Global;

/// The exit of a run.
fn exit_of(ran: Result<(), PersistExit>) -> PersistExit
    ensures { result ≡ spec_exit ran }
{
    match ran {
        Ok(()) => PersistExit::Done,
        Err(exit) => exit,
    }
}

/// Runs a plan, and gives the wire back.
fn run_over<W: Wire + Drop, K: Sink>(
    mut initiator: Initiator<W>,
    sink: &mut K,
    plan: &Plan<'_>,
) -> (PersistExit, W)
    requires { plan.now.fields.kind < 16 }
    ensures run { HasRun (wanted_of plan.now) (wire_of (link_of initiator))
        (told_wire W.Wire result.1) (told_sink K.Sink sink.old) (told_sink K.Sink sink.new)
        result.0 }
    ensures reference { W.reference result.1 ≡ (link_of initiator).reference }
    ensures comes { W.comes initiator.wire result.1 }
{
    let ran = run(&mut initiator, sink, plan);
    (exit_of(ran), initiator.into_wire())
}

/// Reads the words, runs what they ask for, and gives the wire back.
fn read_and_run<W: Wire + Drop, K: Sink>(
    alloc: Global,
    words: &[&str],
    wire: W,
    sink: &mut K,
) -> (PersistExit, W)
    ensures ends { Ends (wanted_by (map (λ w. w.now) words.now)) (told_wire W.Wire wire)
        (told_wire W.Wire result.1) (told_sink K.Sink sink.old) (told_sink K.Sink sink.new)
        result.0 }
    ensures reference { W.reference result.1 ≡ W.reference wire }
    ensures comes { W.comes wire result.1 }
{
    match plan_of(alloc, words) {
        Ok(plan) => match Initiator::new(alloc, wire) {
            Ok(initiator) => run_over(initiator, sink, &plan),
            Err(wire) => (PersistExit::NoMemory, wire),
        },
        Err(Refusal::BadWords) => (PersistExit::BadWords, wire),
        Err(Refusal::NoMemory) => (PersistExit::NoMemory, wire),
    }
}

/// Does what the words ask of a target over a wire, and prints what it answered. The first word is
/// the command's name. All memory is taken before anything is dialled.
pub fn persist_main<W: Wire, K: Sink>(
    alloc: Global,
    words: &[&str],
    wire: &mut W,
    sink: &mut K,
) -> PersistExit
    ensures ends { Ends (wanted_by (map (λ w. w.now) words.now)) (told_wire W.Wire wire.old)
        (told_wire W.Wire wire.new) (told_sink K.Sink sink.old) (told_sink K.Sink sink.new)
        result }
    ensures words { result ≡ PersistExit.BadWords →
        wanted_by (map (λ w. w.now) words.now) ≡ None }
    ensures comes { W.comes wire.old wire.new }
{
    let (exit, _wire) = read_and_run(alloc, words, wire, sink);
    exit
}
