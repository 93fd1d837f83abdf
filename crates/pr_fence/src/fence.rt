ghost use Rattle.std.specs.Prelude.{◌≡◌, Ok, Err};
ghost use Rattle.pr_io.specs.Told.{told_sink};
ghost use Rattle.pr_initiator.specs.Links.{link_of};
ghost use Rattle.pr_words.specs.declared.nexus.Key.{Key};
ghost use Rattle.pr_fence.specs.Ousting.{OustsAll};
ghost use Rattle.pr_fence.specs.Views.{texts_of, planned_of};
ghost use Rattle.pr_fence.specs.Words.{Wanted, wanted_by};
ghost use Rattle.pr_fence.specs.Whole.{Ends, HasRun, told_wire, wire_of, exit_of as spec_exit};

use crate::exit::{FenceExit, ended};
use crate::plan::{Errand, Plan};
use crate::running::run;
use crate::words::{Refusal, plan_of};
use pr_initiator::Initiator;
use pr_io::{Sink, Wire};
use std::alloc::Global;

/// The exit of a run.
fn exit_of(errand: Errand, ran: Result<bool, FenceExit>) -> FenceExit
    ensures { result ≡ spec_exit errand ran }
{
    match ran {
        Ok(found) => ended(errand, found),
        Err(exit) => exit,
    }
}

/// Runs a plan, and gives the wire back.
fn run_over<W: Wire + Drop, K: Sink>(
    mut initiator: Initiator<W>,
    sink: &mut K,
    plan: &Plan<'_>,
) -> (FenceExit, W)
    ensures run { HasRun (planned_of plan.now) (wire_of (link_of initiator))
        (told_wire W.Wire result.1) (told_sink K.Sink sink.old) (told_sink K.Sink sink.new)
        result.0 }
    ensures reference { W.reference result.1 ≡ (link_of initiator).reference }
    ensures comes { W.comes initiator.wire result.1 }
{
    let ran = run(&mut initiator, sink, plan);
    (exit_of(plan.errand, ran), initiator.into_wire())
}

/// Reads the words, runs what they ask for, and gives the wire back.
fn read_and_run<W: Wire + Drop, K: Sink>(
    alloc: Global,
    words: &[&str],
    wire: W,
    sink: &mut K,
) -> (FenceExit, W)
    ensures ends { Ends (wanted_by (texts_of words.now)) (told_wire W.Wire wire)
        (told_wire W.Wire result.1) (told_sink K.Sink sink.old) (told_sink K.Sink sink.new)
        result.0 }
    ensures reference { W.reference result.1 ≡ W.reference wire }
    ensures comes { W.comes wire result.1 }
{
    match plan_of(words) {
        Ok(plan) => match Initiator::new(alloc, wire) {
            Ok(initiator) => run_over(initiator, sink, &plan),
            Err(wire) => (FenceExit::NoMemory, wire),
        },
        Err(Refusal::BadWords) => (FenceExit::BadWords, wire),
        Err(Refusal::SelfFence) => (FenceExit::SelfFence, wire),
    }
}

/// Does what the words ask on each of the devices over a wire, in order, and prints a line for
/// each. The first word is the command's name. All memory is taken before anything is dialled.
pub fn fence_main<W: Wire, K: Sink>(
    alloc: Global,
    words: &[&str],
    wire: &mut W,
    sink: &mut K,
) -> FenceExit
    ensures ends { Ends (wanted_by (texts_of words.now)) (told_wire W.Wire wire.old)
        (told_wire W.Wire wire.new) (told_sink K.Sink sink.old) (told_sink K.Sink sink.new)
        result }
    ensures words { result ≡ FenceExit.BadWords →
        wanted_by (texts_of words.now) ≡ Err Refusal.BadWords }
    ensures itself { result ≡ FenceExit.SelfFence →
        wanted_by (texts_of words.now) ≡ Err Refusal.SelfFence }
    ensures ousts { (w : Wanted) (victim : Key) → wanted_by (texts_of words.now) ≡ Ok w →
        w.errand ≡ Errand.Off victim → result ≡ FenceExit.Done →
        OustsAll w victim (told_wire W.Wire wire.old) (told_wire W.Wire wire.new) }
    ensures comes { W.comes wire.old wire.new }
{
    let (exit, _wire) = read_and_run(alloc, words, wire, sink);
    exit
}
