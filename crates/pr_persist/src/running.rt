ghost use Rattle.std.specs.Prelude.{◌≡◌, ◌<◌};
ghost use Rattle.pr_io.specs.Told.{told_sink};
ghost use Rattle.pr_initiator.specs.Links.{Comes, link_of};
ghost use Rattle.pr_persist.specs.Asking.{wanted_of};
ghost use Rattle.pr_persist.specs.Whole.{at, Looks, Tells, ActsAndTells, Finishes, Continues, Runs};

use crate::exit::PersistExit;
use crate::plan::{Action, Plan};
use crate::showing::{show, show_inquiry};
use crate::steps::{act, close, inquire, open};
use pr_initiator::Initiator;
use pr_io::{Sink, Wire};

/// Asks for standard INQUIRY data and shows them, unless they are left out.
fn look<W: Wire + Drop, K: Sink>(
    initiator: &mut Initiator<W>,
    sink: &mut K,
    inquires: bool,
) -> Result<(), PersistExit>
    ensures step { Looks inquires (at (link_of initiator.old) (told_sink K.Sink sink.old))
        (at (link_of initiator.new) (told_sink K.Sink sink.new)) result }
    ensures comes { Comes initiator.old initiator.new }
{
    if !inquires {
        return Ok(());
    }
    match inquire(initiator) {
        Ok(_) => show_inquiry(sink, initiator.received()),
        Err(exit) => Err(exit),
    }
}

/// Shows the data of the last answer, where the action has some.
fn tell<W: Wire + Drop, K: Sink>(
    initiator: &Initiator<W>,
    sink: &mut K,
    action: Action,
) -> Result<(), PersistExit>
    ensures { Tells action (at (link_of initiator.now) (told_sink K.Sink sink.old))
        (at (link_of initiator.now) (told_sink K.Sink sink.new)) result }
{
    match action {
        Action::In(service) => show(sink, service, initiator.received()),
        Action::Out(_) => Ok(()),
    }
}

/// Sends the command that is asked for, and shows its data.
fn act_and_tell<W: Wire + Drop, K: Sink>(
    initiator: &mut Initiator<W>,
    sink: &mut K,
    plan: &Plan<'_>,
) -> Result<(), PersistExit>
    requires { plan.now.fields.kind < 16 }
    ensures step { ActsAndTells (wanted_of plan.now)
        (at (link_of initiator.old) (told_sink K.Sink sink.old))
        (at (link_of initiator.new) (told_sink K.Sink sink.new)) result }
    ensures comes { Comes initiator.old initiator.new }
{
    match act(initiator, plan) {
        Ok(_) => tell(initiator, sink, plan.action),
        Err(exit) => Err(exit),
    }
}

/// Does what is asked for, and logs out.
fn finish<W: Wire + Drop, K: Sink>(
    initiator: &mut Initiator<W>,
    sink: &mut K,
    plan: &Plan<'_>,
) -> Result<(), PersistExit>
    requires { plan.now.fields.kind < 16 }
    ensures step { Finishes (wanted_of plan.now)
        (at (link_of initiator.old) (told_sink K.Sink sink.old))
        (at (link_of initiator.new) (told_sink K.Sink sink.new)) result }
    ensures comes { Comes initiator.old initiator.new }
{
    match act_and_tell(initiator, sink, plan) {
        Ok(()) => close(initiator),
        Err(exit) => Err(exit),
    }
}

/// Looks at the target, does what is asked for, and logs out.
fn go_on<W: Wire + Drop, K: Sink>(
    initiator: &mut Initiator<W>,
    sink: &mut K,
    plan: &Plan<'_>,
) -> Result<(), PersistExit>
    requires { plan.now.fields.kind < 16 }
    ensures step { Continues (wanted_of plan.now)
        (at (link_of initiator.old) (told_sink K.Sink sink.old))
        (at (link_of initiator.new) (told_sink K.Sink sink.new)) result }
    ensures comes { Comes initiator.old initiator.new }
{
    match look(initiator, sink, plan.inquires) {
        Ok(()) => finish(initiator, sink, plan),
        Err(exit) => Err(exit),
    }
}

/// Runs a plan. It takes no memory.
///
/// # Errors
///
/// The exit with which the run ends; nothing is sent or put behind it.
pub(crate) fn run<W: Wire + Drop, K: Sink>(
    initiator: &mut Initiator<W>,
    sink: &mut K,
    plan: &Plan<'_>,
) -> Result<(), PersistExit>
    requires { plan.now.fields.kind < 16 }
    ensures step { Runs (wanted_of plan.now) (at (link_of initiator.old) (told_sink K.Sink sink.old))
        (at (link_of initiator.new) (told_sink K.Sink sink.new)) result }
    ensures comes { Comes initiator.old initiator.new }
{
    match open(initiator, plan) {
        Ok(_) => go_on(initiator, sink, plan),
        Err(exit) => Err(exit),
    }
}
