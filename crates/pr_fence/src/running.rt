ghost use Rattle.std.specs.Prelude.{◌≡◌, ◌<◌, ◌||◌, Bool, Result, Some, length, slice_get};
ghost use Rattle.pr_fence.specs.declared.fence_fault.FenceFault.{FenceFault};
ghost use Rattle.pr_io.specs.Told.{told_sink};
ghost use Rattle.pr_initiator.specs.Links.{Comes, link_of};
ghost use Rattle.pr_fence.specs.Views.{planned_of, texts_of};
ghost use Rattle.pr_fence.specs.Whole.{at, result_at as spec_at, written_by, Works, Serves, Tells, Visits, Runs};

use crate::devices::{off_device, on_device, status_device};
use crate::exit::{FenceExit, exit_at};
use crate::fence_fault::FenceFault;
use crate::plan::{Errand, Plan};
use crate::telling::put_result;
use pr_initiator::Initiator;
use pr_io::{Failed, Sink, Wire};

/// Lets the node use a device; it finds nothing.
fn turn_on<W: Wire + Drop>(
    initiator: &mut Initiator<W>,
    plan: &Plan<'_>,
    address: &str,
) -> Result<bool, FenceFault>
    ensures step { Works (planned_of plan.now) Errand.On address.now
        (link_of initiator.old) (link_of initiator.new) result }
    ensures comes { Comes initiator.old initiator.new }
{
    match on_device(initiator, address, plan.nexus, plan.own, plan.aptpl) {
        Ok(()) => Ok(false),
        Err(fault) => Err(fault),
    }
}

/// Does the work on a device.
fn work<W: Wire + Drop>(
    initiator: &mut Initiator<W>,
    plan: &Plan<'_>,
    address: &str,
) -> Result<bool, FenceFault>
    ensures step { Works (planned_of plan.now) plan.now.errand address.now
        (link_of initiator.old) (link_of initiator.new) result }
    ensures comes { Comes initiator.old initiator.new }
{
    match plan.errand {
        Errand::On => turn_on(initiator, plan, address),
        Errand::Off { victim } => {
            off_device(initiator, address, plan.nexus, plan.own, victim, plan.aptpl)
        }
        Errand::Status { key } => status_device(initiator, address, plan.nexus, key),
    }
}

/// What came of the work on the device of this number.
fn result_at(device: usize, worked: Result<bool, FenceFault>) -> Result<bool, FenceExit>
    ensures { result ≡ spec_at device worked }
{
    match worked {
        Ok(found) => Ok(found),
        Err(fault) => Err(exit_at(device, fault)),
    }
}

/// Does the work on the device of this number.
fn serve<W: Wire + Drop>(
    initiator: &mut Initiator<W>,
    plan: &Plan<'_>,
    device: usize,
    address: &str,
) -> Result<bool, FenceExit>
    ensures step { (worked : Result Bool FenceFault) ×
        Works (planned_of plan.now) plan.now.errand address.now
        (link_of initiator.old) (link_of initiator.new) worked ×
        (result ≡ spec_at device worked) }
    ensures comes { Comes initiator.old initiator.new }
{
    result_at(device, work(initiator, plan, address))
}

/// What came of printing a line.
fn written(found: bool, put: Result<(), Failed>) -> Result<bool, FenceExit>
    ensures { result ≡ written_by found put }
{
    match put {
        Ok(()) => Ok(found),
        Err(_) => Err(FenceExit::WriteFault),
    }
}

/// Does the work on the device of this number, and prints its line.
fn visit<W: Wire + Drop, K: Sink>(
    initiator: &mut Initiator<W>,
    sink: &mut K,
    plan: &Plan<'_>,
    device: usize,
    address: &str,
) -> Result<bool, FenceExit>
    ensures step { Visits (planned_of plan.now) device address.now
        (at (link_of initiator.old) (told_sink K.Sink sink.old))
        (at (link_of initiator.new) (told_sink K.Sink sink.new)) result }
    ensures comes { Comes initiator.old initiator.new }
{
    match serve(initiator, plan, device, address) {
        Ok(found) => written(found, put_result(sink, plan.errand, address, found)),
        Err(exit) => Err(exit),
    }
}

/// The address of the device of this number.
pub(crate) fn address_of<'a>(plan: &Plan<'a>, device: usize) -> &'a str
    requires { device < length plan.now.addresses.now }
    ensures { slice_get (texts_of plan.now.addresses.now) device ≡ Some result.now }
{
    plan.addresses[device]
}

/// Whether a key was found on one of the devices before, or on this one.
fn either(before: bool, here: bool) -> bool
    ensures { result ≡ (before || here) }
{
    before || here
}

/// Runs a plan, and says whether the key was found on a device. It takes no memory.
///
/// # Errors
///
/// The exit with which the run ends; nothing is sent or put behind it.
pub(crate) fn run<W: Wire + Drop, K: Sink>(
    initiator: &mut Initiator<W>,
    sink: &mut K,
    plan: &Plan<'_>,
) -> Result<bool, FenceExit>
    ensures step { Runs (planned_of plan.now)
        (at (link_of initiator.old) (told_sink K.Sink sink.old))
        (at (link_of initiator.new) (told_sink K.Sink sink.new)) result }
    ensures comes { Comes initiator.old initiator.new }
{
    let mut found = false;
    for device in 0..plan.addresses.len() {
        match visit(initiator, sink, plan, device, address_of(plan, device)) {
            Ok(here) => found = either(found, here),
            Err(exit) => return Err(exit),
        }
    }
    Ok(found)
}
