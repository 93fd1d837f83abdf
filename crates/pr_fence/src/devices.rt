ghost use Rattle.std.specs.Prelude.{◌≡◌, IfOk};
ghost use Rattle.pr_initiator.specs.Links.{Comes, link_of};
ghost use Rattle.pr_fence.specs.Steps.{Leaves};
ghost use Rattle.pr_fence.specs.Ousting.{HasOusted};
ghost use Rattle.pr_fence.specs.Devices.{HoldsAndCloses, Joins, TurnsOn, ChecksAndLeaves, Ousts, HoldsAndOusts, JoinsAndOusts, LooksAndOusts, TurnsOff, FindsAndLeaves, TellsStatus};

use crate::fence_fault::FenceFault;
use crate::orders::{check, find, hold, look, register, register_unless, remove_where};
use crate::seeing::Sight;
use crate::steps::{close, open};
use pr_initiator::Initiator;
use pr_io::Wire;
use pr_words::{Key, Nexus};

/// Reserves the target unless it is reserved, and logs out.
fn hold_and_close<W: Wire + Drop>(initiator: &mut Initiator<W>, own: Key) -> Result<(), FenceFault>
    ensures step { HoldsAndCloses own (link_of initiator.old) (link_of initiator.new) result }
    ensures comes { Comes initiator.old initiator.new }
{
    match hold(initiator, own) {
        Ok(()) => close(initiator),
        Err(fault) => Err(fault),
    }
}

/// Registers, reserves, and logs out.
fn join<W: Wire + Drop>(
    initiator: &mut Initiator<W>,
    own: Key,
    aptpl: bool,
) -> Result<(), FenceFault>
    ensures step { Joins own aptpl (link_of initiator.old) (link_of initiator.new) result }
    ensures comes { Comes initiator.old initiator.new }
{
    match register(initiator, own, aptpl) {
        Ok(()) => hold_and_close(initiator, own),
        Err(fault) => Err(fault),
    }
}

/// Lets a node use a device: it registers the node's key for the nexus, and reserves the device for
/// registrants to write alone, unless a reservation is held (SPC-4). `aptpl` asks that
/// registrations outlive a loss of power. It takes no memory.
///
/// # Errors
///
/// The fault with which the work ended; nothing was sent behind it.
pub fn on_device<W: Wire + Drop>(
    initiator: &mut Initiator<W>,
    address: &str,
    nexus: Nexus,
    own: Key,
    aptpl: bool,
) -> Result<(), FenceFault>
    ensures step { TurnsOn address.now nexus own aptpl
        (link_of initiator.old) (link_of initiator.new) result }
    ensures comes { Comes initiator.old initiator.new }
{
    match open(initiator, address, nexus) {
        Ok(()) => join(initiator, own, aptpl),
        Err(fault) => Err(fault),
    }
}

/// Logs out, with what was found.
fn leave<W: Wire + Drop>(initiator: &mut Initiator<W>, found: bool) -> Result<bool, FenceFault>
    ensures step { Leaves found (link_of initiator.old) (link_of initiator.new) result }
    ensures comes { Comes initiator.old initiator.new }
{
    match close(initiator) {
        Ok(()) => Ok(found),
        Err(fault) => Err(fault),
    }
}

/// Makes sure that the victim's key isn't there, and logs out.
fn check_and_leave<W: Wire + Drop>(
    initiator: &mut Initiator<W>,
    victim: Key,
    was: bool,
) -> Result<bool, FenceFault>
    ensures step { ChecksAndLeaves victim was
        (link_of initiator.old) (link_of initiator.new) result }
    ensures comes { Comes initiator.old initiator.new }
{
    match check(initiator, victim) {
        Ok(()) => leave(initiator, was),
        Err(fault) => Err(fault),
    }
}

/// Removes the victim's registrations, where there were any.
fn oust<W: Wire + Drop>(
    initiator: &mut Initiator<W>,
    own: Key,
    victim: Key,
    was: bool,
) -> Result<bool, FenceFault>
    ensures step { Ousts own victim was (link_of initiator.old) (link_of initiator.new) result }
    ensures comes { Comes initiator.old initiator.new }
{
    match remove_where(initiator, was, own, victim) {
        Ok(()) => check_and_leave(initiator, victim, was),
        Err(fault) => Err(fault),
    }
}

/// Reserves the target unless it is reserved, and removes the victim.
fn hold_and_oust<W: Wire + Drop>(
    initiator: &mut Initiator<W>,
    own: Key,
    victim: Key,
    was: bool,
) -> Result<bool, FenceFault>
    ensures step { HoldsAndOusts own victim was
        (link_of initiator.old) (link_of initiator.new) result }
    ensures comes { Comes initiator.old initiator.new }
{
    match hold(initiator, own) {
        Ok(()) => oust(initiator, own, victim, was),
        Err(fault) => Err(fault),
    }
}

/// Registers unless it is registered, reserves, and removes the victim.
fn join_and_oust<W: Wire + Drop>(
    initiator: &mut Initiator<W>,
    own: Key,
    victim: Key,
    aptpl: bool,
    sight: Sight,
) -> Result<bool, FenceFault>
    ensures step { JoinsAndOusts own victim aptpl sight
        (link_of initiator.old) (link_of initiator.new) result }
    ensures comes { Comes initiator.old initiator.new }
{
    match register_unless(initiator, sight.own, own, aptpl) {
        Ok(()) => hold_and_oust(initiator, own, victim, sight.victim),
        Err(fault) => Err(fault),
    }
}

/// Looks at the registrations, and removes the victim.
fn look_and_oust<W: Wire + Drop>(
    initiator: &mut Initiator<W>,
    nexus: Nexus,
    own: Key,
    victim: Key,
    aptpl: bool,
) -> Result<bool, FenceFault>
    ensures step { LooksAndOusts nexus own victim aptpl
        (link_of initiator.old) (link_of initiator.new) result }
    ensures comes { Comes initiator.old initiator.new }
{
    match look(initiator, nexus, own, victim) {
        Ok(sight) => join_and_oust(initiator, own, victim, aptpl, sight),
        Err(fault) => Err(fault),
    }
}

/// Fences a victim off a device, and says whether its key had been registered: it registers the
/// node's own key unless its nexus has it, reserves the device unless a reservation is held,
/// removes what the victim's key has registered and aborts its commands (SPC-4, PREEMPT AND ABORT),
/// and makes sure that the key is gone. Give it two different keys. It takes no memory.
///
/// # Errors
///
/// `FenceFault::StillThere` where the victim's key is registered still; any other fault with which
/// the work ended. Nothing was sent behind it.
pub fn off_device<W: Wire + Drop>(
    initiator: &mut Initiator<W>,
    address: &str,
    nexus: Nexus,
    own: Key,
    victim: Key,
    aptpl: bool,
) -> Result<bool, FenceFault>
    ensures step { TurnsOff address.now nexus own victim aptpl
        (link_of initiator.old) (link_of initiator.new) result }
    ensures ousts { IfOk result (HasOusted address.now nexus own victim aptpl
        (link_of initiator.old) (link_of initiator.new)) }
    ensures comes { Comes initiator.old initiator.new }
{
    match open(initiator, address, nexus) {
        Ok(()) => look_and_oust(initiator, nexus, own, victim, aptpl),
        Err(fault) => Err(fault),
    }
}

/// Asks whether a key is registered, and logs out.
fn find_and_leave<W: Wire + Drop>(
    initiator: &mut Initiator<W>,
    key: Key,
) -> Result<bool, FenceFault>
    ensures step { FindsAndLeaves key (link_of initiator.old) (link_of initiator.new) result }
    ensures comes { Comes initiator.old initiator.new }
{
    match find(initiator, key) {
        Ok(found) => leave(initiator, found),
        Err(fault) => Err(fault),
    }
}

/// Asks whether a key is registered on a device, by READ KEYS (SPC-4). It takes no memory.
///
/// # Errors
///
/// The fault with which the work ended; nothing was sent behind it.
pub fn status_device<W: Wire + Drop>(
    initiator: &mut Initiator<W>,
    address: &str,
    nexus: Nexus,
    key: Key,
) -> Result<bool, FenceFault>
    ensures step { TellsStatus address.now nexus key
        (link_of initiator.old) (link_of initiator.new) result }
    ensures comes { Comes initiator.old initiator.new }
{
    match open(initiator, address, nexus) {
        Ok(()) => find_and_leave(initiator, key),
        Err(fault) => Err(fault),
    }
}
