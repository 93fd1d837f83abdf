ghost use Rattle.std.specs.Prelude.{◌≡◌};
ghost use Rattle.pr_initiator.specs.Links.{Comes, link_of};
ghost use Rattle.pr_fence.specs.Steps.{Finds, Looks, Registers, Asks, Reserves, Holds, Removes, Checks, Unless, Where, gone_by};

use crate::asked::Asked;
use crate::fence_fault::FenceFault;
use crate::seeing::{Sight, held, listed, seen};
use crate::steps::judged;
use pr_initiator::Initiator;
use pr_io::Wire;
use pr_words::{Key, Nexus};

/// The type of the reservation: Write Exclusive - Registrants Only (SPC-4).
const KIND: u8 = 5;

/// Asks for all keys, and whether this one is among them.
///
/// # Errors
///
/// The fault with which the work on the device ends.
pub(crate) fn find<W: Wire + Drop>(
    initiator: &mut Initiator<W>,
    key: Key,
) -> Result<bool, FenceFault>
    ensures step { Finds key (link_of initiator.old) (link_of initiator.new) result }
    ensures comes { Comes initiator.old initiator.new }
{
    match judged(Asked::Keys, initiator.read_keys()) {
        Ok(()) => listed(initiator.received(), key),
        Err(fault) => Err(fault),
    }
}

/// Asks for all registrations.
///
/// # Errors
///
/// The fault with which the work on the device ends.
pub(crate) fn look<W: Wire + Drop>(
    initiator: &mut Initiator<W>,
    nexus: Nexus,
    own: Key,
    victim: Key,
) -> Result<Sight, FenceFault>
    ensures step { Looks nexus own victim (link_of initiator.old) (link_of initiator.new) result }
    ensures comes { Comes initiator.old initiator.new }
{
    match judged(Asked::FullStatus, initiator.read_full()) {
        Ok(()) => seen(initiator.received(), nexus, own, victim),
        Err(fault) => Err(fault),
    }
}

/// Registers the agent's key.
///
/// # Errors
///
/// The fault with which the work on the device ends.
pub(crate) fn register<W: Wire + Drop>(
    initiator: &mut Initiator<W>,
    own: Key,
    aptpl: bool,
) -> Result<(), FenceFault>
    ensures step { Registers own aptpl (link_of initiator.old) (link_of initiator.new) result }
    ensures comes { Comes initiator.old initiator.new }
{
    judged(Asked::Registration, initiator.register_ignore(own, aptpl))
}

/// Registers the agent's key, unless it is registered.
///
/// # Errors
///
/// The fault with which the work on the device ends.
pub(crate) fn register_unless<W: Wire + Drop>(
    initiator: &mut Initiator<W>,
    is_own: bool,
    own: Key,
    aptpl: bool,
) -> Result<(), FenceFault>
    ensures step { Unless is_own (Registers own aptpl)
        (link_of initiator.old) (link_of initiator.new) result }
    ensures comes { Comes initiator.old initiator.new }
{
    if is_own {
        return Ok(());
    }
    register(initiator, own, aptpl)
}

/// Asks whether a reservation is held.
fn is_held<W: Wire + Drop>(initiator: &mut Initiator<W>) -> Result<bool, FenceFault>
    ensures step { Asks (link_of initiator.old) (link_of initiator.new) result }
    ensures comes { Comes initiator.old initiator.new }
{
    match judged(Asked::Reservation, initiator.read_reservation()) {
        Ok(()) => held(initiator.received()),
        Err(fault) => Err(fault),
    }
}

/// Reserves the target.
fn reserve<W: Wire + Drop>(initiator: &mut Initiator<W>, own: Key) -> Result<(), FenceFault>
    ensures step { Reserves own (link_of initiator.old) (link_of initiator.new) result }
    ensures comes { Comes initiator.old initiator.new }
{
    judged(Asked::Reserve, initiator.reserve(own, KIND))
}

/// Reserves the target, unless a reservation is held.
fn reserve_unless<W: Wire + Drop>(
    initiator: &mut Initiator<W>,
    is_held: bool,
    own: Key,
) -> Result<(), FenceFault>
    ensures step { Unless is_held (Reserves own)
        (link_of initiator.old) (link_of initiator.new) result }
    ensures comes { Comes initiator.old initiator.new }
{
    if is_held {
        return Ok(());
    }
    reserve(initiator, own)
}

/// Sees to it that a reservation is held.
///
/// # Errors
///
/// The fault with which the work on the device ends.
pub(crate) fn hold<W: Wire + Drop>(initiator: &mut Initiator<W>, own: Key) -> Result<(), FenceFault>
    ensures step { Holds own (link_of initiator.old) (link_of initiator.new) result }
    ensures comes { Comes initiator.old initiator.new }
{
    match is_held(initiator) {
        Ok(held) => reserve_unless(initiator, held, own),
        Err(fault) => Err(fault),
    }
}

/// Removes the victim's registrations, and aborts its commands.
fn remove<W: Wire + Drop>(
    initiator: &mut Initiator<W>,
    own: Key,
    victim: Key,
) -> Result<(), FenceFault>
    ensures step { Removes own victim (link_of initiator.old) (link_of initiator.new) result }
    ensures comes { Comes initiator.old initiator.new }
{
    judged(Asked::Removal, initiator.preempt_abort(own, victim, KIND))
}

/// Removes the victim's registrations, where there are any.
///
/// # Errors
///
/// The fault with which the work on the device ends.
pub(crate) fn remove_where<W: Wire + Drop>(
    initiator: &mut Initiator<W>,
    is_there: bool,
    own: Key,
    victim: Key,
) -> Result<(), FenceFault>
    ensures step { Where is_there (Removes own victim)
        (link_of initiator.old) (link_of initiator.new) result }
    ensures comes { Comes initiator.old initiator.new }
{
    if !is_there {
        return Ok(());
    }
    remove(initiator, own, victim)
}

/// Whether the victim is gone, by whether its key is there.
fn gone(is_there: bool) -> Result<(), FenceFault>
    ensures { result ≡ gone_by is_there }
{
    if is_there {
        return Err(FenceFault::StillThere);
    }
    Ok(())
}

/// Asks for all keys, and makes sure that the victim's isn't among them.
///
/// # Errors
///
/// `FenceFault::StillThere` where it is, and any other fault with which the work on the device
/// ends.
pub(crate) fn check<W: Wire + Drop>(
    initiator: &mut Initiator<W>,
    victim: Key,
) -> Result<(), FenceFault>
    ensures step { Checks victim (link_of initiator.old) (link_of initiator.new) result }
    ensures comes { Comes initiator.old initiator.new }
{
    match find(initiator, victim) {
        Ok(is_there) => gone(is_there),
        Err(fault) => Err(fault),
    }
}
