ghost use Rattle.std.specs.Prelude.{◌≡◌};
ghost use Rattle.pr_initiator.specs.Links.{Comes, link_of};
ghost use Rattle.pr_initiator.specs.Logins.{HasDialled, HasLoggedIn, HasLoggedOut};
ghost use Rattle.pr_fence.specs.Exits.{judged_by, linked_by};
ghost use Rattle.pr_fence.specs.Steps.{Opens, Enters, Closes};

use crate::asked::Asked;
use crate::fence_fault::FenceFault;
use pr_initiator::{Answer, Initiator, LinkFault};
use pr_io::Wire;
use pr_words::Nexus;

/// The fault of a call that failed.
fn linked(asked: Asked, called: Result<(), LinkFault>) -> Result<(), FenceFault>
    ensures { result ≡ linked_by asked called }
{
    match called {
        Ok(()) => Ok(()),
        Err(fault) => Err(FenceFault::Link { asked, fault }),
    }
}

/// The fault of an answer that isn't GOOD (SAM-5, status codes), or of a call that failed.
pub(crate) fn judged(asked: Asked, answer: Result<Answer, LinkFault>) -> Result<(), FenceFault>
    ensures { result ≡ judged_by asked answer }
{
    match answer {
        Ok(answer) => match (answer.status, answer.sense) {
            (0x00, _) => Ok(()),
            (0x02, Some(sense)) => Err(FenceFault::Check {
                asked,
                code: sense.code,
            }),
            (0x02, None) => Err(FenceFault::BadData { asked, place: 0 }),
            (0x18, _) => Err(FenceFault::Conflict { asked }),
            (status, _) => Err(FenceFault::OddStatus { asked, status }),
        },
        Err(fault) => Err(FenceFault::Link { asked, fault }),
    }
}

/// Connects to the target.
fn dial<W: Wire + Drop>(initiator: &mut Initiator<W>, address: &str) -> Result<(), LinkFault>
    ensures step { HasDialled address.now (link_of initiator.old) (link_of initiator.new) result }
    ensures comes { Comes initiator.old initiator.new }
{
    initiator.dial(address)
}

/// Logs the nexus in.
fn log_in<W: Wire + Drop>(initiator: &mut Initiator<W>, nexus: Nexus) -> Result<(), LinkFault>
    ensures step { HasLoggedIn nexus (link_of initiator.old) (link_of initiator.new) result }
    ensures comes { Comes initiator.old initiator.new }
{
    initiator.login(nexus)
}

/// Logs the nexus out.
fn log_out<W: Wire + Drop>(initiator: &mut Initiator<W>) -> Result<(), LinkFault>
    ensures step { HasLoggedOut (link_of initiator.old) (link_of initiator.new) result }
    ensures comes { Comes initiator.old initiator.new }
{
    initiator.logout()
}

/// Logs in, and asks until the target is ready.
fn enter<W: Wire + Drop>(initiator: &mut Initiator<W>, nexus: Nexus) -> Result<(), FenceFault>
    ensures step { Enters nexus (link_of initiator.old) (link_of initiator.new) result }
    ensures comes { Comes initiator.old initiator.new }
{
    match linked(Asked::Login, log_in(initiator, nexus)) {
        Ok(()) => judged(Asked::Readiness, initiator.ready()),
        Err(fault) => Err(fault),
    }
}

/// Connects, logs in, and asks until the target is ready.
///
/// # Errors
///
/// The fault with which the work on the device ends.
pub(crate) fn open<W: Wire + Drop>(
    initiator: &mut Initiator<W>,
    address: &str,
    nexus: Nexus,
) -> Result<(), FenceFault>
    ensures step { Opens address.now nexus (link_of initiator.old) (link_of initiator.new) result }
    ensures comes { Comes initiator.old initiator.new }
{
    match linked(Asked::Connection, dial(initiator, address)) {
        Ok(()) => enter(initiator, nexus),
        Err(fault) => Err(fault),
    }
}

/// Logs out.
///
/// # Errors
///
/// The fault with which the work on the device ends.
pub(crate) fn close<W: Wire + Drop>(initiator: &mut Initiator<W>) -> Result<(), FenceFault>
    ensures step { Closes (link_of initiator.old) (link_of initiator.new) result }
    ensures comes { Comes initiator.old initiator.new }
{
    linked(Asked::Logout, log_out(initiator))
}
