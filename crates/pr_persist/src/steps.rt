ghost use Rattle.std.specs.Prelude.{◌≡◌, ◌<◌};
ghost use Rattle.pr_initiator.specs.Commands.{HasAnswered};
ghost use Rattle.pr_initiator.specs.Links.{Comes, link_of};
ghost use Rattle.pr_initiator.specs.Logins.{HasDialled, HasLoggedIn, HasLoggedOut};
ghost use Rattle.pr_persist.specs.Asking.{wanted_of};
ghost use Rattle.pr_persist.specs.Exits.{judged_by, linked_by};
ghost use Rattle.pr_persist.specs.Runs.{Opens, Enters, Inquires, Acts, Closes, order_of, changes_by};

use crate::asked::Asked;
use crate::exit::PersistExit;
use crate::plan::{Action, Fields, Plan};
use pr_initiator::{Answer, Initiator, LinkFault};
use pr_io::Wire;
use pr_words::{InService, Nexus, OutService};

/// The exit of a call that failed.
fn linked(asked: Asked, called: Result<(), LinkFault>) -> Result<(), PersistExit>
    ensures { result ≡ linked_by asked called }
{
    match called {
        Ok(()) => Ok(()),
        Err(fault) => Err(PersistExit::Link { asked, fault }),
    }
}

/// The exit of an answer that isn't GOOD (SAM-5, status codes), or of a call that failed.
fn judged(asked: Asked, answer: Result<Answer, LinkFault>) -> Result<Answer, PersistExit>
    ensures { result ≡ judged_by asked answer }
{
    match answer {
        Ok(answer) => match (answer.status, answer.sense) {
            (0x00, _) => Ok(answer),
            (0x02, Some(sense)) => Err(PersistExit::Check {
                asked,
                code: sense.code,
            }),
            (0x02, None) => Err(PersistExit::BadData { asked, place: 0 }),
            (0x18, _) => Err(PersistExit::Conflict { asked }),
            (status, _) => Err(PersistExit::OddStatus { asked, status }),
        },
        Err(fault) => Err(PersistExit::Link { asked, fault }),
    }
}

/// Connects to the target.
fn dial<W: Wire + Drop>(initiator: &mut Initiator<W>, address: &str) -> Result<(), LinkFault>
    ensures step { HasDialled address.now (link_of initiator.old) (link_of initiator.new) result }
    ensures comes { Comes initiator.old initiator.new }
{
    initiator.dial(address)
}

/// Logs the nexus in.
fn log_in<W: Wire + Drop>(initiator: &mut Initiator<W>, nexus: Nexus) -> Result<(), LinkFault>
    ensures step { HasLoggedIn nexus (link_of initiator.old) (link_of initiator.new) result }
    ensures comes { Comes initiator.old initiator.new }
{
    initiator.login(nexus)
}

/// Logs the nexus out.
fn log_out<W: Wire + Drop>(initiator: &mut Initiator<W>) -> Result<(), LinkFault>
    ensures step { HasLoggedOut (link_of initiator.old) (link_of initiator.new) result }
    ensures comes { Comes initiator.old initiator.new }
{
    initiator.logout()
}

/// Sends a PERSISTENT RESERVE OUT.
fn change<W: Wire + Drop>(
    initiator: &mut Initiator<W>,
    service: OutService,
    fields: &Fields,
) -> Result<Answer, LinkFault>
    requires { fields.now.kind < 16 }
    ensures step { HasAnswered (link_of initiator.old) (link_of initiator.new)
        (changes_by service fields.now) result }
    ensures comes { Comes initiator.old initiator.new }
{
    let (key, other, kind) = (fields.key, fields.action_key, fields.kind);
    match service {
        OutService::Register => initiator.register(key, other, fields.aptpl),
        OutService::Reserve => initiator.reserve(key, kind),
        OutService::Release => initiator.release(key, kind),
        OutService::Clear => initiator.clear(key),
        OutService::Preempt => initiator.preempt(key, other, kind),
        OutService::PreemptAndAbort => initiator.preempt_abort(key, other, kind),
        OutService::RegisterAndIgnoreExistingKey => initiator.register_ignore(other, fields.aptpl),
    }
}

/// Sends the command of an action.
fn send<W: Wire + Drop>(
    initiator: &mut Initiator<W>,
    action: Action,
    fields: &Fields,
) -> Result<Answer, LinkFault>
    requires { fields.now.kind < 16 }
    ensures step { HasAnswered (link_of initiator.old) (link_of initiator.new)
        (order_of action fields.now) result }
    ensures comes { Comes initiator.old initiator.new }
{
    match action {
        Action::In(InService::ReadKeys) => initiator.read_keys(),
        Action::In(InService::ReadReservation) => initiator.read_reservation(),
        Action::In(InService::ReportCapabilities) => initiator.read_capabilities(),
        Action::In(InService::ReadFullStatus) => initiator.read_full(),
        Action::Out(service) => change(initiator, service, fields),
    }
}

/// Logs in, and asks until the target is ready.
fn enter<W: Wire + Drop>(initiator: &mut Initiator<W>, nexus: Nexus) -> Result<Answer, PersistExit>
    ensures step { Enters nexus (link_of initiator.old) (link_of initiator.new) result }
    ensures comes { Comes initiator.old initiator.new }
{
    match linked(Asked::Login, log_in(initiator, nexus)) {
        Ok(()) => judged(Asked::Readiness, initiator.ready()),
        Err(exit) => Err(exit),
    }
}

/// Connects, logs in, and asks until the target is ready.
///
/// # Errors
///
/// The exit with which the run ends.
pub(crate) fn open<W: Wire + Drop>(
    initiator: &mut Initiator<W>,
    plan: &Plan<'_>,
) -> Result<Answer, PersistExit>
    ensures step { Opens (wanted_of plan.now) (link_of initiator.old) (link_of initiator.new) result }
    ensures comes { Comes initiator.old initiator.new }
{
    match linked(Asked::Connection, dial(initiator, plan.address)) {
        Ok(()) => enter(initiator, plan.nexus),
        Err(exit) => Err(exit),
    }
}

/// Asks for standard INQUIRY data.
///
/// # Errors
///
/// The exit with which the run ends.
pub(crate) fn inquire<W: Wire + Drop>(initiator: &mut Initiator<W>) -> Result<Answer, PersistExit>
    ensures step { Inquires (link_of initiator.old) (link_of initiator.new) result }
    ensures comes { Comes initiator.old initiator.new }
{
    judged(Asked::Inquiry, initiator.inquiry())
}

/// Sends the command that is asked for.
///
/// # Errors
///
/// The exit with which the run ends.
pub(crate) fn act<W: Wire + Drop>(
    initiator: &mut Initiator<W>,
    plan: &Plan<'_>,
) -> Result<Answer, PersistExit>
    requires { plan.now.fields.kind < 16 }
    ensures step { Acts (wanted_of plan.now) (link_of initiator.old) (link_of initiator.new) result }
    ensures comes { Comes initiator.old initiator.new }
{
    judged(
        Asked::Command(plan.action),
        send(initiator, plan.action, &plan.fields),
    )
}

/// Logs out.
///
/// # Errors
///
/// The exit with which the run ends.
pub(crate) fn close<W: Wire + Drop>(initiator: &mut Initiator<W>) -> Result<(), PersistExit>
    ensures step { Closes (link_of initiator.old) (link_of initiator.new) result }
    ensures comes { Comes initiator.old initiator.new }
{
    linked(Asked::Logout, log_out(initiator))
}
