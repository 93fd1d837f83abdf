use crate::plan::Action;
use pr_words::{InService, OutService};
use std::fmt;

/// What a run asks of a target.
#[derive(Clone, Copy, Debug, PartialEq, Eq)]
pub enum Asked {
    /// A connection.
    Connection,
    /// That the nexus is logged in.
    Login,
    /// Whether the target is ready, by TEST UNIT READY (SPC-4).
    Readiness,
    /// Standard INQUIRY data (SPC-4).
    Inquiry,
    /// The command of persistent reservations.
    Command(Action),
    /// That the nexus is logged out.
    Logout,
}

/// The name of a command of persistent reservations (SPC-4).
fn name_of(action: Action) -> &'static str {
    match action {
        Action::In(InService::ReadKeys) => "READ KEYS",
        Action::In(InService::ReadReservation) => "READ RESERVATION",
        Action::In(InService::ReportCapabilities) => "REPORT CAPABILITIES",
        Action::In(InService::ReadFullStatus) => "READ FULL STATUS",
        Action::Out(OutService::Register) => "REGISTER",
        Action::Out(OutService::Reserve) => "RESERVE",
        Action::Out(OutService::Release) => "RELEASE",
        Action::Out(OutService::Clear) => "CLEAR",
        Action::Out(OutService::Preempt) => "PREEMPT",
        Action::Out(OutService::PreemptAndAbort) => "PREEMPT AND ABORT",
        Action::Out(OutService::RegisterAndIgnoreExistingKey) => {
            "REGISTER AND IGNORE EXISTING KEY"
        }
    }
}

/// What was asked, as a user reads it.
impl fmt::Display for Asked {
    fn fmt<W: fmt::Write>(&self, f: &mut fmt::Formatter<W>) -> fmt::Result {
        f.write_str(match *self {
            Asked::Connection => "connection",
            Asked::Login => "login",
            Asked::Readiness => "TEST UNIT READY",
            Asked::Inquiry => "INQUIRY",
            Asked::Command(action) => name_of(action),
            Asked::Logout => "logout",
        })
    }
}
