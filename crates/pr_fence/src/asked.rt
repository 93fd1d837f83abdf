use std::fmt;

/// What the agent asks of a target.
#[derive(Clone, Copy, Debug, PartialEq, Eq)]
pub enum Asked {
    /// A connection.
    Connection,
    /// That the nexus is logged in.
    Login,
    /// Whether the target is ready, by TEST UNIT READY (SPC-4).
    Readiness,
    /// All registrations with their nexuses, by READ FULL STATUS (SPC-4).
    FullStatus,
    /// That the agent's key is registered, by REGISTER AND IGNORE EXISTING KEY (SPC-4).
    Registration,
    /// Which reservation is held, by READ RESERVATION (SPC-4).
    Reservation,
    /// That the target is reserved, by RESERVE (SPC-4).
    Reserve,
    /// That the victim's registrations are removed, by PREEMPT AND ABORT (SPC-4).
    Removal,
    /// All registered keys, by READ KEYS (SPC-4).
    Keys,
    /// That the nexus is logged out.
    Logout,
}

/// What was asked, as a user reads it.
impl fmt::Display for Asked {
    fn fmt<W: fmt::Write>(&self, f: &mut fmt::Formatter<W>) -> fmt::Result {
        f.write_str(match *self {
            Asked::Connection => "connection",
            Asked::Login => "login",
            Asked::Readiness => "TEST UNIT READY",
            Asked::FullStatus => "READ FULL STATUS",
            Asked::Registration => "REGISTER AND IGNORE EXISTING KEY",
            Asked::Reservation => "READ RESERVATION",
            Asked::Reserve => "RESERVE",
            Asked::Removal => "PREEMPT AND ABORT",
            Asked::Keys => "READ KEYS",
            Asked::Logout => "logout",
        })
    }
}
