use pr_words::{InService, Key, Nexus, OutService};

/// A command of persistent reservations (SPC-4).
#[derive(Clone, Copy, Debug, PartialEq, Eq)]
pub enum Action {
    /// PERSISTENT RESERVE IN.
    In(InService),
    /// PERSISTENT RESERVE OUT.
    Out(OutService),
}

/// What the CDB and the parameter list of a PERSISTENT RESERVE OUT are made of (SPC-4).
#[derive(Clone, Copy, Debug, PartialEq, Eq)]
pub(crate) struct Fields {
    /// RESERVATION KEY.
    pub(crate) key: Key,
    /// SERVICE ACTION RESERVATION KEY.
    pub(crate) action_key: Key,
    /// The type of the reservation, 4 bits.
    pub(crate) kind: u8,
    /// APTPL.
    pub(crate) aptpl: bool,
}

/// What the words ask for.
#[derive(Clone, Copy, Debug)]
pub(crate) struct Plan<'a> {
    /// The target's address.
    pub(crate) address: &'a str,
    /// The nexus that logs in.
    pub(crate) nexus: Nexus,
    /// Whether standard INQUIRY data are asked for and shown.
    pub(crate) inquires: bool,
    /// The command of persistent reservations.
    pub(crate) action: Action,
    /// What its CDB and parameter list are made of.
    pub(crate) fields: Fields,
}
