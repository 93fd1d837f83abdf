use pr_words::{Key, Nexus};

/// What is done on each device.
#[derive(Clone, Copy, Debug, PartialEq, Eq)]
pub enum Errand {
    /// The node's key is registered, and the device reserved.
    On,
    /// The victim's registrations are removed.
    Off {
        /// The victim's key.
        victim: Key,
    },
    /// It is looked whether a key is registered.
    Status {
        /// The key.
        key: Key,
    },
}

/// What the words ask for.
#[derive(Clone, Copy, Debug)]
pub(crate) struct Plan<'a> {
    /// What is done on each device.
    pub(crate) errand: Errand,
    /// The nexus that logs in.
    pub(crate) nexus: Nexus,
    /// The node's key.
    pub(crate) own: Key,
    /// Whether registrations are to outlive a loss of power.
    pub(crate) aptpl: bool,
    /// The devices' addresses.
    pub(crate) addresses: &'a [&'a str],
}
