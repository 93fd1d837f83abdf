use pr_words::{Key, Nexus};

/// Which registrations leave the table.
#[derive(Clone, Copy, Debug, PartialEq, Eq)]
pub enum Leaving {
    All,
    AllBut(Nexus),
    Key(Key),
    KeyBut(Key, Nexus),
}
