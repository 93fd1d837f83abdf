ghost use Rattle.std.specs.Prelude.{◌≡◌};
ghost use Rattle.pr_words.specs.Orders.{comes_before, same_nexus};

/// An I_T nexus: an initiator's name, and the target port that it uses, 1 to 16 (SAM-5).
/// Ordered by name, then by port.
#[derive(Clone, Copy, Debug, PartialEq, Eq, PartialOrd, Ord)]
pub struct Nexus {
    pub name: u64,
    pub port: u16,
}

/// A reservation key (SPC-4). Zero is no key.
#[derive(Clone, Copy, Debug, PartialEq, Eq, PartialOrd, Ord)]
pub struct Key(pub u64);

/// A registration: a registered nexus and its key (SPC-4).
#[derive(Clone, Copy, Debug, PartialEq, Eq)]
pub struct Pair {
    pub nexus: Nexus,
    pub key: Key,
}

/// The end of the link that receives a frame.
#[derive(Clone, Copy, Debug, PartialEq, Eq)]
pub enum Side {
    Target,
    Initiator,
}

/// Whether the first nexus stands before the second, by name and then by port.
pub fn stands_before(a: &Nexus, b: &Nexus) -> bool
    ensures { result ≡ comes_before a.now b.now }
{
    // Written out, since the derived order makes each step of a search a third longer.
    a.name < b.name || (a.name == b.name && a.port < b.port)
}

/// Whether two nexuses are one.
pub fn is_same(a: &Nexus, b: &Nexus) -> bool
    ensures { result ≡ same_nexus a.now b.now }
{
    a == b
}
