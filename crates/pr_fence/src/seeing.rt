ghost use Rattle.std.specs.Prelude.{◌≡◌};
ghost use Rattle.std.specs.List.{list_any};
ghost use Rattle.pr_fence.specs.Seeing.{place_of, is_key as spec_key, is_own as spec_own, has_key as spec_has, listed_in, seen_in, held_in};

use crate::asked::Asked;
use crate::fence_fault::FenceFault;
use pr_param::{Full, FullEntry, Keys, ReplyFault, read_full, read_keys, read_reservation};
use pr_words::{Key, Nexus};

/// What is seen among the registrations of a target.
#[derive(Clone, Copy, Debug, PartialEq, Eq)]
pub(crate) struct Sight {
    /// The agent's nexus is registered with its key.
    pub(crate) own: bool,
    /// The victim's key is registered, on whichever nexus.
    pub(crate) victim: bool,
}

/// The place at which data break their grammar.
fn place(fault: ReplyFault) -> usize
    ensures { result ≡ place_of fault }
{
    match fault {
        ReplyFault::BadLength { place, .. } => place,
        ReplyFault::Cut { place } => place,
    }
}

/// Whether two keys are the same.
fn is_key(key: Key, other: Key) -> bool
    ensures { result ≡ spec_key key other }
{
    other.0 == key.0
}

/// Whether a registration is a nexus's own with this key.
fn is_own(nexus: Nexus, key: Key, entry: &FullEntry) -> bool
    ensures { result ≡ spec_own nexus key entry.now }
{
    nexus == entry.nexus && is_key(key, entry.key)
}

/// Whether a key is among those registered.
fn has_key(keys: &Keys<'_>, key: Key) -> bool
    ensures { result ≡ list_any (spec_key key) keys.now.keys }
{
    for i in 0..keys.count() {
        if is_key(key, keys.key(i)) {
            return true;
        }
    }
    false
}

/// Whether a nexus is registered with this key.
fn has_own(full: &Full<'_>, nexus: Nexus, key: Key) -> bool
    ensures { result ≡ list_any (spec_own nexus key) full.now.entries }
{
    for i in 0..full.count() {
        let entry = full.at(i);
        if is_own(nexus, key, &entry) {
            return true;
        }
    }
    false
}

/// Whether a key is registered, on whichever nexus.
fn is_there(full: &Full<'_>, key: Key) -> bool
    ensures { result ≡ list_any (spec_has key) full.now.entries }
{
    for i in 0..full.count() {
        let entry = full.at(i);
        if is_key(key, entry.key) {
            return true;
        }
    }
    false
}

/// Whether data of READ KEYS have this key.
///
/// # Errors
///
/// `FenceFault::BadData` where they break their grammar.
pub(crate) fn listed(bytes: &[u8], key: Key) -> Result<bool, FenceFault>
    ensures { result ≡ listed_in key bytes.now }
{
    match read_keys(bytes) {
        Ok(keys) => Ok(has_key(&keys, key)),
        Err(fault) => Err(FenceFault::BadData {
            asked: Asked::Keys,
            place: place(fault) as u64,
        }),
    }
}

/// What data of READ FULL STATUS tell of the agent's nexus and key, and of the victim's key.
///
/// # Errors
///
/// `FenceFault::BadData` where they break their grammar.
pub(crate) fn seen(bytes: &[u8], nexus: Nexus, own: Key, victim: Key) -> Result<Sight, FenceFault>
    ensures { result ≡ seen_in nexus own victim bytes.now }
{
    match read_full(bytes) {
        Ok(full) => Ok(Sight {
            own: has_own(&full, nexus, own),
            victim: is_there(&full, victim),
        }),
        Err(fault) => Err(FenceFault::BadData {
            asked: Asked::FullStatus,
            place: place(fault) as u64,
        }),
    }
}

/// Whether data of READ RESERVATION tell that one is held.
///
/// # Errors
///
/// `FenceFault::BadData` where they break their grammar.
pub(crate) fn held(bytes: &[u8]) -> Result<bool, FenceFault>
    ensures { result ≡ held_in bytes.now }
{
    match read_reservation(bytes) {
        Ok(told) => Ok(told.held.is_some()),
        Err(fault) => Err(FenceFault::BadData {
            asked: Asked::Reservation,
            place: place(fault) as u64,
        }),
    }
}
