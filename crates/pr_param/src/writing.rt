ghost use Rattle.std.specs.Prelude.{◌≡◌, ◌≤◌, ◌+◌, ◌∷◌, [], ◌++◌, ◌<◌, ◌^◌, ℕ, Ok, Some, slice_get, length, take, drop, min};
ghost use Rattle.std.specs.Int.{w32, w64, to_be_bytes};
ghost use Rattle.pr_grammar.specs.InReplies.{FitsPair, read_keys, read_reservation, read_capabilities, read_full, listed_keys, told_reservation, told_capabilities, listed_entries, keys_reply, reservation_reply, capabilities_reply, full_reply, held_bytes, key_at as spec_key_at, descriptor as spec_descriptor, holds as spec_holds, type_byte as spec_held_code};
ghost use Rattle.pr_grammar.specs.Cdbs.{bit};
ghost use Rattle.pr_grammar.specs.Standings.{kind_of, holder_of, is_holder};
ghost use Rattle.pr_words.specs.declared.nexus.Pair.{Pair};
ghost use Rattle.pr_words.specs.declared.limits.TheConstants.{REPORTABLE};
ghost use Rattle.pr_param.specs.Fits.{FitKeys, FitFields, FitsHeld};

use crate::put::{put, put_head};
use crate::registrants::Registrants;
use pr_words::{Key, Kind, Nexus, is_same};

/// Writes the data of READ KEYS (SPC-4): its first `allocation` bytes, or all of it where it is shorter. Answers how
/// many bytes it wrote. ADDITIONAL LENGTH counts all keys, whatever the allocation length.
pub fn write_keys<R: Registrants>(from: &R, allocation: usize, out: &mut [u8]) -> usize
    requires count { length (R.standing from.now).pairs ≤ REPORTABLE }
    requires room { min allocation (length (keys_reply (R.standing from.now))) ≤ length out.old }
    ensures len { result ≡ min allocation (length (keys_reply (R.standing from.now))) }
    ensures written { take result out.new ≡ take result (keys_reply (R.standing from.now)) }
    ensures rest { drop result out.new ≡ drop result out.old }
    ensures reads_back { length (keys_reply (R.standing from.now)) ≤ allocation → read_keys (take result out.new) ≡ Ok (listed_keys (R.standing from.now)) }
{
    let len = allocation.min(keys_length(from));
    put_keys(from, &mut out[..len]);
    len
}

/// Writes the data of READ RESERVATION (SPC-4), as `write_keys` does its own. The key is zero where every registrant
/// holds the reservation.
pub fn write_reservation<R: Registrants>(from: &R, allocation: usize, out: &mut [u8]) -> usize
    requires count { length (R.standing from.now).pairs ≤ REPORTABLE }
    requires room { min allocation (length (reservation_reply (R.standing from.now))) ≤ length out.old }
    ensures len { result ≡ min allocation (length (reservation_reply (R.standing from.now))) }
    ensures written { take result out.new ≡ take result (reservation_reply (R.standing from.now)) }
    ensures rest { drop result out.new ≡ drop result out.old }
    ensures reads_back { length (reservation_reply (R.standing from.now)) ≤ allocation → read_reservation (take result out.new) ≡ Ok (told_reservation (R.standing from.now)) }
{
    let len = allocation.min(reservation_length(from));
    put_reservation(from, &mut out[..len]);
    len
}

/// Writes the data of REPORT CAPABILITIES (SPC-4), as `write_keys` does its own: persistence through power loss can be
/// asked for, the six types of reservation are there, and PTPL_A is the preserve flag.
pub fn write_capabilities<R: Registrants>(from: &R, allocation: usize, out: &mut [u8]) -> usize
    requires { min allocation (length (capabilities_reply (R.standing from.now))) ≤ length out.old }
    ensures len { result ≡ min allocation (length (capabilities_reply (R.standing from.now))) }
    ensures written { take result out.new ≡ take result (capabilities_reply (R.standing from.now)) }
    ensures rest { drop result out.new ≡ drop result out.old }
    ensures reads_back { length (capabilities_reply (R.standing from.now)) ≤ allocation → read_capabilities (take result out.new) ≡ Ok (told_capabilities (R.standing from.now)) }
{
    let len = allocation.min(8);
    put_capabilities(from.preserve(), &mut out[..len]);
    len
}

/// Writes the data of READ FULL STATUS (SPC-4), as `write_keys` does its own: a descriptor of 48 bytes for each
/// registration, with the initiator's name in the SAS layout of a TransportID. R_HOLDER is set of those
/// that are reservation holders.
pub fn write_full<R: Registrants>(from: &R, allocation: usize, out: &mut [u8]) -> usize
    requires count { length (R.standing from.now).pairs ≤ REPORTABLE }
    requires room { min allocation (length (full_reply (R.standing from.now))) ≤ length out.old }
    ensures len { result ≡ min allocation (length (full_reply (R.standing from.now))) }
    ensures written { take result out.new ≡ take result (full_reply (R.standing from.now)) }
    ensures rest { drop result out.new ≡ drop result out.old }
    ensures holders { (i : ℕ) (p : Pair) → slice_get (R.standing from.now).pairs i ≡ Some p → spec_holds (kind_of (R.standing from.now).reservation) (holder_of (R.standing from.now).reservation) p.nexus ≡ is_holder (R.standing from.now) p.nexus }
    ensures reads_back { length (full_reply (R.standing from.now)) ≤ allocation → read_full (take result out.new) ≡ Ok (listed_entries (R.standing from.now)) }
{
    let len = allocation.min(full_length(from));
    put_full(from, &mut out[..len]);
    len
}

/// How long the data of READ KEYS is.
fn keys_length<R: Registrants>(from: &R) -> usize
    requires { length (R.standing from.now).pairs ≤ REPORTABLE }
    ensures { result ≡ length (keys_reply (R.standing from.now)) }
{
    8 + 8 * from.count()
}

/// Fills a buffer with the front of the data of READ KEYS.
fn put_keys<R: Registrants>(from: &R, out: &mut [u8])
    requires count { length (R.standing from.now).pairs ≤ REPORTABLE }
    requires size { length out.old ≤ length (keys_reply (R.standing from.now)) }
    ensures front { out.new ≡ take (length out.old) (keys_reply (R.standing from.now)) }
    ensures fits { length out.old ≡ length (keys_reply (R.standing from.now)) → FitKeys (R.standing from.now) }
{
    let count = from.count();
    put_head(out, from.generation(), 8 * count as u32);
    for i in 0..count.min(out.len() / 8) {
        put(out, 8 + 8 * i, &listed_key(from.at(i).1));
    }
}

/// A key in the list of READ KEYS.
fn listed_key(key: Key) -> [u8; 8]
    ensures bytes { result ≡ to_be_bytes w64 key.0 }
    ensures fits { key.0 < 2 ^ 64 }
{
    key.0.to_be_bytes()
}

/// How long the data of READ RESERVATION is.
fn reservation_length<R: Registrants>(from: &R) -> usize
    ensures { result ≡ length (reservation_reply (R.standing from.now)) }
{
    match (from.kind(), from.holder()) {
        (None, _) => 8,
        (Some(_), None) => 24,
        (Some(_), Some(_)) => 24,
    }
}

/// Fills a buffer with the front of the data of READ RESERVATION.
fn put_reservation<R: Registrants>(from: &R, out: &mut [u8])
    requires count { length (R.standing from.now).pairs ≤ REPORTABLE }
    requires size { length out.old ≤ length (reservation_reply (R.standing from.now)) }
    ensures front { out.new ≡ take (length out.old) (reservation_reply (R.standing from.now)) }
    ensures fits { FitsHeld (R.standing from.now) }
{
    match (from.kind(), from.holder()) {
        (None, _) => put_head(out, from.generation(), 0),
        (Some(kind), None) => put_held(out, from.generation(), 0, kind),
        (Some(kind), Some(holder)) => put_held(out, from.generation(), key_at(from, holder), kind),
    }
}

/// Fills a buffer with the front of the data of READ RESERVATION, of a reservation that is held.
fn put_held(out: &mut [u8], generation: u32, key: u64, kind: Kind)
    requires { length out.old ≤ 24 }
    ensures { out.new ≡ take (length out.old) (to_be_bytes w32 generation ++ held_bytes key kind) }
{
    let k = key.to_be_bytes();
    put_head(out, generation, 16);
    put(
        out,
        8,
        &[
            k[0],
            k[1],
            k[2],
            k[3],
            k[4],
            k[5],
            k[6],
            k[7],
            0,
            0,
            0,
            0,
            0,
            kind.code(),
            0,
            0,
        ],
    );
}

/// The key of a nexus, or zero where it isn't registered.
fn key_at<R: Registrants>(from: &R, nexus: Nexus) -> u64
    ensures { result ≡ spec_key_at (R.standing from.now).pairs nexus }
{
    for i in 0..from.count() {
        let (registered, key) = from.at(i);
        if is_same(&registered, &nexus) {
            return key.0;
        }
    }
    0
}

/// Fills a buffer with the front of the data of REPORT CAPABILITIES.
fn put_capabilities(preserve: bool, out: &mut [u8])
    requires { length out.old ≤ 8 }
    ensures { out.new ≡ take (length out.old) (0 ∷ 8 ∷ 0x01 ∷ (0x80 + bit preserve) ∷ 0xEA ∷ 0x01 ∷ 0 ∷ 0 ∷ []) }
{
    put(out, 0, &[0, 8, 0x01, 0x80 + u8::from(preserve)]);
    put(out, 4, &[0xEA, 0x01, 0, 0]);
}

/// How long the data of READ FULL STATUS is.
fn full_length<R: Registrants>(from: &R) -> usize
    requires { length (R.standing from.now).pairs ≤ REPORTABLE }
    ensures { result ≡ length (full_reply (R.standing from.now)) }
{
    8 + 48 * from.count()
}

/// Fills a buffer with the front of the data of READ FULL STATUS.
fn put_full<R: Registrants>(from: &R, out: &mut [u8])
    requires count { length (R.standing from.now).pairs ≤ REPORTABLE }
    requires size { length out.old ≤ length (full_reply (R.standing from.now)) }
    ensures front { out.new ≡ take (length out.old) (full_reply (R.standing from.now)) }
    ensures fits { length out.old ≡ length (full_reply (R.standing from.now)) → FitFields (R.standing from.now) }
{
    let count = from.count();
    let (kind, holder) = (from.kind(), from.holder());
    put_head(out, from.generation(), 48 * count as u32);
    for i in 0..count.min(out.len() / 48 + 1) {
        let (nexus, key) = from.at(i);
        put(out, 8 + 48 * i, &descriptor(kind, holder, nexus, key));
    }
}

/// A descriptor of READ FULL STATUS.
fn descriptor(kind: Option<Kind>, holder: Option<Nexus>, nexus: Nexus, key: Key) -> [u8; 48]
    ensures bytes { result ≡ spec_descriptor kind holder (record { nexus = nexus; key = key }) }
    ensures fits { FitsPair (record { nexus = nexus; key = key }) }
{
    let k = key.0.to_be_bytes();
    let p = nexus.port.to_be_bytes();
    let n = nexus.name.to_be_bytes();
    let holds = u8::from(holds(kind, holder, nexus));
    let code = type_byte(kind, holder, nexus);
    [
        k[0], k[1], k[2], k[3], k[4], k[5], k[6], k[7], 0, 0, 0, 0, holds, code, 0, 0, 0, 0, p[0],
        p[1], 0, 0, 0, 24, 6, 0, 0, 0, n[0], n[1], n[2], n[3], n[4], n[5], n[6], n[7], 0, 0, 0, 0,
        0, 0, 0, 0, 0, 0, 0, 0,
    ]
}

/// Whether a registered nexus holds the reservation, by its type and its one holder.
fn holds(kind: Option<Kind>, holder: Option<Nexus>, nexus: Nexus) -> bool
    ensures { result ≡ spec_holds kind holder nexus }
{
    match (kind, holder) {
        (None, _) => false,
        (Some(_), None) => true,
        (Some(_), Some(holder)) => is_same(&holder, &nexus),
    }
}

/// The byte of scope and type of a registered nexus.
fn type_byte(kind: Option<Kind>, holder: Option<Nexus>, nexus: Nexus) -> u8
    ensures { result ≡ spec_held_code kind holder nexus }
{
    match (kind, holder) {
        (None, _) => 0,
        (Some(kind), None) => kind.code(),
        (Some(kind), Some(holder)) => {
            if is_same(&holder, &nexus) {
                kind.code()
            } else {
                0
            }
        }
    }
}
