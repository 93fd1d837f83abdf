ghost use Rattle.std.specs.Prelude.{◌≡◌, ◌≤◌, ◌<◌, ◌+◌, ◌*◌, ◌^◌, ◌++◌, true, length, take};
ghost use Rattle.std.specs.List.{flat_map};
ghost use Rattle.pr_words.specs.declared.limits.TheConstants.{LIMIT};
ghost use Rattle.pr_grammar.specs.Files.{spelled_pair, spelled_fields, spelled_slot, type_code, place_in, holder_place};
ghost use Rattle.pr_model.specs.Keeping.{kept};
ghost use Rattle.pr_table.specs.Tables.{standing_of};
ghost use Rattle.pr_aptpl.specs.Doubts.{AreInFields};
ghost use Rattle.pr_aptpl.specs.declared.opening.TheConstants.{SLOT};

use crate::parts::OPEN;
use pr_param::Registrants;
use pr_table::Table;
use pr_words::{Key, Kind, Nexus, is_same};

/// The holder's place where not one nexus holds the reservation.
const NO_PLACE: u16 = 0xFFFF;

/// Puts bytes behind those that stand before a place.
fn put_at(buffer: &mut [u8], at: usize, piece: &[u8])
    requires { at + length piece.now ≤ length buffer.old }
    ensures bytes { take (at + length piece.now) buffer.new ≡ take at buffer.old ++ piece.now }
    ensures length { length buffer.new ≡ length buffer.old }
{
    buffer[at..at + piece.len()].copy_from_slice(piece);
}

fn pair_bytes(nexus: Nexus, key: Key) -> [u8; 18]
    ensures bytes { result ≡ spelled_pair (record { nexus = nexus; key = key }) }
    ensures fits { (nexus.name < 2 ^ 64) × (key.0 < 2 ^ 64) }
{
    let [n0, n1, n2, n3, n4, n5, n6, n7] = nexus.name.to_be_bytes();
    let [p0, p1] = nexus.port.to_be_bytes();
    let [k0, k1, k2, k3, k4, k5, k6, k7] = key.0.to_be_bytes();
    [
        n0, n1, n2, n3, n4, n5, n6, n7, p0, p1, k0, k1, k2, k3, k4, k5, k6, k7,
    ]
}

fn field_bytes(turn: u8, kept: u8, kind: u8, count: u16, holder: u16) -> [u8; 16]
    ensures { result ≡ spelled_fields turn kept kind count holder }
{
    let [n0, n1] = count.to_be_bytes();
    let [h0, h1] = holder.to_be_bytes();
    [
        OPEN, turn, kept, kind, n0, n1, h0, h1, 0, 0, 0, 0, 0, 0, 0, 0,
    ]
}

/// The type's number, 0 where no reservation is held.
fn code_of(kind: Option<Kind>) -> u8
    ensures { result ≡ type_code kind }
{
    match kind {
        None => 0,
        Some(kind) => kind.code(),
    }
}

/// The place of a nexus's registration; their number where it isn't registered.
fn place_of(table: &Table, nexus: Nexus) -> usize
    ensures place { result ≡ place_in (standing_of table.now).pairs nexus }
    ensures within { result ≤ length (standing_of table.now).pairs }
{
    let count = table.count();
    for i in 0..count {
        let (other, _) = table.at(i);
        if is_same(&other, &nexus) {
            return i;
        }
    }
    count
}

/// The holder's place among the registrations.
fn holder_of(table: &Table, holder: Option<Nexus>) -> u16
    requires { length (standing_of table.now).pairs ≤ LIMIT }
    ensures { result ≡ holder_place holder (standing_of table.now).pairs }
{
    match holder {
        None => NO_PLACE,
        Some(nexus) => place_of(table, nexus) as u16,
    }
}

/// Spells the registrations from byte 16 on, and says where they end.
fn spell_pairs(buffer: &mut [u8], table: &Table) -> usize
    requires { 16 + 18 * length (standing_of table.now).pairs ≤ length buffer.old }
    ensures len { result ≡ 16 + 18 * length (standing_of table.now).pairs }
    ensures bytes { take result buffer.new
        ≡ take 16 buffer.old ++ flat_map spelled_pair (standing_of table.now).pairs }
    ensures fits { AreInFields (standing_of table.now).pairs }
    ensures length { length buffer.new ≡ length buffer.old }
{
    let mut at = 16;
    for i in 0..table.count() {
        let (nexus, key) = table.at(i);
        put_at(buffer, at, &pair_bytes(nexus, key));
        at += 18;
    }
    at
}

/// Spells an open slot with what a table keeps to the front of the buffer, and says how long it is.
pub(crate) fn spell(buffer: &mut [u8], turn: u8, table: &Table) -> usize
    requires room { SLOT ≤ length buffer.old }
    requires count { length (standing_of table.now).pairs ≤ LIMIT }
    ensures bytes { take result buffer.new ≡ spelled_slot turn (kept (standing_of table.now)) }
    ensures fits { (standing_of table.now).preserve ≡ true → AreInFields
        (standing_of table.now).pairs }
    ensures length { length buffer.new ≡ length buffer.old }
    ensures least { 16 ≤ result }
    ensures most { result ≤ SLOT }
{
    if !table.preserve() {
        put_at(buffer, 0, &field_bytes(turn, 0, 0, 0, NO_PLACE));
        return 16;
    }
    let kind = code_of(table.kind());
    let holder = holder_of(table, table.holder());
    let count = table.count() as u16;
    put_at(buffer, 0, &field_bytes(turn, 1, kind, count, holder));
    spell_pairs(buffer, table)
}
