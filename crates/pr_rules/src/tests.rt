use crate::{Role, allows};
use pr_cdb::class;
use pr_words::Kind;

/// The operation codes, in the order of the columns below.
const OPERATION_CODES: [u8; 13] = [
    0x00, 0x03, 0x12, 0x25, 0x28, 0x2A, 0x35, 0x5E, 0x5F, 0x88, 0x8A, 0x9E, 0xA0,
];

/// Nothing conflicts.
const NOTHING: &[u8; 13] = b".............";

/// WRITE and SYNCHRONIZE CACHE conflict.
const WRITES: &[u8; 13] = b".....xx...x..";

/// READ, WRITE and SYNCHRONIZE CACHE conflict.
const ACCESS: &[u8; 13] = b"....xxx..xx..";

/// Whether a reservation of this type allows just what has a full stop in the row.
fn has_row(kind: Kind, role: Role, row: &[u8; 13]) -> bool {
    for (op, mark) in OPERATION_CODES.iter().zip(row) {
        if allows(kind, role, class(*op)) != (*mark == b'.') {
            return false;
        }
    }
    true
}

#[test]
fn types_allow_what_the_tables_of_conflicts_say(rt: HostRuntime) {
    let table = [
        (Kind::WriteExclusive, WRITES, WRITES),
        (Kind::ExclusiveAccess, ACCESS, ACCESS),
        (Kind::WriteRegistrants, NOTHING, WRITES),
        (Kind::ExclusiveRegistrants, NOTHING, ACCESS),
        (Kind::WriteAll, NOTHING, WRITES),
        (Kind::ExclusiveAll, NOTHING, ACCESS),
    ];
    for (kind, registered, stranger) in table {
        assert!(rt; has_row(kind, Role::Holder, NOTHING));
        assert!(rt; has_row(kind, Role::Registered, registered));
        assert!(rt; has_row(kind, Role::Stranger, stranger));
    }
}
