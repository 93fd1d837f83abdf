ghost use Rattle.std.specs.Prelude.{◌≡◌, ◌≤◌};

use super::*;
use pr_words::{Code, Key, Kind, Nexus};
use std::alloc::{AllocError, Global};
use std::test::*;

const A: Nexus = Nexus {
    name: 0x11,
    port: 1,
};

const B: Nexus = Nexus {
    name: 0x12,
    port: 1,
};

const KEY_A: u64 = 0x9001_0001;

const KEY_B: u64 = 0x9001_0002;

// What a nexus asks for, with the type of the CDB; the scope is that of the logical unit.
#[derive(Clone, Copy, Debug, PartialEq, Eq)]
enum Asks {
    Register,
    Reserve(u8),
    Release(u8),
    Clear,
    Preempt(u8),
    PreemptAndAbort(u8),
    RegisterAnyway,
}

impl Asks {
    fn action(self) -> OutAction
        ensures { result.action ≤ 6 }
    {
        let (action, kind) = match self {
            Asks::Register => (0, 0),
            Asks::Reserve(kind) => (1, kind),
            Asks::Release(kind) => (2, kind),
            Asks::Clear => (3, 0),
            Asks::Preempt(kind) => (4, kind),
            Asks::PreemptAndAbort(kind) => (5, kind),
            Asks::RegisterAnyway => (6, 0),
        };
        OutAction {
            action,
            scope: 0,
            kind,
        }
    }
}

fn serve(table: &mut Table, nexus: Nexus, asks: Asks, key: u64, action_key: u64) -> Verdict {
    let list = OutList {
        key,
        action_key,
        spec_i_pt: false,
        all_tg_pt: false,
        aptpl: false,
    };
    table.act(nexus, &asks.action(), &list)
}

// A table in which A and B are registered, A first, and A holds a reservation of this type.
fn held(alloc: Global, kind: u8) -> Result<Table, AllocError> {
    let mut table = Table::new(alloc, 64)?;
    serve(&mut table, A, Asks::RegisterAnyway, 0, KEY_A);
    serve(&mut table, B, Asks::RegisterAnyway, 0, KEY_B);
    serve(&mut table, A, Asks::Reserve(kind), KEY_A, 0);
    Ok(table)
}

fn good() -> Verdict {
    telling(None)
}

fn telling(stay_code: Option<Code>) -> Verdict {
    removing(0, None, stay_code, false)
}

fn removing(
    removed: usize,
    removed_code: Option<Code>,
    stay_code: Option<Code>,
    abort: bool,
) -> Verdict {
    Verdict::Good(Change {
        removed,
        removed_code,
        stay_code,
        abort,
        keeps: false,
    })
}

// A unit attention condition with the additional sense code 2Ah.
fn attention(ascq: u8) -> Option<Code> {
    Some(Code {
        key: 6,
        asc: 0x2A,
        ascq,
    })
}

fn refused(asc: u8, ascq: u8) -> Verdict {
    Verdict::Bad(Code { key: 5, asc, ascq })
}

// Who asks, for what, with which two keys; the verdict, the generation, how many are registered, and
// the number of the type that is held.
type Step = (Nexus, Asks, u64, u64, Verdict, u32, usize, u8);

fn pair(nexus: Nexus, key: u64) -> Pair
    ensures { result ≡ record { nexus = nexus; key = record { 0 = key } } }
{
    Pair {
        nexus,
        key: Key(key),
    }
}

// The first of the steps that comes out otherwise.
fn first_wrong(table: &mut Table, steps: &[Step]) -> Option<usize> {
    for (i, (nexus, asks, key, action_key, verdict, generation, count, kind)) in steps
        .iter()
        .enumerate()
    {
        let told = serve(table, *nexus, *asks, *key, *action_key);
        let held = table.kind().map_or(0, |held| held.code());
        if told != *verdict
            || table.generation() != *generation
            || table.count() != *count
            || held != *kind
        {
            return Some(i);
        }
    }
    None
}

#[test]
fn an_unregistered_nexus_registers_with_a_zero_key_alone(rt: HostRuntime) -> Result<(), Fail> {
    let mut table = Table::new(rt.alloc(), 64)?;
    let steps = [
        (A, Asks::Register, 0, 0, good(), 0, 0, 0),
        (A, Asks::Register, 1, 0, Verdict::Conflict, 0, 0, 0),
        (A, Asks::Register, 1, KEY_A, Verdict::Conflict, 0, 0, 0),
        (A, Asks::RegisterAnyway, 1, 0, good(), 0, 0, 0),
        (A, Asks::Reserve(5), KEY_A, 0, Verdict::Conflict, 0, 0, 0),
        (A, Asks::Register, 0, KEY_A, good(), 1, 1, 0),
        (B, Asks::RegisterAnyway, 7, KEY_B, good(), 2, 2, 0),
        (A, Asks::Register, KEY_B, KEY_A, Verdict::Conflict, 2, 2, 0),
        (A, Asks::Register, KEY_A, KEY_A, good(), 3, 2, 0),
        (A, Asks::Reserve(2), KEY_A, 0, refused(0x24, 0), 3, 2, 0),
        (A, Asks::Clear, KEY_B, 0, Verdict::Conflict, 3, 2, 0),
        (
            A,
            Asks::Clear,
            KEY_A,
            0,
            removing(2, attention(3), None, false),
            4,
            0,
            0,
        ),
    ];
    assert_eq!(rt; first_wrong(&mut table, &steps), None);
    Ok(())
}

#[test]
fn a_reservation_of_registrants_is_released_by_its_holder(rt: HostRuntime) -> Result<(), Fail> {
    let mut table = held(rt.alloc(), 5)?;
    let steps = [
        (A, Asks::Release(6), KEY_A, 0, refused(0x26, 4), 2, 2, 5),
        (B, Asks::Release(5), KEY_B, 0, good(), 2, 2, 5),
        (A, Asks::Reserve(5), KEY_A, 0, good(), 2, 2, 5),
        (A, Asks::Reserve(6), KEY_A, 0, Verdict::Conflict, 2, 2, 5),
        (B, Asks::Reserve(5), KEY_B, 0, Verdict::Conflict, 2, 2, 5),
        (
            A,
            Asks::Release(5),
            KEY_A,
            0,
            telling(attention(4)),
            2,
            2,
            0,
        ),
        (A, Asks::Release(5), KEY_A, 0, good(), 2, 2, 0),
    ];
    assert_eq!(rt; first_wrong(&mut table, &steps), None);
    Ok(())
}

#[test]
fn a_reservation_of_all_ends_with_the_last_registration(rt: HostRuntime) -> Result<(), Fail> {
    for kind in [7, 8] {
        let mut table = held(rt.alloc(), kind)?;
        let steps = [
            (B, Asks::Reserve(kind), KEY_B, 0, good(), 2, 2, kind),
            (B, Asks::Release(5), KEY_B, 0, refused(0x26, 4), 2, 2, kind),
            (B, Asks::Register, KEY_B, 0, good(), 3, 1, kind),
            (A, Asks::RegisterAnyway, 0, 0, good(), 4, 0, 0),
        ];
        assert_eq!(rt; first_wrong(&mut table, &steps), None, "at type {kind}");
    }
    Ok(())
}

#[test]
fn a_single_holder_that_leaves_ends_its_reservation(rt: HostRuntime) -> Result<(), Fail> {
    for (kind, stay_code) in [(1, None), (3, None), (5, attention(4)), (6, attention(4))] {
        let mut table = held(rt.alloc(), kind)?;
        let steps = [
            (A, Asks::Register, KEY_A, 0, telling(stay_code), 3, 1, 0),
            (B, Asks::Reserve(kind), KEY_B, 0, good(), 3, 1, kind),
            (
                B,
                Asks::Release(kind),
                KEY_B,
                0,
                telling(stay_code),
                3,
                1,
                0,
            ),
        ];
        assert_eq!(rt; first_wrong(&mut table, &steps), None, "at type {kind}");
    }
    Ok(())
}

#[test]
fn a_holder_is_preempted(rt: HostRuntime) -> Result<(), Fail> {
    for (kind, named) in [
        (1, KEY_A),
        (3, KEY_A),
        (5, KEY_A),
        (6, KEY_A),
        (7, 0),
        (8, 0),
    ] {
        let mut table = held(rt.alloc(), kind)?;
        let changed = if kind == 3 { None } else { attention(4) };
        let steps = [
            (
                B,
                Asks::Preempt(4),
                KEY_B,
                named,
                refused(0x24, 0),
                2,
                2,
                kind,
            ),
            (
                B,
                Asks::PreemptAndAbort(3),
                KEY_B,
                named,
                removing(1, attention(5), changed, true),
                3,
                1,
                3,
            ),
        ];
        assert_eq!(rt; first_wrong(&mut table, &steps), None, "at type {kind}");
        assert_eq!(rt; table.holder(), Some(B), "at type {kind}");
        assert_eq!(rt; table.key_of(A), None, "at type {kind}");
    }
    Ok(())
}

#[test]
fn preempt_by_another_key_leaves_the_reservation(rt: HostRuntime) -> Result<(), Fail> {
    let mut table = held(rt.alloc(), 5)?;
    let steps = [
        (B, Asks::Preempt(1), KEY_B, 0, refused(0x26, 0), 2, 2, 5),
        (B, Asks::Preempt(1), KEY_B, 0x77, Verdict::Conflict, 2, 2, 5),
        (
            B,
            Asks::Preempt(2),
            KEY_B,
            KEY_B,
            removing(1, attention(5), None, false),
            3,
            1,
            5,
        ),
    ];
    assert_eq!(rt; first_wrong(&mut table, &steps), None);
    assert!(rt; table.was_removed(B) && !table.was_removed(A));
    assert_eq!(rt; table.holder(), Some(A));
    let steps = [
        (
            A,
            Asks::Preempt(6),
            KEY_A,
            KEY_A,
            removing(0, attention(5), attention(4), false),
            4,
            1,
            6,
        ),
        (
            A,
            Asks::Clear,
            KEY_A,
            0,
            removing(1, attention(3), None, false),
            5,
            0,
            0,
        ),
    ];
    assert_eq!(rt; first_wrong(&mut table, &steps), None);
    Ok(())
}

#[test]
fn a_full_table_takes_new_keys_alone(rt: HostRuntime) -> Result<(), Fail> {
    let mut table = Table::new(rt.alloc(), 64)?;
    for name in 1..=64 {
        let nexus = Nexus {
            name: name * 7 % 65,
            port: 1,
        };
        assert_eq!(rt;
            serve(&mut table, nexus, Asks::RegisterAnyway, 0, KEY_A + name),
            good(),
            "at {name}"
        );
    }
    let stranger = Nexus { name: 0, port: 1 };
    let steps = [
        (
            stranger,
            Asks::RegisterAnyway,
            0,
            1,
            refused(0x55, 4),
            64,
            64,
            0,
        ),
        (A, Asks::RegisterAnyway, 0, KEY_A, good(), 65, 64, 0),
    ];
    assert_eq!(rt; first_wrong(&mut table, &steps), None);
    assert_eq!(rt; table.key_of(A), Some(Key(KEY_A)));
    Ok(())
}

#[test]
fn what_was_kept_comes_back(rt: HostRuntime) -> Result<(), Fail> {
    let alloc = rt.alloc();
    let kept = Kept {
        on: true,
        kind: Some(Kind::WriteRegistrants),
        holder: Some(A),
        pairs: vec![in alloc; pair(A, KEY_A), pair(B, KEY_B)]?,
    };
    let table = Table::from_kept(alloc, &kept, 64)?;
    let mut other = Table::new(alloc, 64)?;
    other.copy_from(&table);
    for table in [&table, &other] {
        assert_eq!(rt;
            (table.count(), table.generation(), table.preserve()),
            (2, 0, true)
        );
        assert_eq!(rt;
            (table.kind(), table.holder()),
            (Some(Kind::WriteRegistrants), Some(A))
        );
        assert_eq!(rt; table.key_of(B), Some(Key(KEY_B)));
    }
    Ok(())
}
