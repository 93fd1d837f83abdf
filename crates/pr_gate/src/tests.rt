//! Turns of one thread, and of several at once.
ghost use Rattle.std.specs.Prelude.{◌≡◌, ◌≤◌, ◌<◌, ◌-◌, ◌%◌, ◌^◌, length};
ghost use denote.Param.Send.{IsSync};
ghost use Rattle.pr_gate.specs.Passes.{IsOf, IsNoteOf, IsFree, spare_of};

use super::*;
use std::alloc::Global;
use std::sync::Wait;
use std::thread::{Threads, join};

const TURNS: u64 = 1000;

// A value that counts its turns.
#[derive(Drop)]
struct Tally {
    turns: u64,
}

#[derive(Clone, Copy, Debug, PartialEq, Eq)]
struct Taken {
    by: u64,
}

impl Stands for Tally {
    type Entry = Taken;

    type Ground = bool;

    ghost use Rattle.std.specs.Prelude.{true};

    ghost number = { λ taken. taken.by };

    ghost ground = { λ _. true };

    ghost stands = { λ tally h. tally.turns ≡ length h % 2 ^ 64 };
}

fn take_turn<R: Wait>(rt: &R, gate: &Gate<Tally>, pass: &mut Pass<Tally>) -> Result<(), Spent>
    requires { IsOf gate.now pass.old × IsFree pass.old }
    ensures { IsOf gate.now pass.new × IsFree pass.new × (spare_of pass.new ≡ spare_of pass.old) }
{
    let mut turn = gate.enter(rt, pass)?;
    let tally = turn.value();
    tally.turns = tally.turns.wrapping_add(1);
    let by = pass.number();
    gate.leave(pass, turn, Taken { by });
    Ok(())
}

fn take_turns<R: Wait>(rt: &R, gate: &Gate<Tally>, mut pass: Pass<Tally>) -> Note<Tally>
    requires { IsOf gate.now pass × IsFree pass }
    ensures { IsNoteOf gate.now result }
{
    for _ in 0..TURNS {
        if take_turn(rt, gate, &mut pass).is_err() {
            break;
        }
    }
    gate.note(&mut pass)
}

// As many threads take their turns at once. The first pass has then seen them all.
fn take_all_turns<R: Threads + Wait + Sync>(
    rt: &R,
    gate: &Gate<Tally>,
    mut first: Pass<Tally>,
    threads: u64,
) -> Pass<Tally>
    requires { IsOf gate.now first × IsFree first × (threads ≤ spare_of first) }
    ensures { IsOf gate.now result × IsFree result }
{
    if threads == 0 {
        return first;
    }
    let one = gate.new_pass(&mut first);
    let (note, mut first) = join(
        rt,
        move || -> Note<Tally>
            requires { IsOf gate.now one × IsFree one }
            ensures { IsNoteOf gate.entry.now result }
        { take_turns(rt, gate, one) },
        move || -> Pass<Tally>
            requires { IsSync R.row × IsOf gate.now first × IsFree first × (0 < threads)
                × (threads - 1 ≤ spare_of first) }
            ensures { IsOf gate.entry.now result × IsFree result }
        { take_all_turns(rt, gate, first, threads - 1) },
    );
    gate.meet(&mut first, note);
    first
}

// Over any value that may cross threads.
fn note_there<T: Stands + Send, R: Threads + Wait + Sync>(
    rt: &R,
    gate: &Gate<T>,
    mut one: Pass<T>,
    mut two: Pass<T>,
) -> (Note<T>, Note<T>)
where
    T::Ground: Send + Drop,
    requires { IsOf gate.now one × IsOf gate.now two }
    ensures { IsNoteOf gate.now result.0 × IsNoteOf gate.now result.1 }
{
    join(
        rt,
        move || -> Note<T>
            requires { IsOf gate.now one }
            ensures { IsNoteOf gate.entry.now result }
        { gate.note(&mut one) },
        move || -> Note<T>
            requires { IsOf gate.now two }
            ensures { IsNoteOf gate.entry.now result }
        { gate.note(&mut two) },
    )
}

fn zero() -> Tally
    ensures { result.turns ≡ 0 }
{
    Tally { turns: 0 }
}

#[test]
fn a_note_carries_what_was_seen(rt: HostRuntime) {
    let Ok((gate, mut first)) = Gate::new(rt.alloc(), zero()) else {
        panic!(rt; "no memory");
    };
    let mut fresh = gate.new_pass(&mut first);
    assert!(rt; take_turn(&rt, &gate, &mut first).is_ok());
    assert!(rt; take_turn(&rt, &gate, &mut first).is_ok());
    let note = gate.note(&mut first);
    assert_eq!(rt; fresh.length(), 0);
    gate.meet(&mut fresh, note);
    assert_eq!(rt; fresh.length(), 2);
    assert_eq!(rt; (first.number(), fresh.number()), (0, 1));
    match gate.close(fresh) {
        Ok(tally) => assert_eq!(rt; tally.turns, 2),
        Err(_) => panic!(rt; "a turn is out"),
    }
}

#[test]
fn threads_take_all_their_turns(rt: HostRuntime) {
    for threads in [2, 16] {
        let Ok((gate, first)) = Gate::new(rt.alloc(), zero()) else {
            panic!(rt; "no memory");
        };
        let first = take_all_turns(&rt, &gate, first, threads);
        assert_eq!(rt; first.length(), threads * TURNS, "seen");
        match gate.close(first) {
            Ok(tally) => assert_eq!(rt; tally.turns, threads * TURNS),
            Err(_) => panic!(rt; "a turn is out"),
        }
    }
}
