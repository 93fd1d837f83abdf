//! Connections taken at a door, and served with a target in a gate until all have ended.

ghost use Rattle.std.specs.Prelude.{◌≡◌, ◌<◌, ◌≤◌, ◌+◌, ◌^◌, ℕ, List, [], ◌∷◌, Option, Some, None, IfErr, IfSome, IsSome, IsOk, OnOk, OnErr, length};
ghost use Rattle.pr_io.specs.Told.{ToldStreams};
ghost use Rattle.pr_model.specs.Lanes.{fresh, turned};
ghost use Rattle.pr_gate.specs.Passes.{IsOf, spare_of};
ghost use Rattle.pr_session.specs.declared.session_end.SessionEnd.{SessionEnd};
ghost use Rattle.pr_serve.specs.Connections.{IsRightPass};
ghost use Rattle.pr_serve.specs.Crowds.{used_of, most_of, Stands};
ghost use Rattle.pr_serve.specs.Accepting.{told_door, Accepts, Serves, IsCause, Found};

use crate::attending::{begin, settle, take_in_all, take_in_ended};
use crate::sessions::SessionsOver;
use crate::stop::Stop;
use pr_core::Core;
use pr_gate::{Gate, Pass};
use pr_io::{Disk, Door, Medium};
use pr_session::Session;
use std::sync::Wait;
use std::thread;
use std::thread::{Scope, Threads};

/// Takes the next connection and has it served, after the sessions that have ended were taken in.
///
/// # Errors
///
/// Where no more are taken. None was then.
fn accept_one<'s, E, A, M, D, R>(
    scope: &'s Scope<'s, E>,
    rt: &'s R,
    gate: &'s Gate<Core<M, D>>,
    door: &mut A,
    main: &mut Pass<Core<M, D>>,
    spare: &mut Session,
    sessions: &mut SessionsOver<A::In, A::Out, M, D>,
) -> Result<(), Stop>
where
    A: Door,
    A::In: 's,
    A::Out: 's,
    M: Medium + Send + Drop + 's,
    D: Disk + Send + Drop + 's,
    R: Threads + Wait + Sync + 's,
    requires gate { IsOf gate.now main.old }
    requires spare { 0 < spare_of main.old }
    requires right { IsRightPass M.Medium D.Disk main.old }
    requires room { used_of sessions.old < most_of sessions.old }
    requires stands { (first : ℕ) × (cs : List ToldStreams)
        × Stands A.In.Source A.Out.Sink first cs main.old sessions.old }
    ensures right { IsRightPass M.Medium D.Disk main.new }
    ensures took { OnOk result ((c : ToldStreams) × Accepts A.In.Source A.Out.Sink
        (told_door (A.waiting door.old) (A.taken door.old))
        (told_door (A.waiting door.new) (A.taken door.new)) (c ∷ []) main.old main.new
        sessions.old sessions.new) }
    ensures none { OnErr result (Accepts A.In.Source A.Out.Sink
        (told_door (A.waiting door.old) (A.taken door.old))
        (told_door (A.waiting door.new) (A.taken door.new)) [] main.old main.new
        sessions.old sessions.new) }
    ensures cause { IfErr result (λ stop. IsCause stop
        (λ ticket. sessions.new.spent ≡ Some ticket) (A.faults door.old) (A.faults door.new)) }
    ensures later { A.faults door.old ≤ A.faults door.new }
{
    take_in_ended(sessions, rt, gate, main);
    if let Some(ticket) = sessions.spent {
        return Err(Stop::Spent(ticket));
    }
    match door.accept() {
        Ok((source, sink)) => {
            begin(sessions, scope, rt, gate, main, spare, source, sink);
            Ok(())
        }
        Err(_) => Err(Stop::Door),
    }
}

/// Takes so many connections, and has each served.
///
/// # Errors
///
/// Where no more are taken before.
fn accept_all<'s, E, A, M, D, R>(
    scope: &'s Scope<'s, E>,
    rt: &'s R,
    gate: &'s Gate<Core<M, D>>,
    door: &mut A,
    main: &mut Pass<Core<M, D>>,
    spare: &mut Session,
    sessions: &mut SessionsOver<A::In, A::Out, M, D>,
    many: u64,
) -> Result<(), Stop>
where
    A: Door,
    A::In: 's,
    A::Out: 's,
    M: Medium + Send + Drop + 's,
    D: Disk + Send + Drop + 's,
    R: Threads + Wait + Sync + 's,
    requires gate { IsOf gate.now main.old }
    requires spare { many ≤ spare_of main.old }
    requires right { IsRightPass M.Medium D.Disk main.old }
    requires room { used_of sessions.old + many ≤ most_of sessions.old }
    requires stands { (first : ℕ) × (cs : List ToldStreams)
        × (first + length cs + spare_of main.old ≡ 2 ^ 62 + 1)
        × Stands A.In.Source A.Out.Sink first cs main.old sessions.old }
    ensures right { IsRightPass M.Medium D.Disk main.new }
    ensures took { (more : List ToldStreams) × OnOk result (length more ≡ many)
        × Accepts A.In.Source A.Out.Sink (told_door (A.waiting door.old) (A.taken door.old))
        (told_door (A.waiting door.new) (A.taken door.new)) more main.old main.new
        sessions.old sessions.new }
    ensures cause { IfErr result (λ stop. IsCause stop
        (λ ticket. sessions.new.spent ≡ Some ticket) (A.faults door.old) (A.faults door.new)) }
{
    let mut taken = 0;
    while taken < many {
        match accept_one(scope, rt, gate, door, main, spare, sessions) {
            Ok(()) => taken += 1,
            Err(stop) => return Err(stop),
        }
    }
    Ok(())
}

/// Whether all were taken, with a session that found that the gate gives no more turns.
fn unless_spent(taken: Result<(), Stop>, spent: Option<u64>) -> Result<(), Stop>
    requires { IfSome spent (λ ticket. 2 ^ 62 ≤ ticket) }
    ensures all { OnOk result (IsOk taken) }
    ensures cause { (before now : ℕ) (earlier : Option ℕ) → (IsSome earlier → IsSome spent)
        → IfErr taken (λ stop. IsCause stop (λ ticket. earlier ≡ Some ticket) before now)
        → IfErr result (λ stop. IsCause stop (λ ticket. spent ≡ Some ticket) before now) }
{
    match spent {
        Some(ticket) => Err(Stop::Spent(ticket)),
        None => taken,
    }
}

/// Takes so many connections, has each served, and waits until all have ended.
fn serve_in<'s, E, A, M, D, R>(
    scope: &'s Scope<'s, E>,
    rt: &'s R,
    gate: &'s Gate<Core<M, D>>,
    mut door: A,
    mut main: Pass<Core<M, D>>,
    mut spare: Session,
    mut sessions: SessionsOver<A::In, A::Out, M, D>,
    many: u64,
) -> (A, Pass<Core<M, D>>, Result<(), Stop>)
where
    A: Door + Drop,
    A::In: 's,
    A::Out: 's,
    M: Medium + Send + Drop + 's,
    D: Disk + Send + Drop + 's,
    R: Threads + Wait + Sync + 's,
    requires gate { IsOf gate.now main }
    requires spare { many ≤ spare_of main }
    requires few { spare_of main ≤ 2 ^ 62 }
    requires right { IsRightPass M.Medium D.Disk main }
    requires none { (sessions.running.items ≡ []) × (sessions.retired.items ≡ [])
        × (sessions.spent ≡ None) }
    requires room { used_of sessions + many ≤ most_of sessions }
    ensures right { IsRightPass M.Medium D.Disk result.1 }
    ensures serves { (cs : List ToldStreams) × (ends : List SessionEnd)
        × OnOk result.2 (length cs ≡ many)
        × Serves (told_door (A.waiting door) (A.taken door))
        (told_door (A.waiting result.0) (A.taken result.0)) main result.1 cs ends
        × IfErr result.2 (λ stop. IsCause stop (Found ends) (A.faults door)
        (A.faults result.0)) }
{
    let taken = accept_all(
        scope,
        rt,
        gate,
        &mut door,
        &mut main,
        &mut spare,
        &mut sessions,
        many,
    );
    take_in_all(&mut sessions, rt, gate, &mut main);
    let stopped = unless_spent(taken, sessions.spent);
    settle(sessions, gate, &mut main);
    (door, main, stopped)
}

/// Takes so many connections and serves each in a thread of its own, and waits until all have ended.
pub(crate) fn serve_all<A, M, D, R>(
    rt: &R,
    gate: &Gate<Core<M, D>>,
    door: A,
    main: Pass<Core<M, D>>,
    spare: Session,
    sessions: SessionsOver<A::In, A::Out, M, D>,
    many: u64,
) -> (A, Pass<Core<M, D>>, Result<(), Stop>)
where
    A: Door + Drop,
    M: Medium + Send + Drop,
    D: Disk + Send + Drop,
    R: Threads + Wait + Sync,
    requires gate { IsOf gate.now main }
    requires spare { many ≤ spare_of main }
    requires few { spare_of main ≤ 2 ^ 62 }
    requires right { IsRightPass M.Medium D.Disk main }
    requires none { (sessions.running.items ≡ []) × (sessions.retired.items ≡ [])
        × (sessions.spent ≡ None) }
    requires room { used_of sessions + many ≤ most_of sessions }
    ensures right { IsRightPass M.Medium D.Disk result.1 }
    ensures serves { (cs : List ToldStreams) × (ends : List SessionEnd)
        × OnOk result.2 (length cs ≡ many)
        × Serves (told_door (A.waiting door) (A.taken door))
        (told_door (A.waiting result.0) (A.taken result.0)) main result.1 cs ends
        × IfErr result.2 (λ stop. IsCause stop (Found ends) (A.faults door)
        (A.faults result.0)) }
{
    thread::scope(
        thread::scope_env(),
        rt,
        move |scope| -> (A, Pass<Core<M, D>>, Result<(), Stop>)
            requires { IsOf gate.now main × (many ≤ spare_of main) × (spare_of main ≤ 2 ^ 62)
                × IsRightPass M.Medium D.Disk main
                × ((sessions.running.items ≡ []) × (sessions.retired.items ≡ [])
                × (sessions.spent ≡ None))
                × (used_of sessions + many ≤ most_of sessions) }
            ensures right { IsRightPass M.Medium D.Disk result.1 }
            ensures serves { (cs : List ToldStreams) × (ends : List SessionEnd)
                × OnOk result.2 (length cs ≡ many)
                × Serves (told_door (A.waiting door) (A.taken door))
                (told_door (A.waiting result.0) (A.taken result.0)) main result.1 cs ends
                × IfErr result.2 (λ stop. IsCause stop (Found ends) (A.faults door)
                (A.faults result.0)) }
        { serve_in(scope, rt, gate, door, main, spare, sessions, many) },
    )
}
