//! What is done with sessions: one more begins, and those that have ended are taken in.

ghost use Rattle.std.specs.Prelude.{◌≡◌, ◌<◌, ◌≤◌, ◌+◌, ◌^◌, ℕ, List, [], ◌∷◌, ◌++◌, Some, None, IfOk, IfErr, IfSome, IfNone, length, vec_len, vec_capacity};
ghost use Rattle.pr_io.specs.Told.{ToldStreams, told_streams};
ghost use Rattle.pr_model.specs.Lanes.{fresh, turned};
ghost use Rattle.pr_gate.specs.Passes.{IsOf, IsFree, IsUnchanged, own_of, spare_of, seen_of};
ghost use Rattle.pr_session.specs.Sessions.{HasTurned};
ghost use Rattle.pr_session.specs.declared.session_end.SessionEnd.{SessionEnd};
ghost use Rattle.pr_session.specs.declared.session_end.SessionEnd.TheVariants.{SpentTicket};
ghost use Rattle.pr_serve.specs.Connections.{ServedBy, IsRightPass, AreOfOne, Goes, AreServed};
ghost use Rattle.pr_serve.specs.Crowds.{used_of, most_of, spent_after, IsAsBefore, Retires, Stands, Starts, TakesIn};
ghost use Rattle.pr_serve.specs.Standing.{IsPast, IsSettled};
ghost use Rattle.pr_serve.specs.Accepting.{Found};
ghost use Rattle.std.specs.List.{AllByRecursion};

use crate::connection::{Begun, Ended, serve_one, start};
use crate::sessions::{Flag, Running, Sessions, SessionsOver};
use pr_core::Core;
use pr_gate::{Gate, Pass, Retired};
use pr_io::{Disk, Medium, Sink, Source};
use pr_session::{Session, SessionEnd};
use std::alloc::{AllocError, Global};
use std::sync::atomic::{AtomicBool, Ordering};
use std::sync::{Arc, Wait};
use std::thread::{Promise, Scope, Threads};

/// No sessions yet, and room for so many.
pub(crate) fn no_sessions<S: Source + Drop, K: Sink + Drop, M: Medium, D: Disk>(
    alloc: Global,
    most: usize,
) -> Result<SessionsOver<S, K, M, D>, AllocError>
    ensures none { IfOk result (λ s. (s.running.items ≡ []) × (s.retired.items ≡ [])
        × (s.spent ≡ None)) }
    ensures room { IfOk result (λ s. (used_of s ≡ 0) × (most_of s ≡ most)) }
{
    Ok(Sessions {
        alloc,
        running: Vec::new(alloc),
        retired: Vec::with_capacity(alloc, most)?,
        spent: None,
    })
}

/// All memory that one more session in a thread takes. The flag is for the thread and for its owner.
fn memory<S: Source, K: Sink, M: Medium, D: Disk>(
    sessions: &mut SessionsOver<S, K, M, D>,
) -> Option<(Session, Flag, Flag)>
    ensures same { IsAsBefore sessions.old sessions.new }
    ensures room { IfSome result (λ _. vec_len sessions.new.running
        < vec_capacity sessions.new.running) }
    ensures new { IfSome result (λ made. HasTurned made.0 (turned fresh [])) }
{
    sessions.running.reserve(1).ok()?;
    let session = Session::new(sessions.alloc).ok()?;
    let has_ended = Arc::new(sessions.alloc, AtomicBool::new(false)).ok()?;
    let shared = Arc::try_clone(&has_ended).ok()?;
    Some((session, has_ended, shared))
}

/// A connection has ended. What its pass has seen, `main` has seen now too.
fn retire<S: Source, K: Sink, M: Medium, D: Disk>(
    sessions: &mut SessionsOver<S, K, M, D>,
    gate: &Gate<Core<M, D>>,
    main: &mut Pass<Core<M, D>>,
    ended: Ended<Core<M, D>>,
)
    requires gate { IsOf gate.now main.old }
    requires one { AreOfOne main.old ended.pass × IsFree ended.pass }
    requires right { IsRightPass M.Medium D.Disk main.old × IsRightPass M.Medium D.Disk ended.pass }
    requires room { used_of sessions.old < most_of sessions.old }
    requires cause { (ticket : ℕ) → ended.end ≡ SpentTicket ticket → 2 ^ 62 ≤ ticket }
    ensures goes { Goes 0 main.old main.new }
    ensures right { IsRightPass M.Medium D.Disk main.new }
    ensures retires { Retires main.new ended.pass sessions.old.running.items
        sessions.old.retired.items (used_of sessions.old) (most_of sessions.old) sessions.new }
    ensures spent { sessions.new.spent ≡ spent_after ended.end sessions.old.spent }
{
    let Ended { mut pass, end } = ended;
    if let SessionEnd::SpentTicket { ticket } = end {
        sessions.spent = Some(ticket);
    }
    let note = gate.note(&mut pass);
    gate.meet(main, note);
    sessions.retired.push_reserved(pass.retire());
}

/// Serves a connection in a thread of its own, or, for want of memory, here, over `spare`.
fn serve<'s, E, S, K, M, D, R>(
    sessions: &mut SessionsOver<S, K, M, D>,
    scope: &'s Scope<'s, E>,
    rt: &'s R,
    gate: &'s Gate<Core<M, D>>,
    spare: &mut Session,
    pass: Pass<Core<M, D>>,
    source: S,
    sink: K,
) -> Option<Ended<Core<M, D>>>
where
    S: Source + Send + Drop + 's,
    K: Sink + Send + Drop + 's,
    M: Medium + Send + Drop + 's,
    D: Disk + Send + Drop + 's,
    R: Wait + Sync + 's,
    requires gate { IsOf gate.now pass × IsFree pass }
    requires none { own_of pass ≡ [] }
    requires right { IsRightPass M.Medium D.Disk pass }
    requires room { used_of sessions.old < most_of sessions.old }
    ensures thread { IfNone result (Starts S.Source K.Sink (told_streams S.Source K.Sink source sink)
        pass sessions.old sessions.new) }
    ensures here { IfSome result (λ ended. ServedBy M.Medium D.Disk
        (told_streams S.Source K.Sink source sink) pass ended.pass ended.end
        × IsAsBefore sessions.old sessions.new) }
{
    let Some((session, has_ended, shared)) = memory(sessions) else {
        spare.fresh();
        return Some(serve_one(rt, gate, spare, pass, source, sink));
    };
    match start(scope, rt, gate, session, shared, pass, source, sink) {
        Ok(thread) => {
            sessions
                .running
                .push_reserved(Running { thread, has_ended });
            None
        }
        Err(ended) => Some(ended),
    }
}

/// A connection comes in. It is served under the number of a new pass, in a thread of its own, or,
/// for want of memory, here, over `spare`.
pub(crate) fn begin<'s, E, S, K, M, D, R>(
    sessions: &mut SessionsOver<S, K, M, D>,
    scope: &'s Scope<'s, E>,
    rt: &'s R,
    gate: &'s Gate<Core<M, D>>,
    main: &mut Pass<Core<M, D>>,
    spare: &mut Session,
    source: S,
    sink: K,
)
where
    S: Source + Send + Drop + 's,
    K: Sink + Send + Drop + 's,
    M: Medium + Send + Drop + 's,
    D: Disk + Send + Drop + 's,
    R: Wait + Sync + 's,
    requires gate { IsOf gate.now main.old }
    requires spare { 0 < spare_of main.old }
    requires right { IsRightPass M.Medium D.Disk main.old }
    requires room { used_of sessions.old < most_of sessions.old }
    ensures goes { Goes 1 main.old main.new }
    ensures right { IsRightPass M.Medium D.Disk main.new }
    ensures used { used_of sessions.new ≡ used_of sessions.old + 1 }
    ensures most { most_of sessions.new ≡ most_of sessions.old }
    ensures stands { (first : ℕ) (cs : List ToldStreams)
        → first + length cs + spare_of main.old ≡ 2 ^ 62 + 1
        → Stands S.Source K.Sink first cs main.old sessions.old
        → Stands S.Source K.Sink first (cs ++ told_streams S.Source K.Sink source sink ∷ [])
        main.new sessions.new }
{
    let pass = gate.new_pass(main);
    if let Some(ended) = serve(sessions, scope, rt, gate, spare, pass, source, sink) {
        retire(sessions, gate, main, ended);
    }
}

/// Waits for the end of a session under way.
fn join<S: Source + Drop, K: Sink + Drop, M: Medium + Drop, D: Disk + Drop, R: Threads>(
    sessions: &mut SessionsOver<S, K, M, D>,
    rt: &R,
    gate: &Gate<Core<M, D>>,
    main: &mut Pass<Core<M, D>>,
    at: usize,
)
    requires gate { IsOf gate.now main.old }
    requires right { IsRightPass M.Medium D.Disk main.old }
    requires at { at < vec_len sessions.old.running }
    requires stands { (first : ℕ) × (cs : List ToldStreams)
        × Stands S.Source K.Sink first cs main.old sessions.old }
    ensures takes { TakesIn S.Source K.Sink main.old main.new sessions.old sessions.new }
    ensures right { IsRightPass M.Medium D.Disk main.new }
    ensures fewer { vec_len sessions.new.running + 1 ≡ vec_len sessions.old.running }
{
    let Running { thread, has_ended } = sessions.running.remove(at);
    drop(has_ended);
    retire(sessions, gate, main, thread.join(rt));
}

/// Takes in the sessions that have ended.
pub(crate) fn take_in_ended<S, K, M, D, R>(
    sessions: &mut SessionsOver<S, K, M, D>,
    rt: &R,
    gate: &Gate<Core<M, D>>,
    main: &mut Pass<Core<M, D>>,
)
where
    S: Source + Drop,
    K: Sink + Drop,
    M: Medium + Drop,
    D: Disk + Drop,
    R: Threads,
    requires gate { IsOf gate.now main.old }
    requires right { IsRightPass M.Medium D.Disk main.old }
    requires stands { (first : ℕ) × (cs : List ToldStreams)
        × Stands S.Source K.Sink first cs main.old sessions.old }
    ensures takes { TakesIn S.Source K.Sink main.old main.new sessions.old sessions.new }
    ensures right { IsRightPass M.Medium D.Disk main.new }
{
    let mut at = 0;
    while at < sessions.running.len() {
        if sessions.running[at].has_ended.load(Ordering::Acquire) {
            join(sessions, rt, gate, main, at);
        } else {
            at += 1;
        }
    }
}

/// Waits for the end of all sessions, and takes them in.
pub(crate) fn take_in_all<S, K, M, D, R>(
    sessions: &mut SessionsOver<S, K, M, D>,
    rt: &R,
    gate: &Gate<Core<M, D>>,
    main: &mut Pass<Core<M, D>>,
)
where
    S: Source + Drop,
    K: Sink + Drop,
    M: Medium + Drop,
    D: Disk + Drop,
    R: Threads,
    requires gate { IsOf gate.now main.old }
    requires right { IsRightPass M.Medium D.Disk main.old }
    requires stands { (first : ℕ) × (cs : List ToldStreams)
        × Stands S.Source K.Sink first cs main.old sessions.old }
    ensures takes { TakesIn S.Source K.Sink main.old main.new sessions.old sessions.new }
    ensures right { IsRightPass M.Medium D.Disk main.new }
    ensures none { sessions.new.running.items ≡ [] }
{
    while let Some(last) = sessions.running.len().checked_sub(1) {
        join(sessions, rt, gate, main, last);
    }
}

/// What each retired pass made is known from here on.
fn settle_all<M: Medium, D: Disk>(
    mut retired: Vec<Retired<Core<M, D>>>,
    gate: &Gate<Core<M, D>>,
    main: &mut Pass<Core<M, D>>,
)
    requires gate { IsOf gate.now main.old }
    requires past { AllByRecursion (IsPast main.old) retired.items }
    ensures same { IsUnchanged main.old main.new }
    ensures settled { AllByRecursion (IsSettled (seen_of main.new)) retired.items }
{
    while let Some(one) = retired.pop() {
        gate.settle(one, main);
    }
}

/// All sessions were taken in: what each made is known from here on.
pub(crate) fn settle<S: Source + Drop, K: Sink + Drop, M: Medium + Drop, D: Disk + Drop>(
    sessions: SessionsOver<S, K, M, D>,
    gate: &Gate<Core<M, D>>,
    main: &mut Pass<Core<M, D>>,
)
    requires gate { IsOf gate.now main.old }
    requires stands { (first : ℕ) × (cs : List ToldStreams)
        × Stands S.Source K.Sink first cs main.old sessions }
    requires none { sessions.running.items ≡ [] }
    ensures same { IsUnchanged main.old main.new }
    ensures served { (first : ℕ) (cs : List ToldStreams)
        → Stands S.Source K.Sink first cs main.old sessions
        → (ends : List SessionEnd) × AreServed first cs ends (seen_of main.new)
        × IfSome sessions.spent (Found ends) }
{
    let Sessions {
        alloc: _,
        running,
        retired,
        spent: _,
    } = sessions;
    drop(running);
    settle_all(retired, gate, main);
}
