//! One connection, served with a pass of its own.

ghost use Rattle.std.specs.Prelude.{◌≡◌, [], IfOk, IfErr};
ghost use Rattle.pr_io.specs.Told.{told_streams};
ghost use Rattle.pr_model.specs.Lanes.{fresh, turned};
ghost use Rattle.pr_gate.specs.Passes.{IsOf, IsFree, own_of};
ghost use Rattle.pr_session.specs.Sessions.{HasTurned};
ghost use Rattle.pr_serve.specs.Connections.{ServedBy, IsRightPass};

use crate::sessions::Flag;
use pr_core::Core;
use pr_gate::{Gate, Pass, Stands};
use pr_io::{Disk, Medium, NoBreath, Sink, Source};
use pr_session::{Session, SessionEnd, serve_held};
use std::snapshot::Snapshot;
use std::sync::Wait;
use std::sync::atomic::Ordering;
use std::thread::{Promise, PromisedHandle, Scope};

/// How serving a connection ended, with the pass by which it was served.
#[derive(Drop)]
pub(crate) struct Ended<T: Stands> {
    pub(crate) pass: Pass<T>,
    pub(crate) end: SessionEnd,
}

/// What serving a connection begins with. It stands for how that may end.
#[derive(Drop)]
pub(crate) struct Begun<S, K, T: Stands> {
    pub(crate) source: Snapshot<S>,
    pub(crate) sink: Snapshot<K>,
    pub(crate) pass: Snapshot<Pass<T>>,
}

impl<S: Source, K: Sink, M: Medium, D: Disk> Promise<Ended<Core<M, D>>>
    for Begun<S, K, Core<M, D>> {
    ghost kept_by = { λ begun ended. ServedBy M.Medium D.Disk
        (told_streams S.Source K.Sink begun.source.value begun.sink.value)
        begun.pass.value ended.pass ended.end };
}

/// Serves a connection until it ends, over a session that is as `Session::new` or `fresh` leaves it.
pub(crate) fn serve_one<S: Source + Drop, K: Sink + Drop, M: Medium, D: Disk, R: Wait>(
    rt: &R,
    gate: &Gate<Core<M, D>>,
    session: &mut Session,
    mut pass: Pass<Core<M, D>>,
    mut source: S,
    mut sink: K,
) -> Ended<Core<M, D>>
    requires new { HasTurned session.old (turned fresh []) }
    requires gate { IsOf gate.now pass × IsFree pass }
    requires none { own_of pass ≡ [] }
    requires right { IsRightPass M.Medium D.Disk pass }
    ensures served { ServedBy M.Medium D.Disk (told_streams S.Source K.Sink source sink) pass result.pass
        result.end }
{
    let end = serve_held(
        rt,
        session,
        gate,
        &mut pass,
        &mut source,
        &mut sink,
        &mut NoBreath,
    );
    Ended { pass, end }
}

/// Serves a connection in a thread of its own, or, where none can be started, here.
pub(crate) fn start<'s, E, S, K, M, D, R>(
    scope: &'s Scope<'s, E>,
    rt: &'s R,
    gate: &'s Gate<Core<M, D>>,
    session: Session,
    has_ended: Flag,
    pass: Pass<Core<M, D>>,
    source: S,
    sink: K,
) -> Result<PromisedHandle<Ended<Core<M, D>>, Begun<S, K, Core<M, D>>>, Ended<Core<M, D>>>
where
    S: Source + Send + Drop + 's,
    K: Sink + Send + Drop + 's,
    M: Medium + Send + Drop + 's,
    D: Disk + Send + Drop + 's,
    R: Wait + Sync + 's,
    requires new { HasTurned session (turned fresh []) }
    requires gate { IsOf gate.now pass × IsFree pass }
    requires none { own_of pass ≡ [] }
    requires right { IsRightPass M.Medium D.Disk pass }
    ensures thread { IfOk result (λ thread. (thread.promise.pass.value ≡ pass)
        × (thread.promise.source.value ≡ source) × (thread.promise.sink.value ≡ sink)) }
    ensures here { IfErr result (λ ended. ServedBy M.Medium D.Disk
        (told_streams S.Source K.Sink source sink) pass ended.pass ended.end) }
{
    let begun = Begun {
        source: Snapshot::of(&source),
        sink: Snapshot::of(&sink),
        pass: Snapshot::of(&pass),
    };
    let serve = move || -> Ended<Core<M, D>>
        requires { HasTurned session (turned fresh []) × IsOf gate.now pass × IsFree pass
            × (own_of pass ≡ []) × IsRightPass M.Medium D.Disk pass }
        ensures { ServedBy M.Medium D.Disk (told_streams S.Source K.Sink source sink) pass result.pass
            result.end }
    {
        let mut session = session;
        let ended = serve_one(rt, gate, &mut session, pass, source, sink);
        has_ended.store(true, Ordering::Release);
        ended
    };
    match scope.spawn_with(begun, serve) {
        Ok(thread) => Ok(thread),
        Err(refused) => Err((refused.value)()),
    }
}
