//! Serving a whole connection over a session of its own.

ghost use Rattle.std.specs.Prelude.{◌≡◌, Some};
ghost use mathlib.Core.List.{IsPrefix};
ghost use Rattle.pr_model.specs.Entries.{History};
ghost use Rattle.pr_core.specs.declared.ground.Ground.{Ground};
ghost use Rattle.pr_core.specs.Shared.{IsRightOn};
ghost use Rattle.pr_gate.specs.Passes.{IsOf, IsFree, IsSamePass, number_of, seen_of, own_of, ground_of};
ghost use Rattle.pr_session.specs.declared.session_end.SessionEnd.TheVariants.{NoMemory};
ghost use Rattle.pr_session.specs.Ends.{Answered, IsCaused, Completes, Refuses};

use crate::held::serve_held;
use crate::session::Session;
use crate::session_end::SessionEnd;
use pr_core::Core;
use pr_gate::{Gate, Pass};
use pr_io::{Breath, Disk, Medium, Sink, Source, put_all};
use std::alloc::Global;
use std::sync::Wait;

// The reply to a Login, with LUN 0 and tag 0, that there is no memory for a session.
const REFUSAL: [u8; 16] = [0, 0, 0, 12, 0x81, 0, 0, 0, 0, 0, 0, 0, 5, 0, 0, 0];

/// Serves a connection as `serve_held` does, over a session that it makes: 1,048,640 bytes, all taken
/// first. Where they are refused it reads nothing and makes no entry, and sends a Login reply with
/// code 5, LUN 0 and tag 0; a sink that fails may have a front of that.
pub fn serve_connection<S: Source, K: Sink, M: Medium, D: Disk, B: Breath, R: Wait>(
    alloc: Global,
    rt: &R,
    gate: &Gate<Core<M, D>>,
    pass: &mut Pass<Core<M, D>>,
    source: &mut S,
    sink: &mut K,
    breath: &mut B,
) -> SessionEnd
    requires { IsOf gate.now pass.old × IsFree pass.old }
    ensures same { IsSamePass pass.old pass.new × IsFree pass.new }
    ensures seen { IsPrefix (seen_of pass.old) (seen_of pass.new) }
    ensures right { (g : Ground) → ground_of pass.old ≡ Some g
        → IsRightOn M.Medium D.Disk g (seen_of pass.old)
        → IsRightOn M.Medium D.Disk g (seen_of pass.new) }
    ensures answered { Answered result (number_of pass.old) (S.rest source.old)
        (S.rest source.new) (K.written sink.old) (K.written sink.new) (own_of pass.old)
        (own_of pass.new) }
    ensures untouched { result ≡ NoMemory → source.new ≡ source.old }
    ensures cause { IsCaused result (S.faults source.old) (S.faults source.new)
        (K.faults sink.old) (K.faults sink.new) }
    ensures completes { Completes result (number_of pass.old) (S.rest source.old)
        (S.faults source.old) (S.faults source.new) (K.faults sink.old) (K.faults sink.new) }
{
    match Session::new(alloc) {
        Ok(mut session) => serve_held(rt, &mut session, gate, pass, source, sink, breath),
        Err(_) => {
            refuse(sink);
            SessionEnd::NoMemory
        }
    }
}

/// Says, as far as the sink takes it, that there is no memory.
fn refuse<K: Sink>(sink: &mut K)
    ensures { (own : History) → Refuses (K.written sink.old) (K.written sink.new) own own }
{
    let _ = put_all(sink, &REFUSAL);
}
