ghost use Rattle.std.specs.Prelude.{◌≡◌, ◌⊎◌};
ghost use Rattle.pr_fence.specs.Ousting.{OustsAll};
ghost use Rattle.pr_fence.specs.Views.{texts_of};
ghost use Rattle.pr_fence.specs.Whole.{Ends, told_wire};
ghost use Rattle.pr_fence.specs.Words.{Wanted, FenceItself, FenceOff, MakeNoCommand, wanted_by};
ghost use Rattle.pr_io.specs.Causes.{Rose};
ghost use Rattle.pr_io.specs.Told.{told_sink};
ghost use Rattle.pr_rig.specs.Rig.{AllHaveMade, AreFencedAt, AreOpen, IsReady, NoDiskFails};
ghost use Rattle.pr_words.specs.declared.nexus.Key.{Key};

use pr_fence::{FenceExit, fence_main};
use pr_io::{Disk, Medium, MemWire, Sink, Wire};
use pr_session::LanePeer;
use std::alloc::Global;

/// Runs `fence` over targets in memory: whatever the agent is told, they have told, and whatever it
/// asks for, they have heard.
pub fn fence_rig<M: Medium + Drop, D: Disk + Drop, K: Sink>(
    alloc: Global,
    words: &[&str],
    wire: &mut MemWire<LanePeer<M, D>>,
    sink: &mut K,
) -> FenceExit
    ensures ends { Ends (wanted_by (texts_of words.now))
        (told_wire ⟦<MemWire<LanePeer<M, D>> as Wire>⟧ wire.old)
        (told_wire ⟦<MemWire<LanePeer<M, D>> as Wire>⟧ wire.new)
        (told_sink K.Sink sink.old) (told_sink K.Sink sink.new) result }
    ensures words { result ≡ FenceExit.BadWords → MakeNoCommand (texts_of words.now) }
    ensures itself { result ≡ FenceExit.SelfFence → FenceItself (texts_of words.now) }
    ensures ousts { (w : Wanted) (victim : Key) → FenceOff (texts_of words.now) w victim →
        result ≡ FenceExit.Done →
        OustsAll w victim (told_wire ⟦<MemWire<LanePeer<M, D>> as Wire>⟧ wire.old)
        (told_wire ⟦<MemWire<LanePeer<M, D>> as Wire>⟧ wire.new) }
    ensures comes { ⟦<MemWire<LanePeer<M, D>> as Wire>⟧.comes wire.old wire.new }
    ensures made { AllHaveMade wire.old → AllHaveMade wire.new }
    ensures fenced { (w : Wanted) (victim : Key) → FenceOff (texts_of words.now) w victim →
        result ≡ FenceExit.Done → AllHaveMade wire.old → AreFencedAt wire.new victim w.addresses }
    ensures completes { (w : Wanted) (victim : Key) → FenceOff (texts_of words.now) w victim →
        AllHaveMade wire.old → IsReady wire.old → AreOpen wire.old w.nexus victim →
        NoDiskFails wire.old.devices.items wire.new.devices.items →
        (Rose (⟦<MemWire<LanePeer<M, D>> as Wire>⟧.faults wire.old)
        (⟦<MemWire<LanePeer<M, D>> as Wire>⟧.faults wire.new) → ⊥) →
        (Rose (K.faults sink.old) (K.faults sink.new) → ⊥) →
        (result ≡ FenceExit.Done) ⊎ (result ≡ FenceExit.NoMemory) }
{
    fence_main(alloc, words, wire, sink)
}
