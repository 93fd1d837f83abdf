//! A target that threads share, from its opening on.

ghost use Rattle.std.specs.Prelude.{◌≡◌, ◌^◌, ℕ, [], Some, IfOk, IfErr};
ghost use Rattle.pr_grammar.specs.Files.{Keeps, file_head, file_layout, file_restores};
ghost use Rattle.pr_io.specs.Images.{Image};
ghost use Rattle.pr_aptpl.specs.Opens.{FailsAt, IsFaultOf};
ghost use Rattle.pr_core.specs.declared.ground.Ground.{Ground};
ghost use Rattle.pr_core.specs.Shared.{IsRightOn};
ghost use Rattle.pr_gate.specs.Passes.{IsOf, IsFree, number_of, seen_of, own_of, ground_of, spare_of};

use pr_core::{Core, OpenFault};
use pr_gate::{Gate, Pass};
use pr_io::{Disk, Medium};
use std::alloc::Global;

/// Opens a target as `Core::open` does, and stands it in a gate, for threads to share. The gate's
/// first pass, which can make others, comes with it.
///
/// # Errors
///
/// Those of `Core::open`; want of memory for the gate too is `OutOfMemory`. Medium and disk are
/// dropped then.
pub fn open_gate<M: Medium + Drop, D: Disk + Drop>(
    alloc: Global,
    medium: M,
    disk: D,
) -> Result<(Gate<Core<M, D>>, Pass<Core<M, D>>), OpenFault>
    ensures pass { IfOk result (λ made. IsOf made.0 made.1 × IsFree made.1) }
    ensures lists { IfOk result (λ made. (seen_of made.1 ≡ []) × (own_of made.1 ≡ [])) }
    ensures number { IfOk result (λ made. (number_of made.1 ≡ 0) × (spare_of made.1 ≡ 2 ^ 62)) }
    ensures ground { IfOk result (λ made. (g : Ground) × (ground_of made.1 ≡ Some g)
        × (g.blocks ≡ M.count medium)
        × ((image : Image) → (D.story disk).now ≡ Some image
        → file_restores image ≡ Keeps g.kept)) }
    ensures right { IfOk result (λ made. (g : Ground) → ground_of made.1 ≡ Some g
        → IsRightOn M.Medium D.Disk g (seen_of made.1)) }
    ensures fails { IfErr result (λ fault. FailsAt file_head file_layout fault (D.story disk)) }
    ensures cause { IfErr result (λ fault. (faults : ℕ)
        × IsFaultOf fault (D.faults disk) faults) }
{
    match Core::open(alloc, medium, disk) {
        Ok(core) => match Gate::new(alloc, core) {
            Ok(made) => Ok(made),
            Err(_) => Err(OpenFault::OutOfMemory),
        },
        Err((fault, _, _)) => Err(fault),
    }
}
