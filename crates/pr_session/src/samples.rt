//! What the tests share: frames of a short conversation, and a fresh target.

ghost use Rattle.std.specs.Prelude.{◌≡◌, ◌^◌, IfOk, length};
ghost use Rattle.pr_io.specs.Blocks.{disk_size};
ghost use Rattle.pr_gate.specs.Passes.{IsOf, IsFree, spare_of};

use crate::open_gate;
use pr_core::Core;
use pr_gate::{Gate, Pass};
use pr_io::{DISK, FRESH_HEAD, SureDisk, SureMedium};
use std::alloc::Global;
use std::test::*;

/// A Login of name 11h at port 1, with tag 1.
pub(crate) const LOGIN: &[u8] = b"\0\0\0\x14\x01\0\0\0\0\0\0\x01\x01\0\0\x01\0\0\0\0\0\0\0\x11";

/// Its reply where it is accepted.
pub(crate) const ACCEPTED: &[u8] = b"\0\0\0\x0C\x81\0\0\0\0\0\0\x01\0\0\0\0";

/// A TEST UNIT READY with tag 2.
pub(crate) const READY: &[u8] =
    b"\0\0\0\x1C\x02\0\0\0\0\0\0\x02\x06\0\0\0\0\0\0\0\0\0\0\0\0\0\0\0\0\0\0\0";

/// Its reply after a power-up: CHECK CONDITION with 6/29/00.
pub(crate) const POWERED: &[u8] = b"\0\0\0\x1E\x82\0\0\0\0\0\0\x02\x02\x12\0\0\
    \x70\0\x06\0\0\0\0\x0A\0\0\0\0\x29\0\0\0\0\0";

/// And its reply then: GOOD.
pub(crate) const GOOD: &[u8] = b"\0\0\0\x0C\x82\0\0\0\0\0\0\x02\0\0\0\0";

/// A Logout with tag 9.
pub(crate) const LOGOUT: &[u8] = b"\0\0\0\x08\x03\0\0\0\0\0\0\x09";

/// Its reply.
pub(crate) const LEFT: &[u8] = b"\0\0\0\x08\x83\0\0\0\0\0\0\x09";

/// A target in memory.
pub(crate) type Target = Core<SureMedium, SureDisk>;

/// A disk on which nothing was saved yet.
pub(crate) fn fresh_image(alloc: Global) -> Result<Vec<u8>, Fail>
    ensures { IfOk result (λ v. length v.items ≡ disk_size) }
{
    let mut image = FRESH_HEAD.to_vec(alloc)?;
    image.resize(DISK, 0)?;
    Ok(image)
}

/// A fresh target of eight blocks in a gate, and the gate's first pass.
pub(crate) fn fresh_gate(alloc: Global) -> Result<(Gate<Target>, Pass<Target>), Fail>
    ensures { IfOk result (λ made. IsOf made.0 made.1 × IsFree made.1
        × (spare_of made.1 ≡ 2 ^ 62)) }
{
    let medium = SureMedium::new(vec![in alloc; 0u8; 4096]?);
    let disk = SureDisk::new(fresh_image(alloc)?);
    Ok(open_gate(alloc, medium, disk)?)
}

/// All pieces, one behind another.
pub(crate) fn joined(alloc: Global, pieces: &[&[u8]]) -> Result<Vec<u8>, Fail> {
    let mut bytes = Vec::new(alloc);
    for piece in pieces {
        bytes.extend_from_slice(piece)?;
    }
    Ok(bytes)
}
