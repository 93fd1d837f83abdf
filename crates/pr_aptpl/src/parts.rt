ghost use Rattle.std.specs.Prelude.{◌≡◌, ◌<◌, ◌+◌, ◌≤◌, [], ◌∷◌, length};
ghost use Rattle.pr_io.specs.Blocks.{disk_size};
ghost use Rattle.pr_io.specs.Causes.{HasCause};
ghost use Rattle.pr_io.specs.Spans.{Puts};
ghost use Rattle.pr_aptpl.specs.Gates.{Closes};

use pr_io::{Disk, Failed, put, settle};

/// A gate that is open. Every other byte is a closed one.
pub(crate) const OPEN: u8 = 0xA5;

/// The first part of a save: where the gate may be open it is closed. A gate that stands closed on
/// the disk isn't written, since a power loss in a write could leave it open.
pub(crate) fn close<D: Disk>(disk: &mut D, gate: u64, may_be_open: &mut bool) -> Result<(), Failed>
    requires { gate < disk_size }
    ensures closes { Closes result gate may_be_open.old may_be_open.new (D.story disk.old)
        (D.story disk.new) }
    ensures reference { D.reference disk.new ≡ D.reference disk.old }
    ensures cause { HasCause (D.faults disk.old) (D.faults disk.new) result }
{
    if *may_be_open {
        put(disk, gate, &[0])?;
        *may_be_open = false;
        Ok(())
    } else {
        settle(disk)
    }
}

/// The second part: the bytes behind a gate that is closed.
pub(crate) fn fill<D: Disk>(disk: &mut D, gate: u64, body: &[u8]) -> Result<(), Failed>
    requires { gate + 1 + length body.now ≤ disk_size }
    ensures puts { Puts result (gate + 1) body.now (D.story disk.old) (D.story disk.new) }
    ensures reference { D.reference disk.new ≡ D.reference disk.old }
    ensures cause { HasCause (D.faults disk.old) (D.faults disk.new) result }
{
    put(disk, gate + 1, body)
}

/// The third part: the gate is opened.
pub(crate) fn open_gate<D: Disk>(disk: &mut D, gate: u64) -> Result<(), Failed>
    requires { gate < disk_size }
    ensures puts { Puts result gate (0xA5 ∷ []) (D.story disk.old) (D.story disk.new) }
    ensures reference { D.reference disk.new ≡ D.reference disk.old }
    ensures cause { HasCause (D.faults disk.old) (D.faults disk.new) result }
{
    put(disk, gate, &[OPEN])
}
