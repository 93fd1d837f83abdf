ghost use Rattle.std.specs.Prelude.{◌≡◌, ◌≤◌, ◌+◌, length};
ghost use Rattle.pr_io.specs.Blocks.{disk_size};
ghost use Rattle.pr_io.specs.Causes.{HasCause};
ghost use Rattle.pr_io.specs.Spans.{Puts, Settles};

use crate::{Disk, Failed};

/// Writes bytes from a place on, and waits until no power loss takes them away.
///
/// # Errors
///
/// Where the disk has failed. A power loss may then leave anything in the range.
pub fn put<D: Disk>(disk: &mut D, at: u64, bytes: &[u8]) -> Result<(), Failed>
    requires { at + length bytes.now ≤ disk_size }
    ensures puts { Puts result at bytes.now (D.story disk.old) (D.story disk.new) }
    ensures reference { D.reference disk.new ≡ D.reference disk.old }
    ensures cause { HasCause (D.faults disk.old) (D.faults disk.new) result }
{
    disk.write_at(at, bytes)?;
    disk.sync()
}

/// Waits until no power loss takes away what was written before.
///
/// # Errors
///
/// Where the disk has failed. It holds the same nevertheless.
pub fn settle<D: Disk>(disk: &mut D) -> Result<(), Failed>
    ensures settles { Settles result (D.story disk.old) (D.story disk.new) }
    ensures reference { D.reference disk.new ≡ D.reference disk.old }
    ensures cause { HasCause (D.faults disk.old) (D.faults disk.new) result }
{
    disk.sync()
}
