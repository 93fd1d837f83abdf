//! What the tests share: two connections of a short conversation, and the target's disk.

ghost use Rattle.std.specs.Prelude.{◌≡◌, IfOk, length};
ghost use Rattle.pr_io.specs.Blocks.{disk_size};

use pr_io::{DISK, FRESH_HEAD, SureDisk, SureMedium};
use std::alloc::Global;
use std::test::*;

/// Logins of the names 11h and 12h at port 1, with tag 1.
pub(crate) const FIRST: &[u8] = b"\0\0\0\x14\x01\0\0\0\0\0\0\x01\x01\0\0\x01\0\0\0\0\0\0\0\x11";

pub(crate) const SECOND: &[u8] = b"\0\0\0\x14\x01\0\0\0\0\0\0\x01\x01\0\0\x01\0\0\0\0\0\0\0\x12";

/// What follows a Login: a TEST UNIT READY with tag 2, and a Logout with tag 9.
const READY: &[u8] = b"\0\0\0\x1C\x02\0\0\0\0\0\0\x02\x06\0\0\0\0\0\0\0\0\0\0\0\0\0\0\0\0\0\0\0";

const LOGOUT: &[u8] = b"\0\0\0\x08\x03\0\0\0\0\0\0\x09";

/// The replies to all three: the Login is accepted, CHECK CONDITION with 6/29/00 after the power-up,
/// and that of the Logout.
pub(crate) const REPLIES: &[u8] = b"\0\0\0\x0C\x81\0\0\0\0\0\0\x01\0\0\0\0\
    \0\0\0\x1E\x82\0\0\0\0\0\0\x02\x02\x12\0\0\
    \x70\0\x06\0\0\0\0\x0A\0\0\0\0\x29\0\0\0\0\0\
    \0\0\0\x08\x83\0\0\0\0\0\0\x09";

/// What a connection sends that begins with this Login.
pub(crate) fn talk(alloc: Global, login: &[u8]) -> Result<Vec<u8>, Fail> {
    let mut bytes = login.to_vec(alloc)?;
    bytes.extend_from_slice(READY)?;
    bytes.extend_from_slice(LOGOUT)?;
    Ok(bytes)
}

/// A disk on which nothing was saved yet.
pub(crate) fn fresh_disk(alloc: Global) -> Result<SureDisk, Fail> {
    let mut image = FRESH_HEAD.to_vec(alloc)?;
    image.resize(DISK, 0)?;
    Ok(SureDisk::new(image))
}

/// A disk that holds no registrations' file.
pub(crate) fn foreign_disk(alloc: Global) -> Result<SureDisk, Fail> {
    Ok(SureDisk::new(vec![in alloc; 0x5Au8; 262_144]?))
}

/// A medium of eight blocks.
pub(crate) fn medium(alloc: Global) -> Result<SureMedium, Fail> {
    Ok(SureMedium::new(vec![in alloc; 0u8; 4096]?))
}
