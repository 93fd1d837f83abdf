/// The bytes of a disk.
pub const DISK: usize = 262_144;

/// How the image of a disk begins on which nothing was saved yet: ASCII `PRKEEPER`, and version 1 of
/// the registrations' file. Zeros follow.
pub const FRESH_HEAD: [u8; 9] = [0x50, 0x52, 0x4B, 0x45, 0x45, 0x50, 0x45, 0x52, 0x01];
