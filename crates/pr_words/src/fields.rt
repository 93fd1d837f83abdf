ghost use Rattle.std.specs.Prelude.{◌≡◌, ◌+◌, ◌≤◌, length, slice_range};
ghost use Rattle.std.specs.Int.{w16, w32, w64, to_be_bytes};
ghost use Rattle.pr_words.specs.Fields.{number16_at, number32_at, number64_at, with_number16, with_number32, with_number64};

use byteorder::{BigEndian, ByteOrder};

/// The big-endian number in the two bytes from `at` on.
pub fn get_u16(bytes: &[u8], at: usize) -> u16
    requires { at + 2 ≤ length bytes.now }
    ensures number { result ≡ number16_at bytes.now at }
    ensures bytes { to_be_bytes w16 result ≡ slice_range bytes.now at (at + 2) }
{
    BigEndian::read_u16(&bytes[at..at + 2])
}

/// The big-endian number in the four bytes from `at` on.
pub fn get_u32(bytes: &[u8], at: usize) -> u32
    requires { at + 4 ≤ length bytes.now }
    ensures number { result ≡ number32_at bytes.now at }
    ensures bytes { to_be_bytes w32 result ≡ slice_range bytes.now at (at + 4) }
{
    BigEndian::read_u32(&bytes[at..at + 4])
}

/// The big-endian number in the eight bytes from `at` on.
pub fn get_u64(bytes: &[u8], at: usize) -> u64
    requires { at + 8 ≤ length bytes.now }
    ensures number { result ≡ number64_at bytes.now at }
    ensures bytes { to_be_bytes w64 result ≡ slice_range bytes.now at (at + 8) }
{
    BigEndian::read_u64(&bytes[at..at + 8])
}

/// Writes a number big-endian into the two bytes from `at` on.
pub fn put_u16(bytes: &mut [u8], at: usize, value: u16)
    requires { at + 2 ≤ length bytes.old }
    ensures { bytes.new ≡ with_number16 bytes.old at value }
{
    BigEndian::write_u16(&mut bytes[at..at + 2], value);
}

/// Writes a number big-endian into the four bytes from `at` on.
pub fn put_u32(bytes: &mut [u8], at: usize, value: u32)
    requires { at + 4 ≤ length bytes.old }
    ensures { bytes.new ≡ with_number32 bytes.old at value }
{
    BigEndian::write_u32(&mut bytes[at..at + 4], value);
}

/// Writes a number big-endian into the eight bytes from `at` on.
pub fn put_u64(bytes: &mut [u8], at: usize, value: u64)
    requires { at + 8 ≤ length bytes.old }
    ensures { bytes.new ≡ with_number64 bytes.old at value }
{
    BigEndian::write_u64(&mut bytes[at..at + 8], value);
}
