ghost use Rattle.std.specs.Prelude.{◌≡◌, ◌≤◌, ◌++◌, ◌*◌, length, drop, IfOk};
ghost use Rattle.pr_io.specs.Blocks.{disk_size};
ghost use Rattle.pr_grammar.specs.Files.{file_head};
ghost use Rattle.prtool.specs.Images.{AreZero, BeginsWith};

use pr_io::{DISK, FRESH_HEAD};
use std::alloc::{AllocError, Global};

/// The bytes of a logical block.
const BLOCK: usize = 512;

/// The logical blocks of the program's unit.
const BLOCKS: usize = 2048;

/// The unit's blocks, all zero.
pub(crate) fn zero_blocks(alloc: Global) -> Result<Vec<u8>, AllocError>
    ensures size { IfOk result (λ v. length v.items ≡ 2048 * 512) }
    ensures zero { IfOk result (λ v. AreZero v.items) }
{
    zeros(alloc, BLOCKS * BLOCK)
}

/// A registrations' file in which nothing was kept yet: its head, and zeros.
pub(crate) fn fresh_image(alloc: Global) -> Result<Vec<u8>, AllocError>
    ensures size { IfOk result (λ v. length v.items ≡ disk_size) }
    ensures image { IfOk result (λ v. BeginsWith file_head v.items) }
{
    beginning_with(alloc, &FRESH_HEAD, DISK)
}

/// So many zeros.
fn zeros(alloc: Global, size: usize) -> Result<Vec<u8>, AllocError>
    ensures size { IfOk result (λ v. length v.items ≡ size) }
    ensures zero { IfOk result (λ v. AreZero v.items) }
{
    Ok(vec![in alloc; 0u8; size]?)
}

/// So many bytes: a head, and zeros.
fn beginning_with(alloc: Global, head: &[u8], size: usize) -> Result<Vec<u8>, AllocError>
    requires { length head.now ≤ size }
    ensures size { IfOk result (λ v. length v.items ≡ size) }
    ensures image { IfOk result (λ v. BeginsWith head.now v.items) }
{
    let mut image = zeros(alloc, size)?;
    copy_to_front(&mut image, head);
    Ok(image)
}

/// Writes the bytes over the first ones of the slice.
fn copy_to_front(image: &mut [u8], head: &[u8])
    requires { length head.now ≤ length image.old }
    ensures { image.new ≡ head.now ++ drop (length head.now) image.old }
{
    image[..head.len()].copy_from_slice(head);
}
