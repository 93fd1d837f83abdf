//! What a target that threads share was opened with.

use pr_table::Kept;

/// What no turn of a target changes: what its disk had kept when it was opened, and the medium's
/// number of blocks.
#[derive(Drop)]
pub struct Ground {
    pub kept: Kept,
    pub blocks: u64,
}
