/// A call of a disk in memory, as its record has it.
#[derive(Drop)]
pub(crate) enum DiskCall {
    /// A read, or a sync that failed.
    Other,
    /// A write, which may have failed: its place, and what stood there before.
    Write { at: u64, was: Vec<u8> },
    /// A sync that succeeded.
    Sync,
}
