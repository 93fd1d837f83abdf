/// Why a file wasn't opened.
#[derive(Clone, Copy, Debug, PartialEq, Eq)]
pub enum OpenFault {
    /// What was read isn't a registrations' file; the first field that is wrong begins at `place`.
    BadFile { place: u64 },
    /// The disk has failed.
    DiskFault,
    /// Memory was refused.
    OutOfMemory,
}
