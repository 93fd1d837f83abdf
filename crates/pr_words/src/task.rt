/// Which way a task moves blocks (SBC-3, READ and WRITE).
#[derive(Clone, Copy, Debug, PartialEq, Eq)]
pub enum Way {
    /// From the medium to the initiator.
    Read,
    /// From the initiator to the medium.
    Write,
}
