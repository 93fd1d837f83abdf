/// The head of a frame, whose body stands in the first `body` bytes of the caller's buffer.
#[derive(Clone, Copy, Debug, PartialEq, Eq)]
pub struct Frame {
    pub kind: u8,
    pub lun: u16,
    /// Chosen by the initiator; a reply repeats it.
    pub tag: u32,
    /// How many bytes the body has, up to 524,308.
    pub body: usize,
}

/// What stands at the front of a stream.
#[derive(Clone, Copy, Debug, PartialEq, Eq)]
pub enum Got {
    /// A whole frame, which is held no longer.
    Frame(Frame),
    /// So many bytes lack until more can be said.
    Need(usize),
    /// The frame behind the first `place` bytes of the stream, modulo 2^64, breaks a rule: 1 its length is from 8 to
    /// 524,316, 2 its kind is one that this side receives, 3 its flags are zero, 4 its body has its kind's form.
    Bad { place: u64, reason: u8 },
}
