use pr_words::Sense;

/// What a command was answered.
#[derive(Clone, Copy, Debug, PartialEq, Eq)]
pub struct Answer {
    /// The status byte (SAM-5).
    pub status: u8,
    /// The sense data of a CHECK CONDITION, where they can be read.
    pub sense: Option<Sense>,
    /// How many bytes of data-in came.
    pub len: usize,
}
