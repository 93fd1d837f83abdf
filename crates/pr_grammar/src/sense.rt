/// Why bytes aren't sense data that can be read.
#[derive(Clone, Copy, Debug, PartialEq, Eq)]
pub enum SenseFault {
    /// The bytes end before what their format needs; `place` is how many there are.
    Cut { place: usize },
    /// The response code, in the low seven bits of byte 0, is neither 70h nor 72h; `byte` is byte 0 as it stands.
    Format { byte: u8 },
}
