use pr_words::{Key, Nexus};

/// The parameter list of PERSISTENT RESERVE OUT (SPC-4).
#[derive(Clone, Copy, Debug, PartialEq, Eq)]
pub struct OutList {
    /// RESERVATION KEY.
    pub key: u64,
    /// SERVICE ACTION RESERVATION KEY.
    pub action_key: u64,
    /// SPEC_I_PT.
    pub spec_i_pt: bool,
    /// ALL_TG_PT.
    pub all_tg_pt: bool,
    /// APTPL.
    pub aptpl: bool,
}

/// Why bytes aren't a parameter list of PERSISTENT RESERVE OUT.
#[derive(Clone, Copy, Debug, PartialEq, Eq)]
pub enum ParamFault {
    /// There aren't 24 bytes, but `have`.
    Length { have: usize },
}

/// Why bytes aren't a whole reply of PERSISTENT RESERVE IN.
#[derive(Clone, Copy, Debug, PartialEq, Eq)]
pub enum ReplyFault {
    /// The length field whose first byte is at `place` has a value that no such reply has. It is the first such field.
    BadLength { place: usize, value: u32 },
    /// Every length field that is there is right, and the bytes end before the reply does; `place` is their number.
    Cut { place: usize },
}

/// What READ RESERVATION tells (SPC-4).
#[derive(Clone, Copy, Debug, PartialEq, Eq)]
pub struct Held {
    /// PRGENERATION.
    pub generation: u32,
    /// The reservation, where one is held: its key, and the byte of scope (bits 7 to 4) and type (bits 3 to 0).
    pub held: Option<(Key, u8)>,
}

/// What REPORT CAPABILITIES tells (SPC-4), in bytes as they stand.
#[derive(Clone, Copy, Debug, PartialEq, Eq)]
pub struct Capabilities {
    /// Byte 2: CRH, SIP_C, ATP_C and PTPL_C.
    pub flags: u8,
    /// Byte 3: TMV, ALLOW COMMANDS and PTPL_A.
    pub more: u8,
    /// The type mask, bytes 4 and 5.
    pub mask: u16,
}

/// A descriptor of READ FULL STATUS (SPC-4).
#[derive(Clone, Copy, Debug, PartialEq, Eq)]
pub struct FullEntry {
    pub key: Key,
    /// R_HOLDER.
    pub holder: bool,
    /// The byte of scope (bits 7 to 4) and type (bits 3 to 0) as it stands, which means something only at a holder.
    pub kind: u8,
    pub nexus: Nexus,
}
