/// The commands that the target serves, with the fields of their CDBs (SPC-4, SBC-3). A field is as it stands in the
/// CDB, whatever its value: whether a command may have that value is no question of its layout.
#[derive(Clone, Copy, Debug, PartialEq, Eq)]
pub enum Command {
    /// 00h.
    TestUnitReady,
    /// 03h. `descriptor` is DESC; `allocation` counts bytes.
    RequestSense {
        descriptor: bool,
        allocation: u8,
    },
    /// 12h. `vital` is EVPD; `allocation` counts bytes.
    Inquiry {
        vital: bool,
        page: u8,
        allocation: u16,
    },
    /// 25h.
    ReadCapacity10,
    /// 9Eh, SERVICE ACTION IN(16). `action` is the service action, 5 bits; `allocation` counts bytes.
    ReadCapacity16 {
        action: u8,
        allocation: u32,
    },
    /// A0h. `select` is SELECT REPORT; `allocation` counts bytes.
    ReportLuns {
        select: u8,
        allocation: u32,
    },
    /// 28h, or 88h where it is `wide`. `protect` is RDPROTECT, 3 bits; `count` counts blocks.
    Read {
        wide: bool,
        protect: u8,
        lba: u64,
        count: u32,
    },
    /// 2Ah, or 8Ah where it is `wide`. `protect` is WRPROTECT, 3 bits; `count` counts blocks.
    Write {
        wide: bool,
        protect: u8,
        lba: u64,
        count: u32,
    },
    /// 35h. `count` counts blocks.
    SynchronizeCache {
        lba: u32,
        count: u16,
    },
    /// 5Eh. `action` is the service action, 5 bits; `allocation` counts bytes.
    ReserveIn {
        action: u8,
        allocation: u16,
    },
    /// 5Fh. `action` is the service action, 5 bits; `scope` and `kind` have 4 bits; `length` is that of the parameter
    /// list in bytes.
    ReserveOut {
        action: u8,
        scope: u8,
        kind: u8,
        length: u32,
    },
}

/// A command descriptor block (SPC-4): its command, and the NACA bit of its control byte.
#[derive(Clone, Copy, Debug, PartialEq, Eq)]
pub struct Cdb {
    pub command: Command,
    pub naca: bool,
}

/// Why bytes aren't a CDB of one of the commands.
#[derive(Clone, Copy, Debug, PartialEq, Eq)]
pub enum CdbFault {
    /// The operation code, in byte 0, is none of a command that is served.
    Unknown { op: u8 },
    /// The operation code has CDBs of `need` bytes, and only `have` are there.
    Short { need: usize, have: usize },
}

/// What a command does to the medium, as far as reservations ask (SPC-4 and SBC-3, conflict tables).
#[derive(Clone, Copy, Debug, PartialEq, Eq)]
pub enum Class {
    /// It reads blocks.
    Reads,
    /// It writes blocks, or makes writes last.
    Writes,
    /// It does neither, and no reservation bars it.
    Free,
}
