use pr_words::Code;
use std::fmt;

/// The code of sense data as a user reads it: its names, as far as they are known here, and its
/// numbers.
#[derive(Clone, Copy, Debug, PartialEq, Eq)]
pub struct Meaning(pub Code);

/// The name of a sense key (SPC-4).
fn key_name(key: u8) -> &'static str {
    match key {
        0x0 => "NO SENSE",
        0x1 => "RECOVERED ERROR",
        0x2 => "NOT READY",
        0x3 => "MEDIUM ERROR",
        0x4 => "HARDWARE ERROR",
        0x5 => "ILLEGAL REQUEST",
        0x6 => "UNIT ATTENTION",
        0x7 => "DATA PROTECT",
        0x8 => "BLANK CHECK",
        0xA => "COPY ABORTED",
        0xB => "ABORTED COMMAND",
        0xD => "VOLUME OVERFLOW",
        0xE => "MISCOMPARE",
        0xF => "COMPLETED",
        _ => "a sense key without a name",
    }
}

/// The name of an additional sense code with its qualifier (SPC-4). None where it isn't known here.
fn condition(asc: u8, ascq: u8) -> Option<&'static str> {
    match (asc, ascq) {
        (0x0C, 0x00) => Some("WRITE ERROR"),
        (0x11, 0x00) => Some("UNRECOVERED READ ERROR"),
        (0x1A, 0x00) => Some("PARAMETER LIST LENGTH ERROR"),
        (0x20, 0x00) => Some("INVALID COMMAND OPERATION CODE"),
        (0x21, 0x00) => Some("LOGICAL BLOCK ADDRESS OUT OF RANGE"),
        (0x24, 0x00) => Some("INVALID FIELD IN CDB"),
        (0x25, 0x00) => Some("LOGICAL UNIT NOT SUPPORTED"),
        (0x26, 0x00) => Some("INVALID FIELD IN PARAMETER LIST"),
        (0x26, 0x04) => Some("INVALID RELEASE OF PERSISTENT RESERVATION"),
        (0x29, 0x00) => Some("POWER ON, RESET, OR BUS DEVICE RESET OCCURRED"),
        (0x2A, 0x03) => Some("RESERVATIONS PREEMPTED"),
        (0x2A, 0x04) => Some("RESERVATIONS RELEASED"),
        (0x2A, 0x05) => Some("REGISTRATIONS PREEMPTED"),
        (0x44, 0x00) => Some("INTERNAL TARGET FAILURE"),
        (0x55, 0x04) => Some("INSUFFICIENT REGISTRATION RESOURCES"),
        _ => None,
    }
}

impl fmt::Display for Meaning {
    fn fmt<W: fmt::Write>(&self, f: &mut fmt::Formatter<W>) -> fmt::Result {
        let Code { key, asc, ascq } = self.0;
        f.write_str(key_name(key))?;
        if let Some(name) = condition(asc, ascq) {
            write!(f, ", {name}")?;
        }
        write!(f, " ({key:X}/{asc:02X}/{ascq:02X})")
    }
}
