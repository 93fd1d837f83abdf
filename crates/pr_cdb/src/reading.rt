ghost use Rattle.std.specs.Prelude.{◌≡◌, ◌≤◌, ◌<◌, Some, length};
ghost use Rattle.pr_grammar.specs.Operations.{row_of};
ghost use Rattle.pr_grammar.specs.Cdbs.{command_by, read_by, read_cdb};

use crate::operation;
use pr_grammar::{Cdb, CdbFault, Command, OperationCode};
use pr_words::{get_u16, get_u32, get_u64};

/// Reads a CDB from the first bytes of `bytes`, by its operation code (SPC-4, SBC-3). Bits that no field of the command
/// has, the control byte's but NACA, and bytes behind the CDB are ignored.
///
/// # Errors
///
/// `CdbFault::Unknown` where the operation code is none of the commands', however many bytes there are;
/// `CdbFault::Short` where it is, and the bytes end before its CDB does.
pub fn read(bytes: &[u8]) -> Result<Cdb, CdbFault>
    requires { 0 < length bytes.now }
    ensures { result ≡ read_cdb bytes.now }
{
    let op = bytes[0];
    match operation(op) {
        Some(operation) => read_as(operation, bytes),
        None => Err(CdbFault::Unknown { op }),
    }
}

/// The same, where the operation code was looked at before.
///
/// # Errors
///
/// `CdbFault::Short` where there are fewer bytes than a CDB with this operation code has.
pub fn read_as(operation: OperationCode, bytes: &[u8]) -> Result<Cdb, CdbFault>
    ensures { result ≡ read_by (Some operation) bytes.now }
{
    let need = length_of(operation);
    if bytes.len() < need {
        return Err(CdbFault::Short {
            need,
            have: bytes.len(),
        });
    }
    Ok(Cdb {
        command: command_of(operation, bytes),
        naca: bytes[need - 1] % 8 > 3,
    })
}

/// How many bytes the CDB has.
fn length_of(operation: OperationCode) -> usize
    ensures length { result ≡ (row_of operation).size }
    ensures least { 6 ≤ result }
{
    match operation {
        OperationCode::TestUnitReady | OperationCode::RequestSense | OperationCode::Inquiry => 6,
        OperationCode::ReadCapacity10
        | OperationCode::Read10
        | OperationCode::Write10
        | OperationCode::SynchronizeCache10
        | OperationCode::ReserveIn
        | OperationCode::ReserveOut => 10,
        OperationCode::ReportLuns => 12,
        OperationCode::Read16 | OperationCode::Write16 | OperationCode::ReadCapacity16 => 16,
    }
}

fn command_of(operation: OperationCode, cdb: &[u8]) -> Command
    requires { (row_of operation).size ≤ length cdb.now }
    ensures { result ≡ command_by operation cdb.now }
{
    match operation {
        OperationCode::TestUnitReady => Command::TestUnitReady,
        OperationCode::RequestSense => Command::RequestSense {
            descriptor: cdb[1] % 2 == 1,
            allocation: cdb[4],
        },
        OperationCode::Inquiry => Command::Inquiry {
            vital: cdb[1] % 2 == 1,
            page: cdb[2],
            allocation: get_u16(cdb, 3),
        },
        OperationCode::ReadCapacity10 => Command::ReadCapacity10,
        OperationCode::Read10 => Command::Read {
            wide: false,
            protect: cdb[1] / 32,
            lba: u64::from(get_u32(cdb, 2)),
            count: u32::from(get_u16(cdb, 7)),
        },
        OperationCode::Write10 => Command::Write {
            wide: false,
            protect: cdb[1] / 32,
            lba: u64::from(get_u32(cdb, 2)),
            count: u32::from(get_u16(cdb, 7)),
        },
        OperationCode::SynchronizeCache10 => Command::SynchronizeCache {
            lba: get_u32(cdb, 2),
            count: get_u16(cdb, 7),
        },
        OperationCode::ReserveIn => Command::ReserveIn {
            action: cdb[1] % 32,
            allocation: get_u16(cdb, 7),
        },
        OperationCode::ReserveOut => Command::ReserveOut {
            action: cdb[1] % 32,
            scope: cdb[2] / 16,
            kind: cdb[2] % 16,
            length: get_u32(cdb, 5),
        },
        OperationCode::Read16 => Command::Read {
            wide: true,
            protect: cdb[1] / 32,
            lba: get_u64(cdb, 2),
            count: get_u32(cdb, 10),
        },
        OperationCode::Write16 => Command::Write {
            wide: true,
            protect: cdb[1] / 32,
            lba: get_u64(cdb, 2),
            count: get_u32(cdb, 10),
        },
        OperationCode::ReadCapacity16 => Command::ReadCapacity16 {
            action: cdb[1] % 32,
            allocation: get_u32(cdb, 10),
        },
        OperationCode::ReportLuns => Command::ReportLuns {
            select: cdb[2],
            allocation: get_u32(cdb, 6),
        },
    }
}
