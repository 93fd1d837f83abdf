ghost use Rattle.std.specs.Prelude.{◌≡◌, ◌<◌, ◌-◌, ◌^◌, ◌++◌, length, replicate, take, Ok};
ghost use Rattle.pr_grammar.specs.Cdbs.{FitsFields, spelled_cdb, read_cdb, narrow_transfer, wide_transfer, protection};
ghost use Rattle.pr_words.specs.Fields.{number32_at, number64_at};

use pr_grammar::{Cdb, Command};

/// Writes a CDB into the first bytes of `out`, with zeros in the reserved and ignored bits and behind it, and answers
/// its length: 6, 10, 12 or 16 bytes.
pub fn write(cdb: &Cdb, out: &mut [u8; 16]) -> usize
    requires { FitsFields cdb.now.command }
    ensures bytes { out.new ≡ spelled_cdb cdb.now ++ replicate (16 - length (spelled_cdb cdb.now)) 0 }
    ensures size { result ≡ length (spelled_cdb cdb.now) }
    ensures reads_back { read_cdb (take result out.new) ≡ Ok cdb.now }
{
    let control = if cdb.naca { 0x04 } else { 0x00 };
    match cdb.command {
        Command::TestUnitReady => put_6([0x00, 0, 0, 0, 0, control], out),
        Command::RequestSense {
            descriptor,
            allocation,
        } => { put_6([0x03, u8::from(descriptor), 0, 0, allocation, control], out) }
        Command::Inquiry {
            vital,
            page,
            allocation,
        } => {
            let a = allocation.to_be_bytes();
            put_6([0x12, u8::from(vital), page, a[0], a[1], control], out)
        }
        Command::ReadCapacity10 => put_10([0x25, 0, 0, 0, 0, 0, 0, 0, 0, control], out),
        Command::ReadCapacity16 { action, allocation } => {
            let a = allocation.to_be_bytes();
            *out = [
                0x9E, action, 0, 0, 0, 0, 0, 0, 0, 0, a[0], a[1], a[2], a[3], 0, control,
            ];
            16
        }
        Command::ReportLuns { select, allocation } => {
            let a = allocation.to_be_bytes();
            *out = [
                0xA0, 0, select, 0, 0, 0, a[0], a[1], a[2], a[3], 0, control, 0, 0, 0, 0,
            ];
            12
        }
        Command::Read {
            wide: false,
            protect,
            lba,
            count,
        } => { put_narrow(0x28, protect, lba as u32, count as u16, control, out) }
        Command::Read {
            wide: true,
            protect,
            lba,
            count,
        } => { put_wide(0x88, protect, lba, count, control, out) }
        Command::Write {
            wide: false,
            protect,
            lba,
            count,
        } => { put_narrow(0x2A, protect, lba as u32, count as u16, control, out) }
        Command::Write {
            wide: true,
            protect,
            lba,
            count,
        } => { put_wide(0x8A, protect, lba, count, control, out) }
        Command::SynchronizeCache { lba, count } => put_narrow(0x35, 0, lba, count, control, out),
        Command::ReserveIn { action, allocation } => {
            let a = allocation.to_be_bytes();
            put_10([0x5E, action, 0, 0, 0, 0, 0, a[0], a[1], control], out)
        }
        Command::ReserveOut {
            action,
            scope,
            kind,
            length,
        } => {
            let l = length.to_be_bytes();
            put_10(
                [
                    0x5F,
                    action,
                    scope * 16 + kind,
                    0,
                    0,
                    l[0],
                    l[1],
                    l[2],
                    l[3],
                    control,
                ],
                out,
            )
        }
    }
}

/// A CDB of 6 bytes.
fn put_6(cdb: [u8; 6], out: &mut [u8; 16]) -> usize
    ensures bytes { out.new ≡ cdb ++ replicate 10 0 }
    ensures size { result ≡ 6 }
{
    *out = [
        cdb[0], cdb[1], cdb[2], cdb[3], cdb[4], cdb[5], 0, 0, 0, 0, 0, 0, 0, 0, 0, 0,
    ];
    6
}

/// A CDB of 10 bytes.
fn put_10(cdb: [u8; 10], out: &mut [u8; 16]) -> usize
    ensures bytes { out.new ≡ cdb ++ replicate 6 0 }
    ensures size { result ≡ 10 }
{
    *out = [
        cdb[0], cdb[1], cdb[2], cdb[3], cdb[4], cdb[5], cdb[6], cdb[7], cdb[8], cdb[9], 0, 0, 0, 0,
        0, 0,
    ];
    10
}

/// A READ(10), or a command of its layout.
fn put_narrow(op: u8, protect: u8, lba: u32, count: u16, control: u8, out: &mut [u8; 16]) -> usize
    requires { protect < 8 }
    ensures bytes { out.new ≡ narrow_transfer op protect lba count control ++ replicate 6 0 }
    ensures size { result ≡ 10 }
{
    let l = lba.to_be_bytes();
    let c = count.to_be_bytes();
    *out = [
        op,
        protect * 32,
        l[0],
        l[1],
        l[2],
        l[3],
        0,
        c[0],
        c[1],
        control,
        0,
        0,
        0,
        0,
        0,
        0,
    ];
    10
}

/// A READ(16), or a command of its layout.
fn put_wide(op: u8, protect: u8, lba: u64, count: u32, control: u8, out: &mut [u8; 16]) -> usize
    requires { protect < 8 }
    ensures bytes { out.new ≡ wide_transfer op protect lba count control }
    ensures size { result ≡ 16 }
    ensures protect { protection out.new ≡ protect }
    ensures lba { number64_at out.new 2 ≡ lba }
    ensures count { number32_at out.new 10 ≡ count }
{
    let l = lba.to_be_bytes();
    let c = count.to_be_bytes();
    *out = [
        op,
        protect * 32,
        l[0],
        l[1],
        l[2],
        l[3],
        l[4],
        l[5],
        l[6],
        l[7],
        c[0],
        c[1],
        c[2],
        c[3],
        0,
        control,
    ];
    16
}
