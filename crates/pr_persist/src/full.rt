ghost use Rattle.std.specs.Prelude.{◌≡◌, ◌≤◌, length};
ghost use Rattle.std.specs.List.{flat_map};
ghost use Rattle.std.specs.Int.{w64, to_be_bytes};
ghost use Rattle.hex.specs.Hex.{encode_lower};
ghost use Rattle.pr_io.specs.Told.{told_sink};
ghost use Rattle.pr_persist.specs.Prints.{HasPrinted};
ghost use Rattle.pr_persist.specs.Texts.{nexus_part, holder_part, full_head, full_line, full_text, shown_byte, columns_of, inquiry_line};

use crate::digits::Hex;
use crate::printing::{put_number, put_pieces};
use itoa::Buffer;
use pr_io::{Failed, Sink};
use pr_param::{Full, FullEntry};

/// Puts the first line of READ FULL STATUS.
///
/// # Errors
///
/// Where the sink fails. A front of the line was put then.
fn put_full_head<K: Sink>(sink: &mut K, generation: u32, count: usize) -> Result<(), Failed>
    ensures { HasPrinted (told_sink K.Sink sink.old) (told_sink K.Sink sink.new)
        (full_head generation count) result }
{
    put_pieces(
        sink,
        &[
            b"  PR generation=0x",
            Hex::of(u64::from(generation)).bytes(),
            b", ",
            Buffer::new().format(count).as_bytes(),
            b" registrations\n",
        ],
    )
}

/// The sixteen hexadecimal digits of a name.
fn name_digits(name: u64) -> [u8; 16]
    ensures { result ≡ encode_lower (to_be_bytes w64 name) }
{
    let mut digits = [0; 16];
    let Ok(()) = hex::encode_to_slice(name.to_be_bytes(), &mut digits) else {
        unreachable!();
    };
    digits
}

/// Puts a registration's key and nexus.
///
/// # Errors
///
/// Where the sink fails. A front of the text was put then.
fn put_nexus<K: Sink>(sink: &mut K, entry: &FullEntry) -> Result<(), Failed>
    ensures { HasPrinted (told_sink K.Sink sink.old) (told_sink K.Sink sink.new)
        (nexus_part entry.now) result }
{
    let name = name_digits(entry.nexus.name);
    put_pieces(
        sink,
        &[
            b"    Key=0x",
            Hex::of(entry.key.0).bytes(),
            b" name=",
            name.as_slice(),
            b" port=",
            Buffer::new().format(entry.nexus.port).as_bytes(),
        ],
    )
}

/// Ends a registration's line, with the type of the reservation where its nexus holds it.
///
/// # Errors
///
/// Where the sink fails. A front of the text was put then.
fn put_holder<K: Sink>(sink: &mut K, holder: bool, kind: u8) -> Result<(), Failed>
    ensures { HasPrinted (told_sink K.Sink sink.old) (told_sink K.Sink sink.new)
        (holder_part holder kind) result }
{
    if holder {
        return put_number(sink, b" holder type=", u64::from(kind % 16), b"\n");
    }
    put_pieces(sink, &[b"\n"])
}

/// Puts a registration's line.
///
/// # Errors
///
/// Where the sink fails. A front of the line was put then.
fn put_full_line<K: Sink>(sink: &mut K, entry: &FullEntry) -> Result<(), Failed>
    ensures { HasPrinted (told_sink K.Sink sink.old) (told_sink K.Sink sink.new)
        (full_line entry.now) result }
{
    match put_nexus(sink, entry) {
        Ok(()) => put_holder(sink, entry.holder, entry.kind),
        Err(failed) => Err(failed),
    }
}

/// Puts a line for each registration.
///
/// # Errors
///
/// Where the sink fails. A front of the lines was put then.
fn put_full_lines<K: Sink>(sink: &mut K, full: &Full<'_>) -> Result<(), Failed>
    ensures { HasPrinted (told_sink K.Sink sink.old) (told_sink K.Sink sink.new)
        (flat_map full_line full.now.entries) result }
{
    for i in 0..full.count() {
        let entry = full.at(i);
        match put_full_line(sink, &entry) {
            Ok(()) => {}
            Err(failed) => return Err(failed),
        }
    }
    Ok(())
}

/// Puts the text of READ FULL STATUS.
///
/// # Errors
///
/// Where the sink fails. A front of the text was put then.
pub(crate) fn put_full<K: Sink>(sink: &mut K, full: &Full<'_>) -> Result<(), Failed>
    ensures { HasPrinted (told_sink K.Sink sink.old) (told_sink K.Sink sink.new)
        (full_text full.now) result }
{
    match put_full_head(sink, full.generation(), full.count()) {
        Ok(()) => put_full_lines(sink, full),
        Err(failed) => Err(failed),
    }
}

/// A byte as it is shown: a full stop where it is no printable ASCII.
fn shown(byte: u8) -> u8
    ensures { result ≡ shown_byte byte }
{
    if 0x20 <= byte && byte <= 0x7E {
        byte
    } else {
        b'.'
    }
}

/// Vendor, product and revision of standard INQUIRY data, as they are shown.
fn columns(bytes: &[u8]) -> [u8; 28]
    requires { 36 ≤ length bytes.now }
    ensures { result ≡ columns_of bytes.now }
{
    let mut columns = [0; 28];
    for i in 0..28 {
        columns[i] = shown(bytes[8 + i]);
    }
    columns
}

/// Puts the line of INQUIRY.
///
/// # Errors
///
/// Where the sink fails. A front of the line was put then.
pub(crate) fn put_inquiry<K: Sink>(sink: &mut K, bytes: &[u8]) -> Result<(), Failed>
    requires { 36 ≤ length bytes.now }
    ensures { HasPrinted (told_sink K.Sink sink.old) (told_sink K.Sink sink.new)
        (inquiry_line bytes.now) result }
{
    let columns = columns(bytes);
    put_pieces(
        sink,
        &[
            b"  ",
            &columns[0..8],
            b"  ",
            &columns[8..24],
            b"  ",
            &columns[24..28],
            b"\n",
        ],
    )
}
