ghost use Rattle.std.specs.Prelude.{◌≡◌, ◌<◌, ◌∷◌, ◌/◌, ◌%◌, [], option_map, Some};
ghost use Rattle.std.specs.Int.{w16, w64, to_be_bytes};
ghost use Rattle.hex.specs.Hex.{encode_lower};
ghost use Rattle.pr_io.specs.Told.{told_sink};
ghost use Rattle.pr_persist.specs.Prints.{HasPrinted};
ghost use Rattle.pr_persist.specs.Texts.{kind_name, scope_line, holding_lines, held_by, held_text, capabilities_text};

use crate::digits::Hex;
use crate::printing::{put_number, put_pieces};
use itoa::Buffer;
use pr_io::{Failed, Sink};
use pr_param::{Capabilities, Held};
use pr_words::Key;

/// The name of a type of reservation (SPC-4). None where no type has this number.
fn name_of(kind: u8) -> Option<&'static [u8]>
    ensures { option_map (λ s. s.now) result ≡ kind_name kind }
{
    match kind {
        1 => Some(b"Write Exclusive"),
        3 => Some(b"Exclusive Access"),
        5 => Some(b"Write Exclusive, registrants only"),
        6 => Some(b"Exclusive Access, registrants only"),
        7 => Some(b"Write Exclusive, all registrants"),
        8 => Some(b"Exclusive Access, all registrants"),
        _ => None,
    }
}

/// Puts the line of scope and type.
///
/// # Errors
///
/// Where the sink fails. A front of the line was put then.
fn put_scope<K: Sink>(sink: &mut K, scope: u8, kind: u8) -> Result<(), Failed>
    ensures { HasPrinted (told_sink K.Sink sink.old) (told_sink K.Sink sink.new)
        (scope_line scope kind) result }
{
    match name_of(kind) {
        Some(name) => put_pieces(
            sink,
            &[
                b"    scope: ",
                Buffer::new().format(scope).as_bytes(),
                b", type: ",
                name,
                b"\n",
            ],
        ),
        None => put_pieces(
            sink,
            &[
                b"    scope: ",
                Buffer::new().format(scope).as_bytes(),
                b", type: unknown ",
                Hex::of(u64::from(kind)).bytes(),
                b"\n",
            ],
        ),
    }
}

/// Puts the lines of the key, and of scope and type, of a reservation.
///
/// # Errors
///
/// Where the sink fails. A front of the lines was put then.
fn put_holding<K: Sink>(sink: &mut K, key: Key, byte: u8) -> Result<(), Failed>
    ensures { HasPrinted (told_sink K.Sink sink.old) (told_sink K.Sink sink.new)
        (holding_lines key byte) result }
{
    match put_number(sink, b"    Key=0x", key.0, b"\n") {
        Ok(()) => put_scope(sink, byte / 16, byte % 16),
        Err(failed) => Err(failed),
    }
}

/// Puts the text of a reservation that is held, by its key and the byte of scope and type.
///
/// # Errors
///
/// Where the sink fails. A front of the text was put then.
fn put_reservation<K: Sink>(sink: &mut K, generation: u64, held: (Key, u8)) -> Result<(), Failed>
    ensures { HasPrinted (told_sink K.Sink sink.old) (told_sink K.Sink sink.new)
        (held_by generation (Some held)) result }
{
    match put_number(
        sink,
        b"  PR generation=0x",
        generation,
        b", Reservation follows:\n",
    ) {
        Ok(()) => put_holding(sink, held.0, held.1),
        Err(failed) => Err(failed),
    }
}

/// Puts the text of READ RESERVATION.
///
/// # Errors
///
/// Where the sink fails. A front of the text was put then.
pub(crate) fn put_held<K: Sink>(sink: &mut K, told: &Held) -> Result<(), Failed>
    ensures { HasPrinted (told_sink K.Sink sink.old) (told_sink K.Sink sink.new)
        (held_text told.now) result }
{
    let generation = u64::from(told.generation);
    match told.held {
        None => put_number(
            sink,
            b"  PR generation=0x",
            generation,
            b", there is NO reservation held\n",
        ),
        Some(held) => put_reservation(sink, generation, held),
    }
}

/// The two hexadecimal digits of a byte.
fn byte_digits(byte: u8) -> [u8; 2]
    ensures { result ≡ encode_lower (byte ∷ []) }
{
    let mut digits = [0; 2];
    let Ok(()) = hex::encode_to_slice([byte], &mut digits) else {
        unreachable!();
    };
    digits
}

/// The four hexadecimal digits of a number.
fn word_digits(number: u16) -> [u8; 4]
    ensures { result ≡ encode_lower (to_be_bytes w16 number) }
{
    let mut digits = [0; 4];
    let Ok(()) = hex::encode_to_slice(number.to_be_bytes(), &mut digits) else {
        unreachable!();
    };
    digits
}

/// Puts the text of REPORT CAPABILITIES.
///
/// # Errors
///
/// Where the sink fails. A front of the text was put then.
pub(crate) fn put_capabilities<K: Sink>(sink: &mut K, told: &Capabilities) -> Result<(), Failed>
    ensures { HasPrinted (told_sink K.Sink sink.old) (told_sink K.Sink sink.new)
        (capabilities_text told.now) result }
{
    let flags = byte_digits(told.flags);
    let more = byte_digits(told.more);
    let mask = word_digits(told.mask);
    put_pieces(
        sink,
        &[
            b"  Capabilities: 0x",
            flags.as_slice(),
            b" 0x",
            more.as_slice(),
            b", type mask 0x",
            mask.as_slice(),
            b"\n",
        ],
    )
}
