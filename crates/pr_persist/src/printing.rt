ghost use Rattle.std.specs.Prelude.{◌≡◌, OnOk, OnErr};
ghost use Rattle.pr_io.specs.Causes.{HasCause};
ghost use Rattle.pr_io.specs.Streams.{Put, PutSome};
ghost use Rattle.std.specs.List.{flat_map};
ghost use Rattle.pr_io.specs.Told.{told_sink};
ghost use Rattle.pr_persist.specs.Prints.{HasPrinted};
ghost use Rattle.pr_persist.specs.Texts.{numbered, keys_head, key_line, keys_text};

use crate::digits::Hex;
use itoa::Buffer;
use pr_io::{Failed, Sink, put_all};
use pr_param::Keys;

/// Puts pieces of text, one after the other.
///
/// # Errors
///
/// Where the sink fails. A front of them all was put then.
pub(crate) fn put_pieces<K: Sink>(sink: &mut K, pieces: &[&[u8]]) -> Result<(), Failed>
    ensures all { OnOk result (Put (K.written sink.old) (K.written sink.new)
        (flat_map (λ p. p.now) pieces.now)) }
    ensures some { OnErr result (PutSome (K.written sink.old) (K.written sink.new)
        (flat_map (λ p. p.now) pieces.now)) }
    ensures cause { HasCause (K.faults sink.old) (K.faults sink.new) result }
{
    for piece in pieces {
        put_all(sink, piece)?;
    }
    Ok(())
}

/// Puts a number in hexadecimal, between two texts.
///
/// # Errors
///
/// Where the sink fails. A front of the three was put then.
pub(crate) fn put_number<K: Sink>(
    sink: &mut K,
    before: &[u8],
    number: u64,
    behind: &[u8],
) -> Result<(), Failed>
    ensures { HasPrinted (told_sink K.Sink sink.old) (told_sink K.Sink sink.new)
        (numbered before.now number behind.now) result }
{
    put_pieces(sink, &[before, Hex::of(number).bytes(), behind])
}

/// Puts the first line of READ KEYS.
///
/// # Errors
///
/// Where the sink fails. A front of the line was put then.
fn put_keys_head<K: Sink>(sink: &mut K, generation: u32, count: usize) -> Result<(), Failed>
    ensures { HasPrinted (told_sink K.Sink sink.old) (told_sink K.Sink sink.new)
        (keys_head generation count) result }
{
    let generation = u64::from(generation);
    match count {
        0 => put_number(
            sink,
            b"  PR generation=0x",
            generation,
            b", there are NO registered reservation keys\n",
        ),
        1 => put_number(
            sink,
            b"  PR generation=0x",
            generation,
            b", 1 registered reservation key follows:\n",
        ),
        _ => put_pieces(
            sink,
            &[
                b"  PR generation=0x",
                Hex::of(generation).bytes(),
                b", ",
                Buffer::new().format(count).as_bytes(),
                b" registered reservation keys follow:\n",
            ],
        ),
    }
}

/// Puts a line for each key.
///
/// # Errors
///
/// Where the sink fails. A front of the lines was put then.
fn put_key_lines<K: Sink>(sink: &mut K, keys: &Keys<'_>) -> Result<(), Failed>
    ensures { HasPrinted (told_sink K.Sink sink.old) (told_sink K.Sink sink.new)
        (flat_map key_line keys.now.keys) result }
{
    for i in 0..keys.count() {
        match put_number(sink, b"    0x", keys.key(i).0, b"\n") {
            Ok(()) => {}
            Err(failed) => return Err(failed),
        }
    }
    Ok(())
}

/// Puts the text of READ KEYS.
///
/// # Errors
///
/// Where the sink fails. A front of the text was put then.
pub(crate) fn put_keys<K: Sink>(sink: &mut K, keys: &Keys<'_>) -> Result<(), Failed>
    ensures { HasPrinted (told_sink K.Sink sink.old) (told_sink K.Sink sink.new)
        (keys_text keys.now) result }
{
    match put_keys_head(sink, keys.generation(), keys.count()) {
        Ok(()) => put_key_lines(sink, keys),
        Err(failed) => Err(failed),
    }
}
