ghost use Rattle.std.specs.Prelude.{◌≡◌, ◌≤◌, ◌<◌, ◌^◌, length};
ghost use Rattle.pr_grammar.specs.InReplies.{read_keys as spec_keys, read_reservation as spec_reservation, read_capabilities as spec_capabilities, read_full as spec_full, first_odd as spec_first_odd};

use crate::full::Full;
use crate::keys::Keys;
use pr_grammar::{Capabilities, Held, ReplyFault};
use pr_words::{Key, get_u16, get_u32, get_u64};

/// Reads the data of READ KEYS (SPC-4) that wasn't truncated. Bytes behind the reply are ignored.
///
/// # Errors
///
/// `ReplyFault::BadLength` where ADDITIONAL LENGTH isn't a multiple of 8, else `ReplyFault::Cut` where the bytes end
/// before the reply does.
pub fn read_keys(bytes: &[u8]) -> Result<Keys<'_>, ReplyFault>
    ensures { result ≡ spec_keys bytes.now }
{
    if bytes.len() < 8 {
        return Err(ReplyFault::Cut { place: bytes.len() });
    }
    let additional = get_u32(bytes, 4);
    if additional % 8 != 0 {
        return Err(ReplyFault::BadLength {
            place: 4,
            value: additional,
        });
    }
    if bytes.len() < 8 + additional as usize {
        return Err(ReplyFault::Cut { place: bytes.len() });
    }
    Ok(Keys::new(get_u32(bytes, 0), additional as usize / 8, &bytes[8..]))
}

/// Reads the data of READ RESERVATION (SPC-4) that wasn't truncated. Bytes behind the reply, and reserved and obsolete
/// ones, are ignored.
///
/// # Errors
///
/// `ReplyFault::BadLength` where ADDITIONAL LENGTH is neither 0 nor 10h, else `ReplyFault::Cut` where the bytes end
/// before the reply does.
pub fn read_reservation(bytes: &[u8]) -> Result<Held, ReplyFault>
    ensures { result ≡ spec_reservation bytes.now }
{
    if bytes.len() < 8 {
        return Err(ReplyFault::Cut { place: bytes.len() });
    }
    let generation = get_u32(bytes, 0);
    let additional = get_u32(bytes, 4);
    if additional == 0 {
        return Ok(Held {
            generation,
            held: None,
        });
    }
    if additional != 16 {
        return Err(ReplyFault::BadLength {
            place: 4,
            value: additional,
        });
    }
    if bytes.len() < 24 {
        return Err(ReplyFault::Cut { place: bytes.len() });
    }
    Ok(Held {
        generation,
        held: Some((Key(get_u64(bytes, 8)), bytes[21])),
    })
}

/// Reads the data of REPORT CAPABILITIES (SPC-4) that wasn't truncated. Bytes behind the reply are ignored.
///
/// # Errors
///
/// `ReplyFault::BadLength` where the length in the first two bytes isn't 8, else `ReplyFault::Cut` where the bytes end
/// before the reply does.
pub fn read_capabilities(bytes: &[u8]) -> Result<Capabilities, ReplyFault>
    ensures { result ≡ spec_capabilities bytes.now }
{
    if bytes.len() < 2 {
        return Err(ReplyFault::Cut { place: bytes.len() });
    }
    let len = get_u16(bytes, 0);
    if len != 8 {
        return Err(ReplyFault::BadLength {
            place: 0,
            value: u32::from(len),
        });
    }
    if bytes.len() < 8 {
        return Err(ReplyFault::Cut { place: bytes.len() });
    }
    Ok(Capabilities {
        flags: bytes[2],
        more: bytes[3],
        mask: get_u16(bytes, 4),
    })
}

/// Reads the data of READ FULL STATUS (SPC-4) that wasn't truncated, with descriptors of 48 bytes as this target gives
/// them. Bytes behind the reply, and reserved ones, are ignored, and so is all of a TransportID but the name in the
/// places of the SAS layout.
///
/// # Errors
///
/// `ReplyFault::BadLength` where ADDITIONAL LENGTH isn't a multiple of 48, or else an ADDITIONAL DESCRIPTOR LENGTH that
/// is there isn't 24; otherwise `ReplyFault::Cut` where the bytes end before the reply does.
pub fn read_full(bytes: &[u8]) -> Result<Full<'_>, ReplyFault>
    ensures { result ≡ spec_full bytes.now }
{
    if bytes.len() < 8 {
        return Err(ReplyFault::Cut { place: bytes.len() });
    }
    let additional = get_u32(bytes, 4);
    if additional % 48 != 0 {
        return Err(ReplyFault::BadLength {
            place: 4,
            value: additional,
        });
    }
    let count = additional as usize / 48;
    if let Some(fault) = first_odd(bytes, count) {
        return Err(fault);
    }
    if bytes.len() < 8 + additional as usize {
        return Err(ReplyFault::Cut { place: bytes.len() });
    }
    Ok(Full::new(get_u32(bytes, 0), count, &bytes[8..]))
}

/// The fault of the first ADDITIONAL DESCRIPTOR LENGTH that is there and isn't 24.
fn first_odd(bytes: &[u8], count: usize) -> Option<ReplyFault>
    requires { count < 2 ^ 32 }
    ensures { result ≡ spec_first_odd count 8 bytes.now }
{
    for i in 0..count {
        let place = 8 + 48 * i;
        if bytes.len() < place + 24 {
            return None;
        }
        let value = get_u32(bytes, place + 20);
        if value != 24 {
            return Some(ReplyFault::BadLength {
                place: place + 20,
                value,
            });
        }
    }
    None
}
