ghost use Rattle.std.specs.Prelude.{◌≡◌, ◌≤◌};
ghost use Rattle.pr_numbers.specs.Numbers.{hex_in, decimal_in, digits_of, is_bare_text};

/// The digits behind `0x`, or all where it isn't there.
fn digits(text: &[u8]) -> &[u8]
    ensures { result.now ≡ digits_of text.now }
{
    match text {
        [b'0', b'x', rest @ ..] => rest,
        _ => text,
    }
}

/// The number that 1 to `most` hexadecimal digits of both cases say, with a lower-case `0x` before
/// them or not. None where the text isn't that.
pub fn hex_number(text: &str, most: usize) -> Option<u64>
    requires { most ≤ 16 }
    ensures { result ≡ hex_in most text.now }
{
    let digits = digits(text.as_bytes());
    if digits.is_empty() || most < digits.len() {
        return None;
    }
    let mut padded = [b'0'; 16];
    padded[16 - digits.len()..].copy_from_slice(digits);
    let mut bytes = [0; 8];
    match hex::decode_to_slice(padded.as_slice(), &mut bytes) {
        Ok(()) => Some(u64::from_be_bytes(bytes)),
        Err(_) => None,
    }
}

/// Whether decimal digits have no sign before them, and no zero unless it is the only one.
fn is_bare(digits: &[u8]) -> bool
    ensures { result ≡ is_bare_text digits.now }
{
    match digits {
        [] => false,
        [b'+', ..] => false,
        [first, ..] => *first != b'0' || digits.len() == 1,
    }
}

/// The number below 65,536 that decimal digits say, with no sign and no zero in front. None where
/// the text isn't that.
pub fn decimal_number(text: &str) -> Option<u16>
    ensures { result ≡ decimal_in text.now }
{
    if is_bare(text.as_bytes()) {
        text.parse::<u16>().ok()
    } else {
        None
    }
}
