//! Sense data of SPC-4, in the fixed and in the descriptor format.
#![tactic(auto)]

ghost use Rattle.std.specs.Prelude.{◌≡◌, ◌<◌, Ok, Some, None};
ghost use Rattle.pr_grammar.specs.Senses.{fixed_sense, descriptor_sense, read_sense, read_fixed as spec_fixed, read_descriptor as spec_descriptor};

mod laws;

pub use laws::read_is_spelled;
pub use pr_grammar::SenseFault;
use pr_words::get_u32;
pub use pr_words::{Code, Sense};

/// Writes fixed format sense data (SPC-4): all 18 bytes, with zeros in reserved places. VALID is one, and INFORMATION
/// written, exactly where `info` is there. This is the form that a reply of CHECK CONDITION carries.
pub fn write_fixed(sense: &Sense, out: &mut [u8; 18])
    requires { sense.now.code.key < 16 }
    ensures spelled { out.new ≡ fixed_sense sense.now }
    ensures reads_back { read_sense out.new ≡ Ok sense.now }
{
    let code = sense.code;
    let (format, i) = match sense.info {
        Some(info) => (0xF0, info.to_be_bytes()),
        None => (0x70, [0; 4]),
    };
    *out = [
        format, 0, code.key, i[0], i[1], i[2], i[3], 0x0A, 0, 0, 0, 0, code.asc, code.ascq, 0, 0,
        0, 0,
    ];
}

/// Writes descriptor format sense data (SPC-4): 8 bytes, with no descriptor behind them. This is the form that
/// REQUEST SENSE gives where its DESC bit is one.
pub fn write_descriptor(code: Code, out: &mut [u8; 8])
    requires { code.key < 16 }
    ensures spelled { out.new ≡ descriptor_sense code }
    ensures reads_back { read_sense out.new ≡ Ok (record { code = code; info = None }) }
{
    *out = [0x72, code.key, code.asc, code.ascq, 0, 0, 0, 0];
}

/// Reads sense data of either format (SPC-4), by the response code in the low seven bits of byte 0. Bytes that aren't
/// needed may lack: the fixed format needs 14, the descriptor format 4. Deferred errors, 71h and 73h, are no format
/// that is read.
///
/// # Errors
///
/// `SenseFault::Cut` where there is no byte, or fewer than the format needs; `SenseFault::Format` where there is no
/// such format.
pub fn read(bytes: &[u8]) -> Result<Sense, SenseFault>
    ensures { result ≡ read_sense bytes.now }
{
    if bytes.is_empty() {
        return Err(SenseFault::Cut { place: 0 });
    }
    match bytes[0] % 128 {
        0x70 => read_fixed(bytes),
        0x72 => read_descriptor(bytes),
        _ => Err(SenseFault::Format { byte: bytes[0] }),
    }
}

fn read_fixed(bytes: &[u8]) -> Result<Sense, SenseFault>
    ensures { result ≡ spec_fixed bytes.now }
{
    if bytes.len() < 14 {
        return Err(SenseFault::Cut { place: bytes.len() });
    }
    let code = Code {
        key: bytes[2] % 16,
        asc: bytes[12],
        ascq: bytes[13],
    };
    let info = if bytes[0] < 128 {
        None
    } else {
        Some(get_u32(bytes, 3))
    };
    Ok(Sense { code, info })
}

fn read_descriptor(bytes: &[u8]) -> Result<Sense, SenseFault>
    ensures { result ≡ spec_descriptor bytes.now }
{
    if bytes.len() < 4 {
        return Err(SenseFault::Cut { place: bytes.len() });
    }
    let code = Code {
        key: bytes[1] % 16,
        asc: bytes[2],
        ascq: bytes[3],
    };
    Ok(Sense { code, info: None })
}

#[cfg(test)]
mod tests {
    use super::*;

    fn sense(key: u8, asc: u8, ascq: u8, info: Option<u32>) -> Sense
        ensures { (result.code.key ≡ key) × (result.info ≡ info) }
    {
        Sense {
            code: Code { key, asc, ascq },
            info,
        }
    }

    #[test]
    fn fixed_sense_is_written_and_read(rt: HostRuntime) {
        let table = [
            (
                sense(5, 0x24, 0, None),
                b"\x70\0\x05\0\0\0\0\x0A\0\0\0\0\x24\0\0\0\0\0",
            ),
            (
                sense(6, 0x2A, 5, None),
                b"\x70\0\x06\0\0\0\0\x0A\0\0\0\0\x2A\x05\0\0\0\0",
            ),
            (
                sense(6, 0x29, 0, None),
                b"\x70\0\x06\0\0\0\0\x0A\0\0\0\0\x29\0\0\0\0\0",
            ),
            (
                sense(0, 0, 0, None),
                b"\x70\0\0\0\0\0\0\x0A\0\0\0\0\0\0\0\0\0\0",
            ),
            (
                sense(14, 0x1D, 0, Some(0)),
                b"\xF0\0\x0E\0\0\0\0\x0A\0\0\0\0\x1D\0\0\0\0\0",
            ),
            (
                sense(14, 0x1D, 0, Some(0x01020304)),
                b"\xF0\0\x0E\x01\x02\x03\x04\x0A\0\0\0\0\x1D\0\0\0\0\0",
            ),
        ];
        for (value, bytes) in table {
            if value.code.key < 16 {
                let mut out = [0xFF; 18];
                write_fixed(&value, &mut out);
                assert!(rt; out == *bytes);
            }
            assert!(rt; read(bytes) == Ok(value));
        }
    }

    #[test]
    fn descriptor_sense_is_written_and_read(rt: HostRuntime) {
        let mut out = [0xFF; 8];
        write_descriptor(sense(6, 0x29, 0, None).code, &mut out);
        assert!(rt; out == *b"\x72\x06\x29\0\0\0\0\0");
        assert!(rt; read(&out) == Ok(sense(6, 0x29, 0, None)));
    }

    #[test]
    fn ignored_bits_and_bytes_are_ignored(rt: HostRuntime) {
        let fixed = b"\x70\xFF\xF6\x01\x02\x03\x04\xFF\xFF\xFF\xFF\xFF\x2A\x05";
        assert!(rt; read(fixed) == Ok(sense(6, 0x2A, 5, None)));
        let valid = b"\xF0\xFF\xF6\x01\x02\x03\x04\xFF\xFF\xFF\xFF\xFF\x2A\x05";
        assert!(rt; read(valid) == Ok(sense(6, 0x2A, 5, Some(0x01020304))));
        assert!(rt; read(b"\xF2\xF6\x29\x01") == Ok(sense(6, 0x29, 1, None)));
        assert!(rt; read(b"\x72\x06\x29\0\xFF\xFF\xFF\xFF\xFF") == Ok(sense(6, 0x29, 0, None)));
    }

    #[test]
    fn each_length_that_is_short_is_cut(rt: HostRuntime) {
        let fixed = b"\x70\0\x06\0\0\0\0\x0A\0\0\0\0\x29\0\0\0\0\0";
        for n in 0..14 {
            assert!(rt; read(&fixed[..n]) == Err(SenseFault::Cut { place: n }));
        }
        for n in 14..19 {
            assert!(rt; read(&fixed[..n]) == Ok(sense(6, 0x29, 0, None)));
        }
        let descriptor = b"\x72\x06\x29\0";
        for n in 0..4 {
            assert!(rt; read(&descriptor[..n]) == Err(SenseFault::Cut { place: n }));
        }
    }

    #[test]
    fn other_formats_are_refused(rt: HostRuntime) {
        for byte in [0x00, 0x6F, 0x71, 0x73, 0x80, 0xF1, 0xF3, 0xFF] {
            assert!(rt; read(&[byte]) == Err(SenseFault::Format { byte }));
        }
    }
}
