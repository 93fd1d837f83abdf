use super::*;
use std::test::*;

// What reads as a hexadecimal number, and what doesn't.
const HEX: [(&str, Option<u64>); 9] = [
    ("11", Some(0x11)),
    ("0x11", Some(0x11)),
    ("fF", Some(0xFF)),
    ("FFFFFFFFFFFFFFFF", Some(u64::MAX)),
    ("0x00000000000000001", None),
    ("", None),
    ("0x", None),
    ("0X11", None),
    ("1g", None),
];

// What reads as a decimal number, and what doesn't.
const DECIMAL: [(&str, Option<u16>); 8] = [
    ("0", Some(0)),
    ("1", Some(1)),
    ("65535", Some(u16::MAX)),
    ("65536", None),
    ("01", None),
    ("+1", None),
    ("", None),
    ("1a", None),
];

#[test]
fn hexadecimal_numbers_are_read(rt: HostRuntime) -> Result<(), Fail> {
    for (text, number) in HEX {
        assert!(rt; hex_number(text, 16) == number);
    }
    Ok(())
}

#[test]
fn decimal_numbers_are_read(rt: HostRuntime) -> Result<(), Fail> {
    for (text, number) in DECIMAL {
        assert!(rt; decimal_number(text) == number);
    }
    Ok(())
}
