use crate::{capacity10, capacity16, inquiry, luns, page};

#[test]
fn standard_inquiry_data(rt: HostRuntime) {
    let mut out = [0xFF; 36];
    inquiry(true, &mut out);
    assert!(rt; out == *b"\x00\x00\x06\x02\x1F\x00\x10\x00PRTOOL  SHARED DISK     0001");
    inquiry(false, &mut out);
    assert!(rt; out == *b"\x7F\x00\x06\x02\x1F\x00\x10\x00PRTOOL  SHARED DISK     0001");
}

/// Whether the page with this code has these bytes on logical unit 0, and with 7Fh in front on another one, and
/// what is behind them stays.
fn is_page(code: u8, bytes: &[u8]) -> bool {
    let mut out = [0xEE; 24];
    let len = page(code, true, &mut out);
    if len != Some(bytes.len()) || bytes.len() < 4 || bytes.len() > 24 {
        return false;
    }
    let mut want = [0xEE; 24];
    want[..bytes.len()].copy_from_slice(bytes);
    let here = out == want;
    want[0] = 0x7F;
    here && page(code, false, &mut out) == len && out == want
}

#[test]
fn vital_product_data_pages(rt: HostRuntime) {
    assert!(rt; is_page(0x00, b"\x00\x00\x00\x03\x00\x80\x83"));
    assert!(rt; is_page(0x80, b"\x00\x80\x00\x0800000001"));
    assert!(rt; is_page(0x83, b"\x00\x83\x00\x14\x02\x01\x00\x10PRTOOL  00000001"));
    let mut out = [0xEE; 24];
    for code in [0x01, 0x7F, 0x81, 0x82, 0x84, 0xB0, 0xFF] {
        assert!(rt; page(code, true, &mut out).is_none() && page(code, false, &mut out).is_none());
    }
    assert!(rt; out == [0xEE; 24]);
}

#[test]
fn capacities(rt: HostRuntime) {
    let table: [(u64, &[u8; 8], &[u8; 12]); 6] = [
        (1, b"\0\0\0\0\0\0\x02\0", b"\0\0\0\0\0\0\0\0\0\0\x02\0"),
        (
            2_048,
            b"\0\0\x07\xFF\0\0\x02\0",
            b"\0\0\0\0\0\0\x07\xFF\0\0\x02\0",
        ),
        (
            0xFFFF_FFFF,
            b"\xFF\xFF\xFF\xFE\0\0\x02\0",
            b"\0\0\0\0\xFF\xFF\xFF\xFE\0\0\x02\0",
        ),
        (
            0x1_0000_0000,
            b"\xFF\xFF\xFF\xFF\0\0\x02\0",
            b"\0\0\0\0\xFF\xFF\xFF\xFF\0\0\x02\0",
        ),
        (
            0x1_0000_0001,
            b"\xFF\xFF\xFF\xFF\0\0\x02\0",
            b"\0\0\0\x01\0\0\0\0\0\0\x02\0",
        ),
        (
            0x100_0000_0000,
            b"\xFF\xFF\xFF\xFF\0\0\x02\0",
            b"\0\0\0\xFF\xFF\xFF\xFF\xFF\0\0\x02\0",
        ),
    ];
    let zeros = [0; 20];
    for (blocks, narrow, wide) in table {
        let mut short = [0xEE; 8];
        capacity10(blocks, &mut short);
        assert!(rt; short == *narrow);
        let mut long = [0xEE; 32];
        capacity16(blocks, &mut long);
        assert!(rt; long[..12] == wide[..] && long[12..] == zeros[..]);
    }
}

#[test]
fn logical_units(rt: HostRuntime) {
    for select in [0x00, 0x02] {
        let mut out = [0xEE; 16];
        assert!(rt; luns(select, &mut out) == Some(16));
        assert!(rt; out == *b"\0\0\0\x08\0\0\0\0\0\0\0\0\0\0\0\0");
    }
    let mut out = [0xEE; 16];
    assert!(rt; luns(0x01, &mut out) == Some(8));
    assert!(rt; out == *b"\0\0\0\0\0\0\0\0\xEE\xEE\xEE\xEE\xEE\xEE\xEE\xEE");
    out = [0xEE; 16];
    assert!(rt; luns(0x03, &mut out).is_none() && luns(0x10, &mut out).is_none());
    assert!(rt; luns(0xFF, &mut out).is_none() && out == [0xEE; 16]);
}
