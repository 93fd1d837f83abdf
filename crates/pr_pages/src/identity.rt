ghost use Rattle.std.specs.Prelude.{◌≡◌, ◌≤◌, ◌==◌, length, Some, is_some};
ghost use Rattle.std.specs.List.{list_any};
ghost use Rattle.pr_grammar.specs.Pages.{peripheral as spec_peripheral, standard_inquiry, vital_page, vital_page_at, supported_pages};
ghost use Rattle.pr_pages.specs.Written.{over, length_in};

/// PRODUCT SERIAL NUMBER.
const SERIAL_NUMBER: &[u8; 8] = b"00000001";

/// A designation descriptor whose designator, of 16 bytes, is the vendor and the serial number.
const DESIGNATION: &[u8; 20] = b"\x02\x01\x00\x10PRTOOL  00000001";

/// Writes standard INQUIRY data (SPC-4). `lun_ok` says whether the target has the logical unit that was asked.
pub fn inquiry(lun_ok: bool, out: &mut [u8; 36])
    ensures { out.new ≡ standard_inquiry lun_ok }
{
    *out = *b"\x00\x00\x06\x02\x1F\x00\x10\x00PRTOOL  SHARED DISK     0001";
    out[0] = peripheral(lun_ok);
}

/// Writes the vital product data page with this code (SPC-4) into the first bytes of `out`, and answers how many they
/// are. None where there is no such page. `lun_ok` is as for `inquiry`.
pub fn page(code: u8, lun_ok: bool, out: &mut [u8; 24]) -> Option<usize>
    ensures length { result ≡ length_in (vital_page_at code lun_ok) }
    ensures written { out.new ≡ over (vital_page_at code lun_ok) out.old }
    ensures listed { is_some result ≡ list_any (λ p. p == code) supported_pages }
{
    let content: &[u8] = match code {
        0x00 => &[0x00, 0x80, 0x83],
        0x80 => SERIAL_NUMBER,
        0x83 => DESIGNATION,
        _ => return None,
    };
    Some(put_page(code, lun_ok, content, out))
}

/// Writes a page with this content behind its PAGE LENGTH.
fn put_page(code: u8, lun_ok: bool, content: &[u8], out: &mut [u8; 24]) -> usize
    requires { length content.now ≤ 20 }
    ensures length { result ≡ length (vital_page lun_ok code content.now) }
    ensures written { out.new ≡ over (Some (vital_page lun_ok code content.now)) out.old }
{
    let counted = (content.len() as u16).to_be_bytes();
    let len = 4 + content.len();
    out[..4].copy_from_slice(&[peripheral(lun_ok), code, counted[0], counted[1]]);
    out[4..len].copy_from_slice(content);
    len
}

/// PERIPHERAL QUALIFIER and PERIPHERAL DEVICE TYPE.
fn peripheral(lun_ok: bool) -> u8
    ensures { result ≡ spec_peripheral lun_ok }
{
    if lun_ok { 0x00 } else { 0x7F }
}
