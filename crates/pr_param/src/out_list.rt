ghost use Rattle.std.specs.Prelude.{◌≡◌, Ok};
ghost use Rattle.pr_grammar.specs.OutLists.{read_list, spelled_list};

use pr_grammar::{OutList, ParamFault};
use pr_words::{PARAMETER_LIST, get_u64};

/// Reads the parameter list of PERSISTENT RESERVE OUT (SPC-4). Every 24 bytes are one: obsolete and reserved bits and
/// bytes are ignored.
///
/// # Errors
///
/// `ParamFault::Length` where there aren't 24 bytes.
pub fn read_out_list(bytes: &[u8]) -> Result<OutList, ParamFault>
    ensures { result ≡ read_list bytes.now }
{
    if bytes.len() != PARAMETER_LIST {
        return Err(ParamFault::Length { have: bytes.len() });
    }
    let flags = bytes[20];
    Ok(OutList {
        key: get_u64(bytes, 0),
        action_key: get_u64(bytes, 8),
        spec_i_pt: flags / 8 % 2 == 1,
        all_tg_pt: flags / 4 % 2 == 1,
        aptpl: flags % 2 == 1,
    })
}

/// Writes the parameter list of PERSISTENT RESERVE OUT (SPC-4), with zeros where something is obsolete or reserved.
pub fn write_out_list(list: &OutList, out: &mut [u8; 24])
    ensures spelled { out.new ≡ spelled_list list.now }
    ensures reads_back { read_list out.new ≡ Ok list.now }
{
    let k = list.key.to_be_bytes();
    let a = list.action_key.to_be_bytes();
    let flags = 8 * u8::from(list.spec_i_pt) + 4 * u8::from(list.all_tg_pt) + u8::from(list.aptpl);
    *out = [
        k[0], k[1], k[2], k[3], k[4], k[5], k[6], k[7], a[0], a[1], a[2], a[3], a[4], a[5], a[6],
        a[7], 0, 0, 0, 0, flags, 0, 0, 0,
    ];
}
