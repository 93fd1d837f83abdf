ghost use Rattle.std.specs.Prelude.{◌≡◌};
ghost use Rattle.pr_grammar.specs.Pages.{report_luns};
ghost use Rattle.pr_pages.specs.Written.{over, length_in};

/// Writes the data of REPORT LUNS (SPC-4) for this SELECT REPORT into the first bytes of `out`, and answers how many
/// they are. None where there is no such report.
pub fn luns(select: u8, out: &mut [u8; 16]) -> Option<usize>
    ensures length { result ≡ length_in (report_luns select) }
    ensures written { out.new ≡ over (report_luns select) out.old }
{
    match select {
        0x00 | 0x02 => {
            *out = [0, 0, 0, 8, 0, 0, 0, 0, 0, 0, 0, 0, 0, 0, 0, 0];
            Some(16)
        }
        0x01 => {
            out[..8].copy_from_slice(&[0; 8]);
            Some(8)
        }
        _ => None,
    }
}
