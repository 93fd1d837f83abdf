ghost use Rattle.std.specs.Prelude.{◌≡◌, ◌≤◌, ◌^◌};
ghost use Rattle.pr_grammar.specs.Pages.{capacity_10, capacity_16};
ghost use Rattle.std.specs.Int.{w32, to_be_bytes};

use pr_words::BLOCK;

/// Writes the data of READ CAPACITY(10) (SBC-3) of a medium with so many blocks.
pub fn capacity10(blocks: u64, out: &mut [u8; 8])
    requires some { 1 ≤ blocks }
    requires most { blocks ≤ 2 ^ 40 }
    ensures { out.new ≡ capacity_10 blocks }
{
    let last = (blocks - 1).min(u64::from(u32::MAX)) as u32;
    let l = last.to_be_bytes();
    let b = block_length();
    *out = [l[0], l[1], l[2], l[3], b[0], b[1], b[2], b[3]];
}

/// Writes the data of READ CAPACITY(16) (SBC-3) of a medium with so many blocks.
pub fn capacity16(blocks: u64, out: &mut [u8; 32])
    requires some { 1 ≤ blocks }
    requires most { blocks ≤ 2 ^ 40 }
    ensures { out.new ≡ capacity_16 blocks }
{
    let l = (blocks - 1).to_be_bytes();
    let b = block_length();
    *out = [
        l[0], l[1], l[2], l[3], l[4], l[5], l[6], l[7], b[0], b[1], b[2], b[3], 0, 0, 0, 0, 0, 0,
        0, 0, 0, 0, 0, 0, 0, 0, 0, 0, 0, 0, 0, 0,
    ];
}

/// LOGICAL BLOCK LENGTH IN BYTES.
fn block_length() -> [u8; 4]
    ensures { result ≡ to_be_bytes w32 BLOCK }
{
    (BLOCK as u32).to_be_bytes()
}
