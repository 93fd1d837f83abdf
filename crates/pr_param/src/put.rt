ghost use Rattle.std.specs.Prelude.{◌≡◌, ◌≤◌, ◌++◌, ℕ, List, length, take};
ghost use Rattle.pr_param.specs.Laid.{laid};
ghost use Rattle.std.specs.Int.{w32, to_be_bytes};

/// Writes a field from a place on, or as much of it as the buffer has room for.
pub fn put(out: &mut [u8], at: usize, field: &[u8])
    ensures first { at ≡ 0 → out.new ≡ laid field.now out.old }
    ensures next { (before buffer : List ℕ) → length before ≡ at → out.old ≡ laid before buffer → out.new ≡ laid (before ++ field.now) buffer }
{
    if at < out.len() {
        let len = field.len().min(out.len() - at);
        out[at..at + len].copy_from_slice(&field[..len]);
    }
}

/// Writes PRGENERATION and ADDITIONAL LENGTH, or as much of them as the buffer has room for.
pub fn put_head(out: &mut [u8], generation: u32, additional: u32)
    ensures laid { out.new ≡ laid (to_be_bytes w32 generation ++ to_be_bytes w32 additional) out.old }
    ensures alone { length out.old ≤ 8 → out.new ≡ take (length out.old) (to_be_bytes w32 generation ++ to_be_bytes w32 additional) }
{
    let g = generation.to_be_bytes();
    let a = additional.to_be_bytes();
    put(out, 0, &[g[0], g[1], g[2], g[3], a[0], a[1], a[2], a[3]]);
}
