ghost use Rattle.std.specs.Prelude.{◌≡◌, ◌<◌, ◌≤◌, length, drop};
ghost use Rattle.pr_persist.specs.Texts.{without_zeros};

/// The digits of a number in lower-case hexadecimal, with no zero in front.
#[derive(Drop)]
pub(crate) struct Hex {
    digits: [u8; 16],
    start: usize,
    ghost within: { start ≤ 16 },
}

/// How many zeros stand before the other digits; a last zero isn't counted.
fn zeros(digits: &[u8]) -> usize
    requires { 0 < length digits.now }
    ensures within { result < length digits.now }
    ensures rest { drop result digits.now ≡ without_zeros digits.now }
{
    let last = digits.len() - 1;
    for at in 0..last {
        if digits[at] != b'0' {
            return at;
        }
    }
    last
}

impl Hex {
    ghost use Rattle.pr_persist.specs.Prints.{word_of};
    ghost use Rattle.pr_persist.specs.Texts.{hex_word};

    /// The digits of this number.
    pub(crate) fn of(number: u64) -> Hex
        ensures { word_of result ≡ hex_word number }
    {
        let mut digits = [0; 16];
        let Ok(()) = hex::encode_to_slice(number.to_be_bytes(), &mut digits) else {
            unreachable!();
        };
        let start = zeros(&digits);
        Hex { digits, start }
    }

    /// The digits.
    pub(crate) fn bytes(&self) -> &[u8]
        ensures { result.now ≡ word_of self.now }
    {
        &self.digits[self.start..]
    }
}
