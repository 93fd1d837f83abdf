//! The words of the command line.

ghost use Rattle.std.specs.Prelude.{◌≡◌, ◌+◌, ◌≤◌, ◌↔◌, ℕ, Some};
ghost use Rattle.pr_words.specs.declared.limits.TheConstants.{LANES};
ghost use Rattle.pr_tool.specs.Asking.{decimal, AsksReplay};

/// The number of lanes, from 1 to 64, that decimal digits say with no zero in front.
fn lanes_in(digits: &[u8]) -> Option<usize>
    ensures { (lanes : ℕ) → result ≡
        Some lanes ↔ ((1 ≤ lanes) × (lanes ≤ LANES) × (digits.now ≡ decimal lanes)) }
{
    match *digits {
        [ones @ b'1'..=b'9'] => Some(usize::from(ones - b'0')),
        [tens @ b'1'..=b'5', ones @ b'0'..=b'9'] | [tens @ b'6', ones @ b'0'..=b'4'] => {
            Some(10 * usize::from(tens - b'0') + usize::from(ones - b'0'))
        }
        _ => None,
    }
}

/// The number of lanes on which the words ask for a replay.
pub fn lanes_asked(words: &[&str]) -> Option<usize>
    ensures { (lanes : ℕ) → result ≡ Some lanes ↔ AsksReplay words.now lanes }
{
    match words {
        ["replay", count] => lanes_in(count.as_bytes()),
        _ => None,
    }
}
