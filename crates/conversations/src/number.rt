//! Decimal numbers.

ghost use Rattle.std.specs.Prelude.{◌≤◌, IfOk};

use crate::flaw::Flaw;
use std::alloc::Global;

/// The greatest number.
const MOST: u64 = 1_000_000;

/// A decimal number.
pub(crate) fn decimal(word: &str) -> Result<u64, Flaw>
    ensures { IfOk result (λ n. n ≤ 1000000) }
{
    match word.parse::<u64>() {
        Ok(number) if number <= MOST => Ok(number),
        _ => Err(Flaw::BadNumber),
    }
}

/// The decimal numbers that these words are.
pub(crate) fn decimals(alloc: Global, words: &[&str]) -> Result<Vec<u64>, Flaw> {
    let mut numbers = Vec::new(alloc);
    for word in words {
        numbers.push(decimal(word)?)?;
    }
    Ok(numbers)
}
