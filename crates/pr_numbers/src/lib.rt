//! Numbers among the words of a command line.
#![tactic(auto)]

mod numbers;

pub use numbers::{decimal_number, hex_number};

#[cfg(test)]
mod tests;
