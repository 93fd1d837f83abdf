//! What the target tells of itself: the data of INQUIRY and REPORT LUNS (SPC-4), and of READ CAPACITY (SBC-3).
#![tactic(auto)]

mod capacity;
mod identity;
mod units;

pub use capacity::{capacity10, capacity16};
pub use identity::{inquiry, page};
pub use units::luns;

#[cfg(test)]
mod tests;
