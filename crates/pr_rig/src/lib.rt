//! The fence agent over targets in memory, each of which makes one legal history.
#![tactic(auto)]

mod laws;
mod rig;

pub use laws::{a_reservation_stands, keys_tell};
pub use rig::fence_rig;

#[cfg(test)]
mod tests;
