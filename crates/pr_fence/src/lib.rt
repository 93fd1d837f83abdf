//! Fences nodes of a cluster off the devices that they share, by registrations and PREEMPT AND
//! ABORT (SPC-4).
#![tactic(auto)]

mod asked;
mod devices;
mod exit;
mod explaining;
mod fence;
mod fence_fault;
mod keys;
mod orders;
mod plan;
mod running;
mod seeing;
mod steps;
mod telling;
mod words;

pub use asked::Asked;
pub use devices::{off_device, on_device, status_device};
pub use exit::FenceExit;
pub use explaining::explain;
pub use fence::fence_main;
pub use fence_fault::FenceFault;
pub use keys::key_for;

#[cfg(test)]
mod tests;
