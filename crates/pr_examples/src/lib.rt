//! What only a test can say: runs over streams and disks that fail, and those that end at a bound.
//!
//! Conversations, byte for byte, stand among the data of the crate `conversations`.
#![tactic(auto)]

#[cfg(test)]
mod attentions;
#[cfg(test)]
mod bounds;
#[cfg(test)]
mod faults;
#[cfg(test)]
mod pieces;
#[cfg(test)]
mod saves;
#[cfg(test)]
mod streams;
