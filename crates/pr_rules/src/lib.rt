//! The rules of the target that need no memory: what reservations allow, and the unit attentions of one nexus.
#![tactic(auto)]

mod attentions;
mod conflicts;

pub use attentions::Attentions;
pub use conflicts::allows;
pub use pr_words::Role;

#[cfg(test)]
mod tests;
