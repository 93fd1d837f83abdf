//! The client's end of the link: what an initiator asks a target, and what it is answered.
#![tactic(auto)]

mod answer;
mod asking;
mod commands;
mod initiator;
mod judging;
mod link_fault;
mod meaning;
mod receiving;
mod speaking;

pub use answer::Answer;
pub use initiator::Initiator;
pub use link_fault::LinkFault;
pub use meaning::Meaning;

#[cfg(test)]
mod tests;
