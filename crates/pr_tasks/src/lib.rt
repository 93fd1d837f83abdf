//! A READ or WRITE under way: the blocks that it still has to move, one a step.
#![tactic(auto)]

mod step_out;
mod task;

pub use step_out::StepOut;
pub use task::Task;

#[cfg(test)]
mod tests;
