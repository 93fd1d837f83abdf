//! The target's core: each call makes one entry of a legal history.
#![tactic(auto)]

mod admitted;
mod answers;
mod checks;
mod commands;
mod deed;
mod entry;
mod excerpt;
mod ground;
mod replies;
mod seats;
mod sharing;
mod state;
mod target;

pub use answers::CommandOut;
pub use entry::Entry;
pub use excerpt::Excerpt;
pub use ground::Ground;
pub use pr_aptpl::OpenFault;
pub use pr_tasks::StepOut;
pub use target::{Core, Opening};
