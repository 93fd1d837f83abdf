//! Looks at the registrations of a target and changes them, by the letters of sg_persist.
#![tactic(auto)]

mod arguments;
mod asked;
mod digits;
mod exit;
mod explaining;
mod full;
mod persist;
mod plan;
mod printing;
mod running;
mod showing;
mod steps;
mod texts;
mod word_fault;
mod words;

pub use asked::Asked;
pub use exit::PersistExit;
pub use explaining::explain;
pub use persist::persist_main;
pub use plan::Action;
