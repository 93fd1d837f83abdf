//! The registrations and the persistent reservation of the target, and what PERSISTENT RESERVE OUT
//! makes of them (SPC-4).
#![tactic(auto)]

mod holding;
mod kept;
mod leaving;
mod pairs;
mod places;
mod request;
mod table;
mod verdict;

pub use kept::Kept;
pub use pr_param::{OutList, Registrants};
pub use pr_words::{OutService, Pair};
pub use request::{OutAction, OutRequest};
pub use table::Table;
pub use verdict::{Change, Verdict};

#[cfg(test)]
mod tests;
