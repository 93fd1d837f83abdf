//! The program's commands as library calls.
#![tactic(auto)]

mod asking;
mod exit;
mod lane;
mod lines;
mod output;
mod replay;
mod schedule;
mod show;
#[cfg(test)]
mod tests;

pub use exit::{Exit, Fault};
pub use replay::{replay_main, replay_within};
pub use show::show_main;
