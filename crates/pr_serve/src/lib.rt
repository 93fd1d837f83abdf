//! A target that serves the connections that come in at a door, each in a thread of its own.
//!
//! `serve_gate` does so with a target in a gate, and `serve_main` from a medium and a disk on. Each
//! connection has a pass of the gate, and so a number, of its own: of the target's one history just
//! the entries of that number are what the connection asked for.
#![tactic(auto)]

mod accepting;
mod attending;
mod connection;
mod exit;
mod opened;
mod serving;
mod sessions;
mod stop;
mod telling;
mod words;

pub use exit::{ServeExit, ServeFault};
pub use opened::serve_main;
pub use serving::serve_gate;
pub use words::{ServeWords, serve_words};

#[cfg(test)]
mod samples;
#[cfg(test)]
mod side_by_side_tests;
#[cfg(test)]
mod tests;
