//! A session: the bytes of one connection, what they ask of a target, and the replies.
//!
//! Any owner of a target can drive one: it feeds the bytes, has the acts done, and sends the
//! replies. With a target that threads share, `serve_held` does so from a source and a sink.
#![tactic(auto)]

mod act;
mod acting;
mod asked;
mod connection;
mod driving;
mod held;
mod job;
mod lane_peer;
mod opening;
mod serving;
mod session;
mod session_end;
mod sharing;
mod state;
mod work;

pub use act::{Act, Out, Want};
pub use connection::serve_connection;
pub use driving::{close, drive};
pub use held::serve_held;
pub use lane_peer::LanePeer;
pub use opening::open_gate;
pub use serving::serve_turn;
pub use session::Session;
pub use session_end::{FRAMES, SessionEnd};
pub use sharing::drive_shared;
pub use state::Rejection;

#[cfg(test)]
mod crowd_tests;
#[cfg(test)]
mod preempt_tests;
#[cfg(test)]
mod requests;
#[cfg(test)]
mod samples;
#[cfg(test)]
mod serve_tests;
#[cfg(test)]
mod tests;
