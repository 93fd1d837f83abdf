//! Frames of the link: out of a stream of bytes in whatever pieces it comes, and into their bytes.
#![tactic(auto)]

mod bodies;
mod deframer;
mod frame;
mod front;
mod laws;
mod layout;
mod raw_cdb;
mod reply;
mod request;
#[cfg(test)]
mod tests;
#[cfg(test)]
mod value_tests;
mod writing;

pub use deframer::Deframer;
pub use frame::{Frame, Got};
pub use front::Front;
pub use laws::{
    cuts_are_alike, read_is_written, replies_are_the_same, replies_keep_the_rules,
    requests_are_read_back, requests_are_the_same, written_is_read,
};
pub use pr_words::Side;
pub use raw_cdb::RawCdb;
pub use reply::Reply;
pub use request::Request;
pub use writing::{write_command, write_frame, write_login};
