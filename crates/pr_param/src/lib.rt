//! The parameter list of PERSISTENT RESERVE OUT, and the data of PERSISTENT RESERVE IN (SPC-4).
#![tactic(auto)]

mod full;
mod keys;
mod laws;
mod out_list;
mod put;
mod reading;
mod registrants;
mod writing;

pub use full::Full;
pub use keys::Keys;
pub use laws::{lists_are_spelled, replies_are_spelled};
pub use out_list::{read_out_list, write_out_list};
pub use pr_grammar::{Capabilities, FullEntry, Held, OutList, ParamFault, ReplyFault};
pub use reading::{read_capabilities, read_full, read_keys, read_reservation};
pub use registrants::Registrants;
pub use writing::{write_capabilities, write_full, write_keys, write_reservation};

#[cfg(test)]
mod tests;
