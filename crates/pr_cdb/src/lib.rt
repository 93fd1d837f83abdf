//! Command descriptor blocks of SPC-4 and SBC-3: the thirteen that the target serves.
#![tactic(auto)]

mod laws;
mod operations;
mod reading;
mod writing;

pub use laws::read_is_spelled;
pub use operations::{class, is_unconditional, operation};
pub use pr_grammar::{Cdb, CdbFault, Class, Command, OperationCode};
pub use reading::{read, read_as};
pub use writing::write;

#[cfg(test)]
mod tests;
