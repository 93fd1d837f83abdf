//! What outlives a power loss (SPC-4, preserving persistent reservations): the registrations' file
//! on a disk, and a keeper that reads and saves it so that no power loss tears it.
#![tactic(auto)]

mod aim;
mod fault;
mod keeper;
mod opening;
mod parts;
mod reading;
mod spelling;

pub use fault::OpenFault;
pub use keeper::Keeper;

#[cfg(test)]
mod tests;
