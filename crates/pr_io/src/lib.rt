//! The outside of the target and of its clients: what is read, written and kept.
//!
//! Each kind of object is a trait whose ghost members tell what the object holds, where that is
//! known, and how often it has failed. Contracts above speak of these alone. There are forms in
//! memory, which tell what they hold, and thin adapters over real streams, which don't.
#![tactic(auto)]

mod blocks;
mod breath;
mod bulk_medium;
mod calls;
mod devices;
mod disk_call;
mod door;
mod faults;
mod file_disk;
mod file_medium;
mod fresh;
mod mem_disk;
mod mem_door;
mod mem_wire;
mod memory;
mod outside;
mod peer;
mod putting;
mod read_ahead;
mod reading;
mod recorded;
mod script_peer;
mod standard;
mod sure;
mod switchboard;
mod tcp_door;
mod tcp_wire;
mod wire;
mod writing;

pub use breath::{Breath, NoBreath};
pub use bulk_medium::BulkMedium;
pub use door::Door;
pub use file_disk::FileDisk;
pub use file_medium::{FileMedium, MediumFault};
pub use fresh::{DISK, FRESH_HEAD};
pub use mem_disk::MemDisk;
pub use mem_door::MemDoor;
pub use mem_wire::MemWire;
pub use memory::{MemMedium, MemSink, MemSource};
pub use outside::{Disk, Failed, Medium, Sink, Source};
pub use peer::Peer;
pub use putting::{put, settle};
pub use read_ahead::ReadAhead;
pub use reading::read_up_to;
pub use script_peer::ScriptPeer;
pub use standard::{StdinSource, StdoutSink};
pub use sure::{SureDisk, SureMedium, SureSink, SureSource};
pub use tcp_door::{TcpDoor, TcpSink, TcpSource};
pub use tcp_wire::TcpWire;
pub use wire::Wire;
pub use writing::{put_all, put_three, put_two};

#[cfg(test)]
mod disk_tests;
#[cfg(test)]
mod door_tests;
#[cfg(test)]
mod medium_tests;
#[cfg(test)]
mod tests;
#[cfg(test)]
mod wire_tests;
