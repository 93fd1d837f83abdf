//! Names, keys, kinds and codes of the target, and big-endian fields of bytes.
#![tactic(auto)]

mod code;
mod fields;
mod limits;
mod nexus;
mod reservation;
mod role;
mod service;
mod task;

pub use code::{
    Code, HARDWARE_ERROR, ILLEGAL_REQUEST, MEDIUM_ERROR, Sense, Status, UNIT_ATTENTION,
};
pub use fields::{get_u16, get_u32, get_u64, put_u16, put_u32, put_u64};
pub use limits::{
    BLOCK, BODY, COMMAND_HEAD, DATA, FRAME_HEAD, FRAME_LENGTH, HELD, KNOWN, LANES, LIMIT,
    PARAMETER_LIST, PIECE, REPLY_HEAD, REPORTABLE, TRANSFER,
};
pub use nexus::{Key, Nexus, Pair, Side, is_same, stands_before};
pub use reservation::{Kind, Reservation};
pub use role::Role;
pub use service::{InService, OutService};
pub use task::Way;
