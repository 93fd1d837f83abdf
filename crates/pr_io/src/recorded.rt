ghost use Rattle.std.specs.Prelude.{◌≡◌, ◌≤◌, ◌+◌, [], false, length, vec_len, vec_capacity, IfOk};
ghost use Rattle.std.specs.String.{string_bytes};

use std::alloc::{AllocError, Global};

/// A connection of a wire in memory: the place of its device, that one's address, what was sent and
/// received, and whether the device, asked last, had nothing to say and was sent nothing since.
#[derive(Drop)]
pub(crate) struct Recorded {
    pub(crate) device: usize,
    pub(crate) address: String,
    pub(crate) sent: Vec<u8>,
    pub(crate) received: Vec<u8>,
    pub(crate) ended: bool,
}

impl Recorded {
    /// A connection on which nothing was said yet.
    pub(crate) fn new(alloc: Global, device: usize, address: &str) -> Result<Recorded, AllocError>
        ensures device { IfOk result (λ r. r.device ≡ device) }
        ensures address { IfOk result (λ r. string_bytes r.address ≡ address.now) }
        ensures sent { IfOk result (λ r. r.sent.items ≡ []) }
        ensures received { IfOk result (λ r. r.received.items ≡ []) }
        ensures ended { IfOk result (λ r. r.ended ≡ false) }
    {
        Ok(Recorded {
            device,
            address: String::from_str(alloc, address)?,
            sent: Vec::new(alloc),
            received: Vec::new(alloc),
            ended: false,
        })
    }
}
