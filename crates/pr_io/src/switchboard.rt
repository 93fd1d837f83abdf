//! What connects a wire in memory with its targets, and records what passes between them.

ghost use Rattle.std.specs.Prelude.{◌≡◌, ◌≤◌, ◌<◌, ℕ, List, [], ◌∷◌, ◌++◌, None, Some, length, map, vec_capacity, vec_len, IfOk, IfSome, OnOk, OnErr};
ghost use Rattle.pr_io.specs.Devices.{AllGoOn, DeviceStands, DeviceComes};
ghost use Rattle.pr_io.specs.Recordings.{AreNamed, IsLater, addresses_of, line_of, standing, talk_of, told_of};
ghost use Rattle.pr_io.specs.Talks.{connections, sent_on, received_on};
ghost use Rattle.pr_io.specs.declared.recorded.Recorded.{Recorded};

use crate::Peer;
use crate::devices::{hang_up_at, has_room_at, hear_at, place_of, say_at};
use crate::recorded::Recorded;

/// Why nothing passed.
#[derive(Clone, Copy, Debug, PartialEq, Eq)]
pub(crate) enum Refused {
    /// No device has the address, none is connected, or it has no room.
    Unfit,
    /// There was no memory to record it.
    Starved,
}

/// Sends bytes to the device of a connection.
pub(crate) fn speak<P: Peer + Drop>(
    devices: &mut Vec<(String, P)>,
    recorded: &mut Recorded,
    bytes: &[u8],
) -> Result<(), Refused>
    requires within { recorded.old.device < length devices.old.items }
    ensures size { length devices.new.items ≡ length devices.old.items }
    ensures same { addresses_of devices.new.items ≡ addresses_of devices.old.items }
    ensures sent { OnOk result (IsLater (λ c. sent_on c bytes.now) recorded.old recorded.new) }
    ensures none { OnErr result (IsLater (λ c. c) recorded.old recorded.new) }
    ensures kept { OnErr result (devices.new.items ≡ devices.old.items) }
    ensures come { OnOk result ((earlier : List Recorded) →
        AllGoOn (DeviceStands P.stands) (DeviceComes P.comes)
        devices.old.items (line_of earlier (Some recorded.old))
        devices.new.items (line_of earlier (Some recorded.new))) }
{
    if !has_room_at(devices, recorded.device, bytes.len()) {
        return Err(Refused::Unfit);
    }
    if recorded.sent.extend_from_slice(bytes).is_err() {
        return Err(Refused::Starved);
    }
    hear_at(devices, recorded.device, bytes);
    recorded.ended = false;
    Ok(())
}

/// Receives what the device of a connection has to say.
pub(crate) fn listen<P: Peer + Drop>(
    devices: &mut Vec<(String, P)>,
    recorded: &mut Recorded,
    buf: &mut [u8],
) -> Result<usize, Refused>
    requires within { recorded.old.device < length devices.old.items }
    ensures size { length devices.new.items ≡ length devices.old.items }
    ensures same { addresses_of devices.new.items ≡ addresses_of devices.old.items }
    ensures count { IfOk result (λ n. n ≤ length buf.old) }
    ensures received { IfOk result (λ n. IsLater
        (λ c. received_on c n (length buf.new) buf.new) recorded.old recorded.new) }
    ensures none { OnErr result (IsLater (λ c. c) recorded.old recorded.new) }
    ensures kept { OnErr result (devices.new.items ≡ devices.old.items) }
    ensures come { OnOk result ((earlier : List Recorded) →
        AllGoOn (DeviceStands P.stands) (DeviceComes P.comes)
        devices.old.items (line_of earlier (Some recorded.old))
        devices.new.items (line_of earlier (Some recorded.new))) }
{
    if recorded.received.reserve(buf.len()).is_err() {
        return Err(Refused::Starved);
    }
    let n = say_at(devices, recorded.device, buf);
    if recorded.received.extend_from_slice(&buf[..n]).is_err() {
        unreachable!();
    }
    recorded.ended = n == 0 && !buf.is_empty();
    Ok(n)
}

/// Gives a connection up, and records it behind the others.
fn give_up<P: Peer + Drop>(
    devices: &mut Vec<(String, P)>,
    earlier: &mut Vec<Recorded>,
    before: Recorded,
)
    requires within { before.device < length devices.old.items }
    requires room { vec_len earlier.old < vec_capacity earlier.old }
    ensures size { length devices.new.items ≡ length devices.old.items }
    ensures same { addresses_of devices.new.items ≡ addresses_of devices.old.items }
    ensures earlier { earlier.new.items ≡ earlier.old.items ++ before ∷ [] }
    ensures come { AllGoOn (DeviceStands P.stands) (DeviceComes P.comes)
        devices.old.items (line_of earlier.old.items (Some before))
        devices.new.items (line_of earlier.new.items None) }
{
    hang_up_at(devices, before.device);
    if earlier.push(before).is_err() {
        unreachable!();
    }
}

/// Gives up the connection that stands, if any.
pub(crate) fn part<P: Peer + Drop>(
    devices: &mut Vec<(String, P)>,
    earlier: &mut Vec<Recorded>,
    current: Option<Recorded>,
)
    requires within { IfSome current (λ r. r.device < length devices.old.items) }
    requires room { vec_len earlier.old < vec_capacity earlier.old }
    ensures size { length devices.new.items ≡ length devices.old.items }
    ensures same { addresses_of devices.new.items ≡ addresses_of devices.old.items }
    ensures earlier { map told_of earlier.new.items ≡
        connections (talk_of earlier.old.items current) }
    ensures named { (addresses : List (List ℕ)) → AreNamed addresses (standing current)
        → AreNamed addresses earlier.old.items → AreNamed addresses earlier.new.items }
    ensures come { AllGoOn (DeviceStands P.stands) (DeviceComes P.comes)
        devices.old.items (line_of earlier.old.items current)
        devices.new.items (line_of earlier.new.items None) }
{
    if let Some(before) = current {
        give_up(devices, earlier, before);
    }
}
