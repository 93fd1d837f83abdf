//! Targets in memory, found by their addresses, each with a peer.

ghost use Rattle.std.specs.Prelude.{◌≡◌, ◌≤◌, ◌<◌, ℕ, length, slice_get, IfSome};
ghost use Rattle.std.specs.String.{string_bytes};
ghost use Rattle.std.specs.Bool.{OnTrue};
ghost use Rattle.pr_io.specs.Devices.{AllStand, AllCome, DeviceStands, DeviceComes, changed_at};
ghost use Rattle.pr_io.specs.Lines.{Line, hearing, saying, hung_up};
ghost use Rattle.pr_io.specs.Recordings.{addresses_of};

use crate::Peer;

/// The device at this place hears bytes.
pub(crate) fn hear_at<P: Peer + Drop>(devices: &mut Vec<(String, P)>, i: usize, bytes: &[u8])
    requires within { i < length devices.old.items }
    requires room { IfSome (slice_get devices.old.items i) (λ d. length bytes.now ≤ P.room d.1) }
    ensures stand { (lines : ℕ → Line) → AllStand (DeviceStands P.stands) devices.old.items lines →
        AllStand (DeviceStands P.stands) devices.new.items
        (changed_at i (λ l. hearing l bytes.now) lines) }
    ensures come { (lines : ℕ → Line) → AllStand (DeviceStands P.stands) devices.old.items lines →
        AllCome (DeviceComes P.comes) devices.old.items lines
        devices.new.items (changed_at i (λ l. hearing l bytes.now) lines) }
    ensures size { length devices.new.items ≡ length devices.old.items }
    ensures same { addresses_of devices.new.items ≡ addresses_of devices.old.items }
{
    devices[i].1.hear(bytes);
}

/// The device at this place says what it has to say, as far as the buffer has room.
pub(crate) fn say_at<P: Peer + Drop>(
    devices: &mut Vec<(String, P)>,
    i: usize,
    buf: &mut [u8],
) -> usize
    requires within { i < length devices.old.items }
    ensures count { result ≤ length buf.old }
    ensures stand { (lines : ℕ → Line) → AllStand (DeviceStands P.stands) devices.old.items lines →
        AllStand (DeviceStands P.stands) devices.new.items
        (changed_at i (λ l. saying l result (length buf.new) buf.new) lines) }
    ensures come { (lines : ℕ → Line) → AllStand (DeviceStands P.stands) devices.old.items lines →
        AllCome (DeviceComes P.comes) devices.old.items lines
        devices.new.items (changed_at i (λ l. saying l result (length buf.new) buf.new) lines) }
    ensures size { length devices.new.items ≡ length devices.old.items }
    ensures same { addresses_of devices.new.items ≡ addresses_of devices.old.items }
{
    devices[i].1.say(buf)
}

/// The device at this place hangs up.
pub(crate) fn hang_up_at<P: Peer + Drop>(devices: &mut Vec<(String, P)>, i: usize)
    requires within { i < length devices.old.items }
    ensures stand { (lines : ℕ → Line) → AllStand (DeviceStands P.stands) devices.old.items lines →
        AllStand (DeviceStands P.stands) devices.new.items (changed_at i hung_up lines) }
    ensures come { (lines : ℕ → Line) → AllStand (DeviceStands P.stands) devices.old.items lines →
        AllCome (DeviceComes P.comes) devices.old.items lines
        devices.new.items (changed_at i hung_up lines) }
    ensures size { length devices.new.items ≡ length devices.old.items }
    ensures same { addresses_of devices.new.items ≡ addresses_of devices.old.items }
{
    devices[i].1.hang_up();
}

/// Whether the device at this place has room to hear so many bytes.
pub(crate) fn has_room_at<P: Peer + Drop>(devices: &Vec<(String, P)>, i: usize, size: usize) -> bool
    requires within { i < length devices.now.items }
    ensures { OnTrue result (IfSome (slice_get devices.now.items i) (λ d. size ≤ P.room d.1)) }
{
    size <= devices[i].1.room()
}

/// The place of the device with this address.
pub(crate) fn place_of<P: Peer + Drop>(devices: &Vec<(String, P)>, address: &str) -> Option<usize>
    ensures within { IfSome result (λ i. i < length devices.now.items) }
    ensures named { IfSome result (λ i. IfSome (slice_get devices.now.items i)
        (λ d. string_bytes d.0 ≡ address.now)) }
{
    for (i, device) in devices.iter().enumerate() {
        if device.0.as_str() == address {
            return Some(i);
        }
    }
    None
}
