ghost use Rattle.std.specs.Prelude.{◌≡◌, ◌≤◌, ◌+◌, ◌==◌, length, IfOk, IfErr, OnOk};
ghost use Rattle.pr_grammar.specs.Standings.{Nothing};
ghost use Rattle.pr_grammar.specs.Files.{cut, slot, slot_size, next_turn, Closed, Open, file_head, file_layout};
ghost use Rattle.pr_io.specs.Blocks.{disk_size};
ghost use Rattle.pr_io.specs.Causes.{HasCause};
ghost use Rattle.pr_io.specs.Images.{Image, Stays, Reads};
ghost use Rattle.pr_aptpl.specs.Doubts.{IsKeepable};
ghost use Rattle.pr_aptpl.specs.Views.{slot_of, IsSound};
ghost use Rattle.pr_aptpl.specs.Opens.{IsFaultOf, IsNotBad, Joins, HeadSays, OpensAt, FailsAt, first_diff};
ghost use Rattle.pr_aptpl.specs.declared.opening.TheConstants.{EQUAL_TURNS, SLOT};

use crate::OpenFault;
use crate::aim::Aim;
use crate::reading::{Slot, read_slot};
use pr_grammar::FILE_LAYOUT;
use pr_io::{Disk, FRESH_HEAD, Failed};
use pr_table::Kept;
use pr_words::LIMIT;
use std::alloc::Global;

/// The bytes of a slot: its fields, and as many registrations as there may be.
pub(crate) const SLOT: usize = 1_168;

const _: () = prove!(SLOT == 16 + 18 * LIMIT);

/// The place of a fault where both slots are open and have one turn: that of the second one's.
const EQUAL_TURNS: u64 = FILE_LAYOUT.slot1 + 1;

/// The place of the first byte that isn't the one that it has to be.
fn first_difference(right: &[u8], head: &[u8]) -> Option<u64>
    requires { length head.now ≡ length right.now }
    ensures { result ≡ first_diff right.now head.now 0 }
{
    for (i, byte) in right.iter().enumerate() {
        if head[i] != *byte {
            return Some(i as u64);
        }
    }
    None
}

/// Reads the head.
fn read_head<D: Disk>(disk: &mut D) -> Result<(), OpenFault>
    ensures says { (image : Image) → (D.story disk.old).now ≡ Some image
        → HeadSays result (first_diff file_head (cut image 0 9) 0) }
    ensures stays { Stays (D.story disk.old) (D.story disk.new) }
    ensures reference { D.reference disk.new ≡ D.reference disk.old }
    ensures calm { IfOk result (λ _. D.faults disk.new ≡ D.faults disk.old) }
    ensures fault { IfErr result (λ e. IsFaultOf e (D.faults disk.old) (D.faults disk.new)) }
{
    let mut head = [0u8; 9];
    match disk.read_at(0, &mut head) {
        Err(_) => Err(OpenFault::DiskFault),
        Ok(()) => match first_difference(&FRESH_HEAD, &head) {
            Some(place) => Err(OpenFault::BadFile { place }),
            None => Ok(()),
        },
    }
}

/// Fills a buffer from the disk.
fn read_into<D: Disk>(disk: &mut D, buffer: &mut Vec<u8>, at: u64) -> Result<(), Failed>
    requires { at + length buffer.old.items ≤ disk_size }
    ensures bytes { OnOk result (Reads (D.story disk.old).now at buffer.new.items) }
    ensures room { length buffer.new.items ≡ length buffer.old.items }
    ensures stays { Stays (D.story disk.old) (D.story disk.new) }
    ensures reference { D.reference disk.new ≡ D.reference disk.old }
    ensures cause { HasCause (D.faults disk.old) (D.faults disk.new) result }
{
    disk.read_at(at, buffer)
}

/// Reads the slot at this place through a buffer.
fn read_part<D: Disk>(
    alloc: Global,
    disk: &mut D,
    buffer: &mut Vec<u8>,
    at: u64,
) -> Result<Slot, OpenFault>
    requires room { length buffer.old.items ≡ SLOT }
    requires place { at + SLOT ≤ disk_size }
    ensures slot { IfOk result (λ s. (image : Image) → (D.story disk.old).now ≡ Some image
        → slot_of s ≡ slot LIMIT at (cut image at SLOT)) }
    ensures sound { IfOk result (λ s. IsSound (slot_of s)) }
    ensures room { length buffer.new.items ≡ SLOT }
    ensures stays { Stays (D.story disk.old) (D.story disk.new) }
    ensures reference { D.reference disk.new ≡ D.reference disk.old }
    ensures calm { IfOk result (λ _. D.faults disk.new ≡ D.faults disk.old) }
    ensures fault { IfErr result (λ e. IsFaultOf e (D.faults disk.old) (D.faults disk.new)
        × IsNotBad e) }
{
    match read_into(disk, buffer, at) {
        Err(_) => Err(OpenFault::DiskFault),
        Ok(()) => match read_slot(alloc, buffer, at, FILE_LAYOUT.limit) {
            Ok(slot) => Ok(slot),
            Err(_) => Err(OpenFault::OutOfMemory),
        },
    }
}

fn turn_follows(turn: u8, earlier: u8) -> bool
    ensures { result ≡ (next_turn earlier == turn) }
{
    match earlier {
        0 => turn == 1,
        1 => turn == 2,
        _ => turn == 0,
    }
}

fn aim(target: bool, turn: Option<u8>, may_be_open: bool) -> Aim
    ensures { result ≡ record { target = target; turn = turn; may_be_open = may_be_open } }
{
    Aim {
        target,
        turn,
        may_be_open,
    }
}

/// What the slots give where the first one is closed.
fn join_closed(alloc: Global, second: Slot) -> Result<(Aim, Kept), u64>
    ensures joins { Joins EQUAL_TURNS result Closed (slot_of second) }
    ensures sound { IsSound (slot_of second) → IfOk result (λ r. IsKeepable r.1) }
{
    match second {
        Slot::Broken { place } => Err(place),
        Slot::Closed => Ok((aim(false, None, false), Kept::nothing(alloc))),
        Slot::Open { turn, kept } => Ok((aim(false, Some(turn), false), kept)),
    }
}

/// What the slots give where the first one is open.
fn join_open(turn: u8, kept: Kept, second: Slot) -> Result<(Aim, Kept), u64>
    ensures joins { Joins EQUAL_TURNS result (Open turn kept) (slot_of second) }
    ensures sound { IsKeepable kept → IsSound (slot_of second) → IfOk result
        (λ r. IsKeepable r.1) }
{
    match second {
        Slot::Broken { place } => Err(place),
        Slot::Closed => Ok((aim(true, Some(turn), false), kept)),
        Slot::Open {
            turn: other,
            kept: content,
        } => {
            if turn == other {
                Err(EQUAL_TURNS)
            } else if turn_follows(turn, other) {
                Ok((aim(true, Some(turn), true), kept))
            } else {
                Ok((aim(false, Some(other), true), content))
            }
        }
    }
}

/// Which slot is current, and what it holds.
fn join(alloc: Global, first: Slot, second: Slot) -> Result<(Aim, Kept), u64>
    ensures joins { Joins EQUAL_TURNS result (slot_of first) (slot_of second) }
    ensures sound { IsSound (slot_of first) → IsSound (slot_of second)
        → IfOk result (λ r. IsKeepable r.1) }
{
    match first {
        Slot::Broken { place } => Err(place),
        Slot::Closed => join_closed(alloc, second),
        Slot::Open { turn, kept } => join_open(turn, kept, second),
    }
}

/// Reads both slots.
fn read_slots<D: Disk>(
    alloc: Global,
    disk: &mut D,
    buffer: &mut Vec<u8>,
) -> Result<(Slot, Slot), OpenFault>
    requires room { length buffer.old.items ≡ SLOT }
    ensures slots { IfOk result (λ r. (image : Image) → (D.story disk.old).now ≡ Some image
        → (slot_of r.0 ≡ slot LIMIT file_layout.slot0 (cut image file_layout.slot0 SLOT))
        × (slot_of r.1 ≡ slot LIMIT file_layout.slot1 (cut image file_layout.slot1 SLOT))) }
    ensures sound { IfOk result (λ r. IsSound (slot_of r.0) × IsSound (slot_of r.1)) }
    ensures room { length buffer.new.items ≡ SLOT }
    ensures stays { Stays (D.story disk.old) (D.story disk.new) }
    ensures reference { D.reference disk.new ≡ D.reference disk.old }
    ensures calm { IfOk result (λ _. D.faults disk.new ≡ D.faults disk.old) }
    ensures fault { IfErr result (λ e. IsFaultOf e (D.faults disk.old) (D.faults disk.new)
        × IsNotBad e) }
{
    let first = match read_part(alloc, disk, buffer, FILE_LAYOUT.slot0) {
        Ok(first) => first,
        Err(fault) => return Err(fault),
    };
    match read_part(alloc, disk, buffer, FILE_LAYOUT.slot1) {
        Ok(second) => Ok((first, second)),
        Err(fault) => Err(fault),
    }
}

/// Opens the file on a disk, through a buffer. It begins with a sync, and writes nothing.
pub(crate) fn open_file<D: Disk>(
    alloc: Global,
    disk: &mut D,
    buffer: &mut Vec<u8>,
) -> Result<(Aim, Kept), OpenFault>
    requires room { length buffer.old.items ≡ SLOT }
    ensures opens { IfOk result (λ r. OpensAt file_head file_layout (D.story disk.old)
        (D.story disk.new) r.0 r.1) }
    ensures sound { IfOk result (λ r. IsKeepable r.1) }
    ensures fails { IfErr result (λ e. FailsAt file_head file_layout e (D.story disk.old)) }
    ensures room { length buffer.new.items ≡ SLOT }
    ensures stays { Stays (D.story disk.old) (D.story disk.new) }
    ensures reference { D.reference disk.new ≡ D.reference disk.old }
    ensures calm { IfOk result (λ _. D.faults disk.new ≡ D.faults disk.old) }
    ensures fault { IfErr result (λ e. IsFaultOf e (D.faults disk.old) (D.faults disk.new)) }
{
    match disk.sync() {
        Ok(()) => {}
        Err(_) => return Err(OpenFault::DiskFault),
    }
    match read_head(disk) {
        Ok(()) => {}
        Err(fault) => return Err(fault),
    }
    let (first, second) = match read_slots(alloc, disk, buffer) {
        Ok(slots) => slots,
        Err(fault) => return Err(fault),
    };
    match join(alloc, first, second) {
        Ok(opened) => Ok(opened),
        Err(place) => Err(OpenFault::BadFile { place }),
    }
}
