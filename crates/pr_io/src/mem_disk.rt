ghost use Rattle.std.specs.Prelude.{◌≡◌, ◌≤◌, ◌<◌, ◌+◌, ◌++◌, ◌⊎◌, ℕ, Some, None, [], ◌∷◌, length, slice_index, IfOk, OnOk, OnErr, IsErr};
ghost use Rattle.pr_io.specs.Blocks.{disk_size};
ghost use Rattle.pr_io.specs.Calls.{IsToFail, next_call};
ghost use Rattle.pr_io.specs.Causes.{HasCause, Rose};
ghost use Rattle.pr_io.specs.DiskCalls.{AreInside};
ghost use Rattle.pr_io.specs.Images.{GoesOn, Holds, Image, IsPending, Reads, Stays, Syncs, Writes, Written, image_of};

use crate::calls::Calls;
use crate::disk_call::DiskCall;
use crate::faults::Faults;
use crate::{Disk, Failed};
use std::alloc::AllocError;

/// A disk in memory, some of whose calls fail. It keeps a record of its calls, which tells what a
/// power loss after each of them may leave.
#[derive(Drop)]
pub struct MemDisk {
    bytes: Vec<u8>,
    log: Vec<DiskCall>,
    calls: Calls,
    faults: Faults,
    starved: u64,
    ghost size: { length bytes.items ≡ disk_size },
    ghost inside: { AreInside log.items },
}

impl MemDisk {
    /// A disk that holds this image, with nothing pending. Its record takes memory as it grows.
    ///
    /// `failing` holds the numbers of the calls that are to fail, reads, writes and syncs counted
    /// together. The first call is number 1.
    pub fn new(image: Vec<u8>, failing: Vec<u64>) -> MemDisk
        requires { length image.items ≡ disk_size }
        ensures now { (⟦<MemDisk as Disk>⟧.story result).now ≡ Some (image_of image.items) }
        ensures moment { (⟦<MemDisk as Disk>⟧.story result).moment ≡ 0 }
        ensures sole { (t : ℕ) (c : Image) → (⟦<MemDisk as Disk>⟧.story result).may t c
            → (i : ℕ) → c i ≡ slice_index image.items i }
        ensures faults { ⟦<MemDisk as Disk>⟧.faults result ≡ 0 }
        ensures starved { result.starved ≡ 0 }
        ensures made { result.calls.made ≡ 0 }
        ensures failing { result.calls.failing ≡ failing }
    {
        let alloc = *image.allocator();
        MemDisk {
            bytes: image,
            log: Vec::new(alloc),
            calls: Calls::new(failing),
            faults: Faults::new(),
            starved: 0,
        }
    }

    /// What the disk holds.
    pub fn bytes(&self) -> &[u8]
        ensures held { (⟦<MemDisk as Disk>⟧.story self.now).now ≡ Some (image_of result.now) }
        ensures size { length result.now ≡ disk_size }
    {
        &self.bytes
    }

    /// How many calls failed because the memory that they need was refused.
    pub fn starved(&self) -> u64
        ensures { result ≡ self.now.starved }
    {
        self.starved
    }
}

impl Disk for MemDisk {
    ghost use Rattle.pr_io.specs.DiskCalls.{recorded, since_before, read_is_one};

    ghost story = { λ d. recorded d.bytes.items d.log.items };

    ghost reference = { λ _. None };

    ghost faults = { λ d. d.faults.count };

    ghost since = { λ d t u c le may. since_before d.bytes.items d.log.items t u c le may };

    ghost as_read = { λ d c e now may. read_is_one d.bytes.items d.log.items c now };

    fn read_at(&mut self, at: u64, buf: &mut [u8]) -> Result<(), Failed>
        requires { at + length buf.old ≤ disk_size }
        ensures bytes { OnOk result (Reads (⟦<MemDisk as Disk>⟧.story self.old).now at buf.new) }
        ensures stays { Stays (⟦<MemDisk as Disk>⟧.story self.old)
            (⟦<MemDisk as Disk>⟧.story self.new) }
        ensures pending { GoesOn (⟦<MemDisk as Disk>⟧.story self.old)
            (⟦<MemDisk as Disk>⟧.story self.new) }
        ensures reference { ⟦<MemDisk as Disk>⟧.reference self.new
            ≡ ⟦<MemDisk as Disk>⟧.reference self.old }
        ensures cause { HasCause (⟦<MemDisk as Disk>⟧.faults self.old)
            (⟦<MemDisk as Disk>⟧.faults self.new) result }
        ensures listed { IsToFail self.old.calls.failing.items self.old.calls.made → IsErr result }
        ensures starving { self.old.starved < self.new.starved → IsErr result }
        ensures why { IsErr result → IsToFail self.old.calls.failing.items self.old.calls.made
            ⊎ Rose self.old.starved self.new.starved }
        ensures made { self.new.calls.made ≡ next_call self.old.calls.made }
        ensures failing { self.new.calls.failing ≡ self.old.calls.failing }
    {
        let at = at as usize;
        let fails = self.calls.next_fails();
        note(
            &mut self.log,
            DiskCall::Other,
            &mut self.starved,
            &mut self.faults,
        )?;
        if fails {
            return Err(self.faults.raise());
        }
        buf.copy_from_slice(&self.bytes[at..at + buf.len()]);
        Ok(())
    }

    fn write_at(&mut self, at: u64, bytes: &[u8]) -> Result<(), Failed>
        requires { at + length bytes.now ≤ disk_size }
        ensures writes { Writes result at bytes.now (⟦<MemDisk as Disk>⟧.story self.old)
            (⟦<MemDisk as Disk>⟧.story self.new) }
        ensures pending { Rose self.old.starved self.new.starved
            ⊎ IsPending at (length bytes.now) (⟦<MemDisk as Disk>⟧.story self.old)
            (⟦<MemDisk as Disk>⟧.story self.new) }
        ensures reference { ⟦<MemDisk as Disk>⟧.reference self.new
            ≡ ⟦<MemDisk as Disk>⟧.reference self.old }
        ensures cause { HasCause (⟦<MemDisk as Disk>⟧.faults self.old)
            (⟦<MemDisk as Disk>⟧.faults self.new) result }
        ensures listed { IsToFail self.old.calls.failing.items self.old.calls.made → IsErr result }
        ensures starving { self.old.starved < self.new.starved → IsErr result }
        ensures why { IsErr result → IsToFail self.old.calls.failing.items self.old.calls.made
            ⊎ Rose self.old.starved self.new.starved }
        ensures made { self.new.calls.made ≡ next_call self.old.calls.made }
        ensures failing { self.new.calls.failing ≡ self.old.calls.failing }
    {
        let from = at as usize;
        let fails = self.calls.next_fails();
        let Ok(was) = copied(&self.bytes, from, bytes.len()) else {
            self.starved = self.starved.saturating_add(1);
            return Err(self.faults.raise());
        };
        let call = DiskCall::Write { at, was };
        note(&mut self.log, call, &mut self.starved, &mut self.faults)?;
        if fails {
            return Err(self.faults.raise());
        }
        overwrite(&mut self.bytes, from, bytes);
        Ok(())
    }

    fn sync(&mut self) -> Result<(), Failed>
        ensures syncs { Syncs result (⟦<MemDisk as Disk>⟧.story self.old)
            (⟦<MemDisk as Disk>⟧.story self.new) }
        ensures pending { OnErr result (GoesOn (⟦<MemDisk as Disk>⟧.story self.old)
            (⟦<MemDisk as Disk>⟧.story self.new)) }
        ensures reference { ⟦<MemDisk as Disk>⟧.reference self.new
            ≡ ⟦<MemDisk as Disk>⟧.reference self.old }
        ensures cause { HasCause (⟦<MemDisk as Disk>⟧.faults self.old)
            (⟦<MemDisk as Disk>⟧.faults self.new) result }
        ensures listed { IsToFail self.old.calls.failing.items self.old.calls.made → IsErr result }
        ensures starving { self.old.starved < self.new.starved → IsErr result }
        ensures why { IsErr result → IsToFail self.old.calls.failing.items self.old.calls.made
            ⊎ Rose self.old.starved self.new.starved }
        ensures made { self.new.calls.made ≡ next_call self.old.calls.made }
        ensures failing { self.new.calls.failing ≡ self.old.calls.failing }
    {
        if self.calls.next_fails() {
            note(
                &mut self.log,
                DiskCall::Other,
                &mut self.starved,
                &mut self.faults,
            )?;
            return Err(self.faults.raise());
        }
        note(
            &mut self.log,
            DiskCall::Sync,
            &mut self.starved,
            &mut self.faults,
        )
    }

    fn faults(&self) -> u64 {
        self.faults.count()
    }
}

/// Puts a call into the record. Where memory for it is refused, it is as if it weren't made, but for
/// the counts.
fn note(
    log: &mut Vec<DiskCall>,
    call: DiskCall,
    starved: &mut u64,
    faults: &mut Faults,
) -> Result<(), Failed>
    ensures ok { OnOk result (log.new.items ≡ log.old.items ++ call ∷ []) }
    ensures err { OnErr result (log.new.items ≡ log.old.items) }
    ensures cause { HasCause faults.old.count faults.new.count result }
    ensures starved { OnErr result (Rose starved.old starved.new) }
    ensures fed { OnOk result (starved.new ≡ starved.old) }
{
    match log.push(call) {
        Ok(()) => Ok(()),
        Err(_) => {
            *starved = starved.saturating_add(1);
            Err(faults.raise())
        }
    }
}

/// Puts these bytes in the place of others.
fn overwrite(bytes: &mut Vec<u8>, at: usize, piece: &[u8])
    requires { at + length piece.now ≤ length bytes.old.items }
    ensures written { Written at piece.now (image_of bytes.old.items) (image_of bytes.new.items) }
    ensures length { length bytes.new.items ≡ length bytes.old.items }
{
    bytes[at..at + piece.len()].copy_from_slice(piece);
}

/// So many bytes from a place on.
fn copied(bytes: &Vec<u8>, at: usize, len: usize) -> Result<Vec<u8>, AllocError>
    requires { at + len ≤ length bytes.now.items }
    ensures length { IfOk result (λ was. length was.items ≡ len) }
    ensures stood { IfOk result (λ was. Holds at was.items (image_of bytes.now.items)) }
{
    bytes[at..at + len].to_vec(*bytes.allocator())
}
