ghost use Rattle.std.specs.Prelude.{◌≡◌, ◌≤◌, ◌<◌, ◌+◌, ◌^◌, ℕ, List, Option, Some, length, IfOk, OnOk};
ghost use Rattle.std.specs.Borrow.{GName};
ghost use Rattle.pr_io.specs.Blocks.{disk_size};
ghost use Rattle.pr_io.specs.Causes.{HasCause};
ghost use Rattle.pr_io.specs.Contents.{ReadsBlock, WritesBlock};
ghost use Rattle.pr_io.specs.Images.{Image, Story, Reads, Stays, Writes, Syncs};
ghost use Rattle.pr_io.specs.Streams.{HasEnded, MovesInto, Reaches};

/// The object has failed. Its count of faults shows it; nothing more is known of the cause.
///
/// Each call that fails is counted once, and no other call is.
#[derive(Clone, Copy, Debug, PartialEq, Eq)]
pub struct Failed;

/// Bytes that come in, as from a connection or from standard input.
pub trait Source {
    /// The bytes that are left, where they are told.
    ghost rest: { Self → Option (List ℕ) };

    /// How often the source has failed.
    ghost faults: { Self → ℕ };

    /// Moves bytes into the front of the buffer, and says how many.
    ///
    /// Fewer than the buffer has room for is no end: only no bytes into a buffer that isn't empty
    /// is. Behind the bytes that were moved, and after a failure, the buffer may hold anything.
    ///
    /// # Errors
    ///
    /// Where the source has failed. Nothing was moved then, and it may be asked again.
    fn take(&mut self, buf: &mut [u8]) -> Result<usize, Failed>
        ensures count { IfOk result (λ n. n ≤ length buf.old) }
        ensures bytes { MovesInto (rest self.old) (rest self.new) result buf.new }
        ensures end { IfOk result (λ n. HasEnded (rest self.new) n (length buf.old)) }
        ensures cause { HasCause (faults self.old) (faults self.new) result };
}

/// Bytes that go out, as to a connection or to standard output.
pub trait Sink {
    /// The bytes that were put so far, where they are told.
    ghost written: { Self → Option (List ℕ) };

    /// How often the sink has failed.
    ghost faults: { Self → ℕ };

    /// Puts the first bytes of the piece, at least one where it has any, and says how many.
    ///
    /// # Errors
    ///
    /// Where the sink has failed or takes nothing. Nothing was put then, and it may be tried again.
    fn put(&mut self, piece: &[u8]) -> Result<usize, Failed>
        ensures count { IfOk result (λ n. n ≤ length piece.now) }
        ensures some { IfOk result (λ n. 0 < length piece.now → 0 < n) }
        ensures bytes { Reaches (written self.old) (written self.new) result piece.now }
        ensures cause { HasCause (faults self.old) (faults self.new) result };
}

/// The logical blocks of the unit (SBC-3), of 512 bytes each.
pub trait Medium {
    /// The number of blocks.
    ghost count: { Self → ℕ };

    /// The bytes of each block, where they are told.
    ghost contents: { Self → Option (ℕ → List ℕ) };

    /// Which reference the medium is, where it is one; no call changes that.
    ghost reference: { Self → Option GName };

    /// How often the medium has failed.
    ghost faults: { Self → ℕ };

    /// The number of blocks, which never changes.
    fn blocks(&self) -> u64
        ensures count { result ≡ count self.now }
        ensures some { 1 ≤ result }
        ensures most { result ≤ 2 ^ 40 };

    /// Reads the block with this address. After a failure the buffer may hold anything.
    ///
    /// # Errors
    ///
    /// Where the medium has failed.
    fn read_block(&mut self, lba: u64, block: &mut [u8; 512]) -> Result<(), Failed>
        requires { lba < count self.old }
        ensures given { ReadsBlock (contents self.old) lba result block.new }
        ensures contents { contents self.new ≡ contents self.old }
        ensures count { count self.new ≡ count self.old }
        ensures reference { reference self.new ≡ reference self.old }
        ensures cause { HasCause (faults self.old) (faults self.new) result };

    /// Writes the block with this address.
    ///
    /// # Errors
    ///
    /// Where the medium has failed. The block may then hold anything.
    fn write_block(&mut self, lba: u64, block: &[u8; 512]) -> Result<(), Failed>
        requires { lba < count self.old }
        ensures contents { WritesBlock (contents self.old)
            (contents self.new) lba result block.now }
        ensures count { count self.new ≡ count self.old }
        ensures reference { reference self.new ≡ reference self.old }
        ensures cause { HasCause (faults self.old) (faults self.new) result };

    /// How often the medium has failed so far. The count stands still at 2^64 - 1.
    fn faults(&self) -> u64
        ensures faults { result ≡ faults self.now };
}

/// Where registrations outlive a loss of power: 262,144 bytes.
///
/// Between two syncs that succeed, a power loss may leave any bytes in each range that was written,
/// also by a write that failed; bytes elsewhere stay. After a sync that succeeds it leaves what a
/// read gives. A sync that fails leaves pending what was pending.
pub trait Disk {
    /// What the disk tells: what a read gives, a moment, and the images that a power loss may leave
    /// since a moment.
    ghost story: { Self → Story };

    /// Which reference the disk is, where it is one; no call changes that.
    ghost reference: { Self → Option GName };

    /// How often the disk has failed.
    ghost faults: { Self → ℕ };

    /// Reads the bytes from a place on. After a failure the buffer may hold anything.
    ///
    /// # Errors
    ///
    /// Where the disk has failed.
    fn read_at(&mut self, at: u64, buf: &mut [u8]) -> Result<(), Failed>
        requires { at + length buf.old ≤ disk_size }
        ensures bytes { OnOk result (Reads (story self.old).now at buf.new) }
        ensures stays { Stays (story self.old) (story self.new) }
        ensures reference { reference self.new ≡ reference self.old }
        ensures cause { HasCause (faults self.old) (faults self.new) result };

    /// Writes bytes from a place on.
    ///
    /// # Errors
    ///
    /// Where the disk has failed. The range may then hold anything.
    fn write_at(&mut self, at: u64, bytes: &[u8]) -> Result<(), Failed>
        requires { at + length bytes.now ≤ disk_size }
        ensures writes { Writes result at bytes.now (story self.old) (story self.new) }
        ensures reference { reference self.new ≡ reference self.old }
        ensures cause { HasCause (faults self.old) (faults self.new) result };

    /// Waits until no power loss takes away what was written.
    ///
    /// # Errors
    ///
    /// Where the disk has failed. What was pending is pending still.
    fn sync(&mut self) -> Result<(), Failed>
        ensures syncs { Syncs result (story self.old) (story self.new) }
        ensures reference { reference self.new ≡ reference self.old }
        ensures cause { HasCause (faults self.old) (faults self.new) result };

    /// How often the disk has failed so far. The count stands still at 2^64 - 1.
    fn faults(&self) -> u64
        ensures faults { result ≡ faults self.now };

    /// An image since a moment is one since each moment before it.
    ghost since: { (d : Self) (t u : ℕ) (c : Image) → t ≤ u → (story d).may u c
        → (story d).may t c };

    /// What a read gives is one of the images that a power loss now may leave, where these are told.
    ghost as_read: { (d : Self) (c e : Image) → (story d).now ≡ Some c
        → (story d).may (story d).moment e → (story d).may (story d).moment c };
}

impl<S: Source> Source for &mut S {
    ghost rest = { λ s. S.rest s.now };

    ghost faults = { λ s. S.faults s.now };

    fn take(&mut self, buf: &mut [u8]) -> Result<usize, Failed> {
        (**self).take(buf)
    }
}

impl<K: Sink> Sink for &mut K {
    ghost written = { λ s. K.written s.now };

    ghost faults = { λ s. K.faults s.now };

    fn put(&mut self, piece: &[u8]) -> Result<usize, Failed> {
        (**self).put(piece)
    }
}

impl<M: Medium> Medium for &mut M {
    ghost count = { λ m. M.count m.now };

    ghost contents = { λ m. M.contents m.now };

    ghost reference = { λ m. Some m.ghost_name };

    ghost faults = { λ m. M.faults m.now };

    fn blocks(&self) -> u64 {
        (**self).blocks()
    }

    fn read_block(&mut self, lba: u64, block: &mut [u8; 512]) -> Result<(), Failed> {
        (**self).read_block(lba, block)
    }

    fn write_block(&mut self, lba: u64, block: &[u8; 512]) -> Result<(), Failed> {
        (**self).write_block(lba, block)
    }

    fn faults(&self) -> u64 {
        (**self).faults()
    }
}

impl<D: Disk> Disk for &mut D {
    ghost story = { λ d. D.story d.now };

    ghost reference = { λ d. Some d.ghost_name };

    ghost faults = { λ d. D.faults d.now };

    ghost since = { λ d. D.since d.now };

    ghost as_read = { λ d. D.as_read d.now };

    fn read_at(&mut self, at: u64, buf: &mut [u8]) -> Result<(), Failed> {
        (**self).read_at(at, buf)
    }

    fn write_at(&mut self, at: u64, bytes: &[u8]) -> Result<(), Failed> {
        (**self).write_at(at, bytes)
    }

    fn sync(&mut self) -> Result<(), Failed> {
        (**self).sync()
    }

    fn faults(&self) -> u64 {
        (**self).faults()
    }
}
