//! A task whose steps a session takes.

ghost use Rattle.std.specs.Prelude.{◌≡◌, ◌+◌, ◌≤◌};
ghost use Rattle.pr_words.specs.declared.limits.TheConstants.{BLOCK, COMMAND_HEAD, DATA, HELD};
ghost use Rattle.pr_words.specs.declared.task.Way.TheVariants.{Read};

use pr_link::Frame;
use pr_words::{BLOCK, COMMAND_HEAD, DATA, HELD, Way};

/// A READ or WRITE under way: the LUN and the tag of its request, which its reply repeats, and where
/// its bytes stand in the work buffer. Those of a WRITE are still to be carried, and go from the front; those
/// of a READ have come, and grow at the end.
#[derive(Clone, Copy, Debug)]
pub(crate) struct Job {
    pub(crate) lun: u16,
    pub(crate) tag: u32,
    way: Way,
    start: usize,
    stop: usize,
    ghost front: { COMMAND_HEAD ≤ start },
    ghost order: { start ≤ stop },
    ghost within: { stop ≤ COMMAND_HEAD + DATA },
    ghost read: { way ≡ Read → start ≡ COMMAND_HEAD },
}

impl Job {
    ghost use Rattle.pr_session.specs.Jobs.{first_stop, block_place, data_in_of, carried_of, moved_of};

    /// The task of a command that came with so many bytes of data-out, in a frame with this head.
    pub(crate) fn begin(head: Frame, way: Way, sent: usize) -> Job
        requires { sent ≤ DATA }
        ensures head { (result.lun ≡ head.lun) × (result.tag ≡ head.tag) × (result.way ≡ way) }
        ensures bytes { (result.start ≡ COMMAND_HEAD) × (result.stop ≡ first_stop way sent) }
    {
        let stop = match way {
            Way::Read => COMMAND_HEAD,
            Way::Write => COMMAND_HEAD + sent,
        };
        Job {
            lun: head.lun,
            tag: head.tag,
            way,
            start: COMMAND_HEAD,
            stop,
        }
    }

    /// Where the block of its next step stands. Once no block is left, no bytes stand there.
    pub(crate) fn block_place(&self) -> usize
        ensures place { result ≡ block_place self.now }
        ensures within { result + BLOCK ≤ HELD }
    {
        let next = match self.way {
            Way::Read => self.stop,
            Way::Write => self.start,
        };
        next.min(HELD - BLOCK)
    }

    /// Where the bytes stand that its next step carries.
    pub(crate) fn carried_place(&self) -> usize
        ensures { result ≡ self.now.start }
    {
        self.start
    }

    /// How many bytes its next step carries.
    pub(crate) fn carried_len(&self) -> usize
        ensures { result ≡ carried_of self.now }
    {
        match self.way {
            Way::Read => 0,
            Way::Write => BLOCK.min(self.stop - self.start),
        }
    }

    /// One block of it was written.
    pub(crate) fn after_write(self) -> Job
        requires way { self.way ≡ Way.Write }
        requires some { self.start + BLOCK ≤ self.stop }
        ensures head { (result.lun ≡ self.lun) × (result.tag ≡ self.tag) × (result.way ≡ self.way) }
        ensures bytes { (result.start ≡ self.start + BLOCK) × (result.stop ≡ self.stop) }
    {
        Job {
            lun: self.lun,
            tag: self.tag,
            way: self.way,
            start: self.start + BLOCK,
            stop: self.stop,
        }
    }

    /// One block of it was read.
    pub(crate) fn after_read(self) -> Job
        requires { self.stop + BLOCK ≤ COMMAND_HEAD + DATA }
        ensures head { (result.lun ≡ self.lun) × (result.tag ≡ self.tag) × (result.way ≡ self.way) }
        ensures bytes { (result.start ≡ self.start) × (result.stop ≡ self.stop + BLOCK) }
    {
        Job {
            lun: self.lun,
            tag: self.tag,
            way: self.way,
            start: self.start,
            stop: self.stop + BLOCK,
        }
    }

    /// How many blocks of it are moved.
    pub(crate) fn moved(&self) -> u32
        ensures { result ≡ moved_of self.now }
    {
        let bytes = match self.way {
            Way::Read => self.stop - self.start,
            Way::Write => self.start - COMMAND_HEAD,
        };
        (bytes / BLOCK) as u32
    }

    /// How many bytes of data-in it has, from the place of a command's data on, once it is done.
    pub(crate) fn data_in(&self) -> usize
        ensures len { result ≡ data_in_of self.now }
        ensures bound { result ≤ DATA }
    {
        match self.way {
            Way::Read => self.stop - self.start,
            Way::Write => 0,
        }
    }
}
