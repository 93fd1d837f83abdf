ghost use Rattle.std.specs.Prelude.{◌≡◌, ℕ, ◌+◌, ◌%◌, ◌^◌, ◌≤◌, ◌++◌, List, [], None, take, drop, length, IfOk, IfSome};
ghost use Rattle.circular_buffer.specs.Buffer.{buffer};
ghost use Rattle.pr_words.specs.Fields.{number32_at};
ghost use Rattle.pr_words.specs.declared.limits.TheConstants.{BODY, FRAME_LENGTH, HELD};
ghost use Rattle.pr_grammar.specs.Frames.{Whole, front, checked};
ghost use Rattle.pr_link.specs.Streams.{Feeds, Gives, GivesAt, Checks, IsFormed, frame_of};

use crate::bodies::{is_received, is_well_formed};
use crate::layout::write_front;
use crate::{Frame, Front, Got};
use circular_buffer::HeapCircularBuffer;
use pr_words::{FRAME_HEAD, FRAME_LENGTH, HELD, Side, get_u16, get_u32};
use std::alloc::{AllocError, Global};

/// A stream's bytes until they make a frame.
///
/// It holds up to 524,320 bytes, as many as the longest frame has, and takes all its memory when it is made. Once a
/// frame broke a rule no later byte of the stream is looked at.
#[derive(Drop)]
pub struct Deframer {
    side: Side,
    held: HeapCircularBuffer<u8>,
    place: u64,
    broken: Option<u8>,
    ghost room: { held.capacity ≡ HELD },
    ghost fits: { length held.items ≤ HELD },
}

impl Deframer {
    ghost use Rattle.pr_link.specs.Deframer.{stream_of, held_of, place_of};

    /// For the bytes that one side receives, from the first of a stream on.
    pub fn new(alloc: Global, side: Side) -> Result<Deframer, AllocError>
        ensures { IfOk result (λ d. stream_of d ≡ record { side = side; place = 0; held = []; broken = None }) }
    {
        Ok(Deframer {
            side,
            held: HeapCircularBuffer::with_capacity(alloc, HELD)?,
            place: 0,
            broken: None,
        })
    }

    /// The place of the first held byte: how many bytes of the stream came before it, modulo 2^64.
    pub fn place(&self) -> u64
        ensures { result ≡ place_of self.now }
    {
        self.place
    }

    /// How many bytes are held.
    pub fn held(&self) -> usize
        ensures held { result ≡ length (held_of self.now) }
        ensures bound { result ≤ HELD }
    {
        self.held.len()
    }

    /// Takes the first bytes, as many as there is room for, and answers how many. After a broken rule it takes and drops
    /// all.
    pub fn feed(&mut self, bytes: &[u8]) -> usize
        ensures feeds { Feeds (stream_of self.old) bytes.now result (stream_of self.new) }
        ensures bound { length (held_of self.new) ≤ HELD }
    {
        if self.broken.is_some() {
            return bytes.len();
        }
        self.held.fill_from_slice(bytes)
    }

    /// The frame at the front with its body in `buf`, or how many bytes lack, or the rule that is broken there.
    ///
    /// `buf` has room for the longest frame; what it holds behind the body, or without a frame, is free. After a broken
    /// rule nothing is held, and each call gives the same answer.
    #[inline(always)]
    pub fn next(&mut self, buf: &mut [u8]) -> Got
        requires { HELD ≤ length buf.old }
        ensures { Gives (stream_of self.old) result (stream_of self.new) buf.new }
    {
        if let Some(reason) = self.broken {
            return Got::Bad {
                place: self.place,
                reason,
            };
        }
        match take_whole(self.side, &mut self.held, buf) {
            Some(frame) => self.pass(frame),
            None => self.next_in_parts(buf),
        }
    }

    /// What stands at the front, wherever it stands in the ring.
    #[tactic(auto, unfolding(pr_grammar::specs::Frames::front))]
    fn next_in_parts(&mut self, buf: &mut [u8]) -> Got
        requires room { HELD ≤ length buf.old }
        ensures { GivesAt (stream_of self.old) (front self.old.side (held_of self.old)) result
            (stream_of self.new) buf.new }
    {
        let held = self.held.len();
        if held < 4 {
            return Got::Need(4 - held);
        }
        let len = front_length(&self.held);
        let len = len as usize;
        if len < 8 || len > FRAME_LENGTH {
            return self.break_at(1);
        }
        if held < 4 + len {
            return Got::Need(4 + len - held);
        }
        match take_frame(self.side, &mut self.held, len, buf) {
            Ok(frame) => self.pass(frame),
            Err(reason) => self.break_at(reason),
        }
    }

    /// A frame was taken: its bytes are behind.
    fn pass(&mut self, frame: Frame) -> Got
        requires { frame.body ≤ BODY }
        ensures answer { result ≡ Got.Frame frame }
        ensures stream { stream_of self.new ≡ record (stream_of self.old) {
          place = (place_of self.old + (FRAME_HEAD + frame.body)) % 2 ^ 64;
        } }
    {
        self.place = self.place.wrapping_add((FRAME_HEAD + frame.body) as u64);
        Got::Frame(frame)
    }

    /// Begins with the first byte of another stream: nothing is held, and no rule is broken.
    pub fn restart(&mut self)
        ensures { stream_of self.new ≡ record (stream_of self.old) { place = 0; held = []; broken = None } }
    {
        self.held.clear();
        self.place = 0;
        self.broken = None;
    }

    fn break_at(&mut self, reason: u8) -> Got
        ensures answer { result ≡ Got.Bad (place_of self.old) reason }
        ensures stream { stream_of self.new ≡ record (stream_of self.old) { held = []; broken = Some reason } }
    {
        self.held.clear();
        self.broken = Some(reason);
        Got::Bad {
            place: self.place,
            reason,
        }
    }
}

/// Takes a frame that stands whole in the first piece of the ring, with one copy of its body.
#[inline(always)]
fn take_whole(side: Side, held: &mut HeapCircularBuffer<u8>, buf: &mut [u8]) -> Option<Frame>
    requires { BODY ≤ length buf.old }
    ensures taken { IfSome result (λ g.
        (front side held.old.items ≡ Whole (frame_of g (take g.body buf.new)) held.new.items)
        × IsFormed side g buf.new) }
    ensures none { result ≡ None → held.new ≡ held.old }
    ensures capacity { held.new.capacity ≡ held.old.capacity }
    ensures fewer { length held.new.items ≤ length held.old.items }
{
    let (piece, _) = held.as_slices();
    let Front::Whole(frame) = Front::of(side, piece) else {
        return None;
    };
    let size = FRAME_HEAD + frame.body;
    write_front(buf, &piece[FRAME_HEAD..size]);
    held.truncate_front(held.len() - size);
    Some(frame)
}

fn front_length(held: &HeapCircularBuffer<u8>) -> u32
    requires { 4 ≤ length held.now.items }
    ensures { result ≡ number32_at held.now.items 0 }
{
    match (held.get(0), held.get(1), held.get(2), held.get(3)) {
        (Some(a), Some(b), Some(c), Some(d)) => u32::from_be_bytes([*a, *b, *c, *d]),
        _ => unreachable!(),
    }
}

fn read_front(held: &mut HeapCircularBuffer<u8>, dst: &mut [u8])
    requires { length dst.old ≤ length held.old.items }
    ensures bytes { dst.new ≡ take (length dst.old) held.old.items }
    ensures rest { held.new ≡ buffer (drop (length dst.old) held.old.items) held.old.capacity }
    ensures fewer { length held.new.items ≤ length held.old.items }
{
    held.read_into(dst);
}

fn take_frame(
    side: Side,
    held: &mut HeapCircularBuffer<u8>,
    len: usize,
    buf: &mut [u8],
) -> Result<Frame, u8>
    requires size { 8 ≤ len }
    requires bound { len ≤ FRAME_LENGTH }
    requires whole { 4 + len ≤ length held.old.items }
    requires room { len ≤ length buf.old }
    ensures gives { Checks side (checked side (take len (drop 4 held.old.items)) (drop (4 + len) held.old.items)) result held.new.items buf.new }
    ensures capacity { held.new.capacity ≡ held.old.capacity }
    ensures fewer { length held.new.items ≤ length held.old.items }
{
    let mut head = [0u8; 12];
    read_front(held, &mut head);
    let body = len - 8;
    read_front(held, &mut buf[..body]);
    checked_frame(side, &head[4..12], body, buf)
}

#[tactic(auto, using(crate::proofs::Heads::heads))]
fn checked_frame(side: Side, head: &[u8], body: usize, buf: &[u8]) -> Result<Frame, u8>
    requires head { length head.now ≡ 8 }
    requires within { body ≤ length buf.now }
    requires bound { body ≤ BODY }
    ensures { (rest : List ℕ) → Checks side (checked side (head.now ++ take body buf.now) rest) result rest buf.now }
{
    let kind = head[0];
    if !is_received(side, kind) {
        return Err(2);
    }
    if head[1] != 0 {
        return Err(3);
    }
    if !is_well_formed(side, kind, &buf[..body]) {
        return Err(4);
    }
    Ok(Frame {
        kind,
        lun: get_u16(head, 2),
        tag: get_u32(head, 4),
        body,
    })
}
