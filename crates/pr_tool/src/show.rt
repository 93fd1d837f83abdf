ghost use Rattle.std.specs.Prelude.{◌≡◌, ℕ, ◌+◌, ◌<◌, ◌≤◌, ◌^◌, List, [], ◌++◌, true, length, take, vec_len, vec_capacity, Option, Some, None, IfOk, OnOk, OnErr};
ghost use Rattle.pr_words.specs.declared.nexus.Side.TheVariants.{Target};
ghost use Rattle.pr_io.specs.Streams.{Took, Put, PutSome, HasEnded, MovesInto};
ghost use Rattle.pr_io.specs.Causes.{HasCause};
ghost use Rattle.pr_grammar.specs.Frames.{Lacking, is_body};
ghost use Rattle.pr_grammar.specs.Frames as frames;
ghost use Rattle.pr_grammar.specs.Shows.{line_of, last_line, size_of_all};
ghost use Rattle.pr_link.specs.Streams.{frame_of};
ghost use Rattle.pr_link.specs.Deframer.{stream_of, held_of, place_of};
ghost use Rattle.pr_tool.specs.Counting.{sink_faults, sink_faults_by, CountsSource, CountsSourceBy};
ghost use Rattle.pr_tool.specs.Showing.{Shows, ShowCauses, ShowDecides, EndsWith, Finds};

use crate::exit::Exit;
use crate::lines::{LINE, push_bad, push_cut, push_end, push_frame};
use pr_io::{Failed, Sink, Source, put_all};
use pr_link::{Deframer, Frame, Got};
use pr_words::{HELD, Side};
use std::alloc::{AllocError, Global};

/// The bytes of lines that wait to be put.
const TEXT: usize = 65_536;

/// The most bytes of a stream that are looked at.
const BUDGET: u64 = 1 << 32;

/// A stream of frames as far as it was read, and the lines about it that wait to be put.
#[derive(Drop)]
struct Viewer {
    deframer: Deframer,
    work: Vec<u8>,
    text: Vec<u8>,
    /// How many whole frames have come.
    frames: u64,
    /// How many bytes lack until more can be said of the next frame.
    need: usize,
    /// How many bytes may still be looked at.
    left: u64,
}

/// Takes bytes into the front of the buffer, so many at most.
fn take_front<S: Source>(source: &mut S, work: &mut [u8], room: usize) -> Result<usize, Failed>
    requires { room ≤ length work.old }
    ensures count { IfOk result (λ n. n ≤ room) }
    ensures bytes { MovesInto (S.rest source.old) (S.rest source.new) result work.new }
    ensures end { IfOk result (λ n. HasEnded (S.rest source.new) n room) }
    ensures cause { HasCause (S.faults source.old) (S.faults source.new) result }
{
    source.take(&mut work[..room])
}

/// The same into the work buffer.
fn take_into<S: Source>(source: &mut S, work: &mut Vec<u8>, room: usize) -> Result<usize, Failed>
    requires { room ≤ length work.old.items }
    ensures count { IfOk result (λ n. n ≤ room) }
    ensures bytes { MovesInto (S.rest source.old) (S.rest source.new) result work.new.items }
    ensures end { IfOk result (λ n. HasEnded (S.rest source.new) n room) }
    ensures cause { HasCause (S.faults source.old) (S.faults source.new) result }
    ensures len { length work.new.items ≡ length work.old.items }
{
    take_front(source, work, room)
}

/// What stands at the front of the stream once the first bytes of the buffer have come, of which
/// there are no more than there is room for.
fn next_at(deframer: &mut Deframer, work: &mut [u8], n: usize) -> Got
    requires work { length work.old ≡ HELD }
    requires side { (stream_of deframer.old).side ≡ Target }
    requires unbroken { (stream_of deframer.old).broken ≡ None }
    requires room { length (held_of deframer.old) + n ≤ HELD }
    ensures { Finds (stream_of deframer.old) (take n work.old) result
        (stream_of deframer.new) work.new }
{
    deframer.feed(&work[..n]);
    deframer.next(work)
}

/// The same with the work buffer.
fn next_in(deframer: &mut Deframer, work: &mut Vec<u8>, n: usize) -> Got
    requires work { length work.old.items ≡ HELD }
    requires side { (stream_of deframer.old).side ≡ Target }
    requires unbroken { (stream_of deframer.old).broken ≡ None }
    requires room { length (held_of deframer.old) + n ≤ HELD }
    ensures finds { Finds (stream_of deframer.old) (take n work.old.items) result
        (stream_of deframer.new) work.new.items }
    ensures len { length work.new.items ≡ length work.old.items }
{
    next_at(deframer, work, n)
}

/// Writes the line of a frame, whose body stands in the buffer, and puts all lines where one more
/// might not fit.
fn put_line<K: Sink>(
    sink: &mut K,
    text: &mut Vec<u8>,
    frame: &Frame,
    work: &[u8],
) -> Result<(), Failed>
    requires taken { TEXT ≤ vec_capacity text.old }
    requires room { vec_len text.old + LINE ≤ TEXT }
    requires within { frame.now.body ≤ length work.now }
    requires body { is_body Target frame.now.kind (take frame.now.body work.now) ≡ true }
    ensures all { OnOk result ((sent : List ℕ) × Put (K.written sink.old) (K.written sink.new) sent
        × (text.old.items ++ line_of (frame_of frame.now (take frame.now.body work.now)) ≡
        sent ++ text.new.items)) }
    ensures some { OnErr result (PutSome (K.written sink.old) (K.written sink.new) (text.old.items
        ++ line_of (frame_of frame.now (take frame.now.body work.now)))) }
    ensures taken { TEXT ≤ vec_capacity text.new }
    ensures room { OnOk result (vec_len text.new + LINE ≤ TEXT) }
    ensures cause { HasCause (K.faults sink.old) (K.faults sink.new) result }
{
    push_frame(text, frame, &work[..frame.body]);
    if text.len() > TEXT - LINE {
        put_all(sink, text)?;
        text.clear();
    }
    Ok(())
}

/// Memory for the longest frame.
fn work_buffer(alloc: Global) -> Result<Vec<u8>, AllocError>
    ensures { IfOk result (λ v. length v.items ≡ HELD) }
{
    Ok(vec![in alloc; 0u8; HELD]?)
}

/// Memory for lines.
fn text_buffer(alloc: Global) -> Result<Vec<u8>, AllocError>
    ensures items { IfOk result (λ v. v.items ≡ []) }
    ensures len { IfOk result (λ v. vec_len v ≡ 0) }
    ensures room { IfOk result (λ v. TEXT ≤ vec_capacity v) }
{
    Vec::with_capacity(alloc, TEXT)
}

/// Puts all lines, with which a run ends: with this exit, or because the sink failed.
fn stop<K: Sink>(sink: &mut K, text: &[u8], exit: Exit) -> Exit
    ensures ends { EndsWith exit result (K.written sink.old) (K.written sink.new) text.now
        (K.faults sink.old) (K.faults sink.new) }
{
    match put_all(sink, text) {
        Ok(()) => exit,
        Err(_) => Exit::WriteFault,
    }
}

impl Viewer {
    ghost use Rattle.pr_tool.specs.Showing.{Ready, ViewerGoes, Steps, ViewerEnds};

    /// Of a stream of which so many bytes are looked at, and which none has come of.
    fn new(alloc: Global, budget: u64) -> Result<Viewer, AllocError>
        ensures ready { IfOk result (λ v. Ready v) }
        ensures goes { IfOk result (λ v. (r w : Option (List ℕ)) → ViewerGoes budget r r w w v) }
    {
        Ok(Viewer {
            deframer: Deframer::new(alloc, Side::Target)?,
            work: work_buffer(alloc)?,
            text: text_buffer(alloc)?,
            frames: 0,
            need: 4,
            left: budget,
        })
    }

    /// The stream has ended.
    fn end<K: Sink>(&mut self, sink: &mut K) -> Exit
        requires taken { TEXT ≤ vec_capacity self.old.text }
        requires room { vec_len self.old.text + LINE ≤ TEXT }
        ensures ends { (fs : List frames.Frame) (lacks : ℕ) → self.old.frames ≡ length fs →
            place_of self.old.deframer ≡ size_of_all fs →
            EndsWith Exit.Done result (K.written sink.old) (K.written sink.new)
            (self.old.text.items ++ last_line fs (held_of self.old.deframer) (Lacking lacks))
            (K.faults sink.old) (K.faults sink.new) }
        ensures read { result ≡ Exit.ReadFault → ⊥ }
        ensures faults { K.faults sink.new ≡ sink_faults result (K.faults sink.old) }
    {
        let held = self.deframer.held();
        if held == 0 {
            push_end(&mut self.text, self.frames);
            return stop(sink, &self.text, Exit::Done);
        }
        push_cut(&mut self.text, self.deframer.place());
        stop(sink, &self.text, Exit::Done)
    }

    /// Takes one byte more, to see whether the stream has ended where no more is looked at.
    fn look_behind<S: Source, K: Sink>(&mut self, source: &mut S, sink: &mut K) -> Exit
        requires ready { Ready self.old }
        requires none { self.old.left ≡ 0 }
        ensures stands { (budget : ℕ) (ra wa : Option (List ℕ)) →
            ViewerGoes budget ra (S.rest source.old) wa (K.written sink.old) self.old →
            ViewerEnds budget ra (S.rest source.new) wa (K.written sink.new) result }
        ensures read_faults { CountsSource result (S.faults source.old) (S.faults source.new) }
        ensures write_faults { K.faults sink.new ≡ sink_faults result (K.faults sink.old) }
    {
        let Ok(n) = source.take(&mut [0]) else {
            return stop(sink, &self.text, Exit::ReadFault);
        };
        if n == 0 {
            return self.end(sink);
        }
        stop(sink, &self.text, Exit::TooLong)
    }

    /// So many bytes have come, which stand in the work buffer.
    fn arrive<K: Sink>(&mut self, sink: &mut K, n: usize) -> Option<Exit>
        requires ready { Ready self.old }
        requires some { 0 < n }
        requires few { n ≤ self.old.need }
        requires looked { n ≤ self.old.left }
        ensures steps { (budget : ℕ) (ra rb rc wa : Option (List ℕ)) →
            ViewerGoes budget ra rb wa (K.written sink.old) self.old →
            Took rb rc (take n self.old.work.items) →
            Steps budget ra rc wa (K.written sink.new) self.new result }
        ensures ready { result ≡ None → Ready self.new }
        ensures fewer { result ≡ None → self.new.left + n ≡ self.old.left }
        ensures read { result ≡ Some Exit.ReadFault → ⊥ }
        ensures faults { K.faults sink.new ≡ sink_faults_by result (K.faults sink.old) }
    {
        self.left -= n as u64;
        match next_in(&mut self.deframer, &mut self.work, n) {
            Got::Need(lacks) => {
                self.need = lacks;
                None
            }
            Got::Bad { place, reason } => {
                push_bad(&mut self.text, place, reason);
                Some(stop(sink, &self.text, Exit::Done))
            }
            Got::Frame(frame) => {
                self.frames += 1;
                self.need = 4;
                match put_line(sink, &mut self.text, &frame, &self.work) {
                    Ok(()) => None,
                    Err(_) => Some(Exit::WriteFault),
                }
            }
        }
    }

    /// Takes some of the bytes that lack, and looks at them. The exit, where the run ends.
    fn step<S: Source, K: Sink>(&mut self, source: &mut S, sink: &mut K) -> Option<Exit>
        requires { Ready self.old }
        ensures steps { (budget : ℕ) (ra wa : Option (List ℕ)) →
            ViewerGoes budget ra (S.rest source.old) wa (K.written sink.old) self.old →
            Steps budget ra (S.rest source.new) wa (K.written sink.new) self.new result }
        ensures ready { result ≡ None → Ready self.new }
        ensures fewer { result ≡ None → self.new.left < self.old.left }
        ensures read_faults { CountsSourceBy result (S.faults source.old) (S.faults source.new) }
        ensures write_faults { K.faults sink.new ≡ sink_faults_by result (K.faults sink.old) }
    {
        let room = self.left.min(self.need as u64) as usize;
        if room == 0 {
            return Some(self.look_behind(source, sink));
        }
        let Ok(n) = take_into(source, &mut self.work, room) else {
            return Some(stop(sink, &self.text, Exit::ReadFault));
        };
        if n == 0 {
            return Some(self.end(sink));
        }
        self.arrive(sink, n)
    }
}

/// Shows a stream of which so many bytes are looked at.
pub(crate) fn show_within<S: Source, K: Sink>(
    alloc: Global,
    source: &mut S,
    sink: &mut K,
    budget: u64,
) -> Exit
    ensures shows { Shows result (S.rest source.old) (S.rest source.new) (K.written sink.old)
        (K.written sink.new) }
    ensures causes { ShowCauses result budget (S.rest source.old) }
    ensures read_faults { CountsSource result (S.faults source.old) (S.faults source.new) }
    ensures write_faults { K.faults sink.new ≡ sink_faults result (K.faults sink.old) }
    ensures untouched { result ≡ Exit.NoMemory → (source.new ≡ source.old) × (sink.new ≡ sink.old) }
{
    let Ok(mut viewer) = Viewer::new(alloc, budget) else {
        return Exit::NoMemory;
    };
    'steps: loop {
        if let Some(exit) = viewer.step(source, sink) {
            return exit;
        }
    }
}

/// Shows the frames of an initiator's stream, a line for each, and then a line about its end.
///
/// Each frame is checked by itself, and not by what a session makes of it. No byte is read past a
/// frame that breaks a rule. All memory is taken before the first byte: some 1.1 MiB.
///
/// # Errors
///
/// `NoMemory` where the memory is refused, before anything is read or written; `ReadFault` and
/// `WriteFault` where the source or the sink failed; `TooLong` where the stream goes on behind its
/// first 2^32 bytes. But where the sink failed, the lines of the frames before are written.
pub fn show_main<S: Source, K: Sink>(alloc: Global, source: &mut S, sink: &mut K) -> Exit
    // What was read and written, by the exit.
    ensures shows { Shows result (S.rest source.old) (S.rest source.new) (K.written sink.old)
        (K.written sink.new) }

    // The causes of the exits, and that what the stream alone brings is the exit.
    ensures causes { ShowCauses result (2 ^ 32) (S.rest source.old) }
    ensures decides { ShowDecides result (2 ^ 32) (S.rest source.old) }
    ensures read_faults { CountsSource result (S.faults source.old) (S.faults source.new) }
    ensures write_faults { K.faults sink.new ≡ sink_faults result (K.faults sink.old) }
    ensures untouched { result ≡ Exit.NoMemory → (source.new ≡ source.old) × (sink.new ≡ sink.old) }
{
    show_within(alloc, source, sink, BUDGET)
}
