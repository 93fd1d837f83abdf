//! The buffer in which a session works.

ghost use Rattle.std.specs.Prelude.{◌≡◌, ◌+◌, ◌≤◌, ◌++◌, take, drop, length, slice_range, vec_len, IfOk};
ghost use Rattle.pr_io.specs.Streams.{MovesInto, HasEnded};
ghost use Rattle.pr_io.specs.Causes.{HasCause};
ghost use Rattle.pr_words.specs.declared.nexus.Side.TheVariants.{Target};
ghost use Rattle.pr_words.specs.declared.limits.TheConstants.{BLOCK, DATA, HELD, COMMAND_HEAD};
ghost use Rattle.pr_grammar.specs.Frames.{front, spelled};
ghost use Rattle.pr_link.specs.Replies.{IsWritable, reply_frame, data_in_of};
ghost use Rattle.pr_link.specs.Deframer.{stream_of, held_of};
ghost use Rattle.pr_session.specs.declared.work.TheConstants.{ROOM};
ghost use Rattle.pr_session.specs.Streams.{IsIntact, Receives};

use crate::act::Out;
use crate::acting::{command_on, step_on};
use pr_core::{CommandOut, Core, Entry, Excerpt};
use pr_io::{Disk, Failed, Medium, Source};
use pr_link::{Deframer, Got, RawCdb, Reply};
use pr_tasks::StepOut;
use pr_words::{COMMAND_HEAD, HELD, Nexus};
use std::alloc::{AllocError, Global};

/// The bytes in front of a reply, for the head of a record that has it. With them, a reply's data-in
/// begins where a command's data-out stood.
pub const ROOM: usize = 4;

/// Memory for the longest frame. It takes the body of a frame, and then the reply: room, the frame's
/// head, its status and sense, and its data-in.
#[derive(Drop)]
pub(crate) struct Work {
    bytes: Vec<u8>,
    ghost room: { vec_len bytes ≡ HELD },
}

impl Work {
    ghost use Rattle.std.specs.Prelude.{◌∷◌, [], ℕ, List, Some, is_some, true};
    ghost use Rattle.pr_model.specs.Entries.{entry, Command, Step};
    ghost use Rattle.pr_tasks.specs.Steps.{LeavesBlock};
    ghost use Rattle.pr_core.specs.Outs.{out_of, step_out, IsProper, IsFed, IsCarried, Begins, Progresses, LeavesData};
    ghost use Rattle.pr_core.specs.View.{owner_of, progress_of, KeepsOthers, Extends};
    ghost use Rattle.pr_session.specs.Places.{block_from, data_in};
    ghost use Rattle.pr_session.specs.Coming.{IsIdleIn};
    ghost use Rattle.pr_core.specs.declared.answers.CommandOut.{CommandOut};
    ghost use Rattle.pr_session.specs.Works.{bytes_of};

    /// Takes the memory: 524,320 bytes.
    pub(crate) fn new(alloc: Global) -> Result<Work, AllocError> {
        Ok(Work {
            bytes: vec![in alloc; 0u8; HELD]?,
        })
    }

    /// The first bytes.
    pub(crate) fn front(&self, len: usize) -> &[u8]
        requires { len ≤ HELD }
        ensures { result.now ≡ take len (bytes_of self.now) }
    {
        &self.bytes[..len]
    }

    /// The bytes from one place up to another.
    pub(crate) fn range(&self, start: usize, stop: usize) -> &[u8]
        requires order { start ≤ stop }
        requires within { stop ≤ HELD }
        ensures { result.now ≡ slice_range (bytes_of self.now) start stop }
    {
        &self.bytes[start..stop]
    }

    /// Takes bytes from a source into the front, by one call, as many as there are up to so many.
    pub(crate) fn take_from<S: Source>(
        &mut self,
        source: &mut S,
        room: usize,
    ) -> Result<usize, Failed>
        requires { room ≤ HELD }
        ensures count { IfOk result (λ n. n ≤ room) }
        ensures bytes { MovesInto (S.rest source.old) (S.rest source.new) result
            (bytes_of self.new) }
        ensures end { IfOk result (λ n. HasEnded (S.rest source.new) n room) }
        ensures cause { HasCause (S.faults source.old) (S.faults source.new) result }
    {
        take_to_front(source, &mut self.bytes, room)
    }

    /// The bytes from a place on, for an entry that carries them.
    pub(crate) fn excerpt(&self, at: usize) -> Excerpt
        ensures { result ≡ drop at (bytes_of self.now) }
    {
        Excerpt::of(&self.bytes, at)
    }

    /// Writes over the bytes from a place on.
    pub(crate) fn write_at(&mut self, at: usize, piece: &[u8])
        requires { at + length piece.now ≤ HELD }
        ensures { bytes_of self.new ≡ take at (bytes_of self.old) ++ piece.now
            ++ drop (at + length piece.now) (bytes_of self.old) }
    {
        copy_at(&mut self.bytes, at, piece);
    }

    /// The next frame, with its body at the front. After a broken rule the stream begins anew.
    #[inline(always)]
    pub(crate) fn take_frame(&mut self, deframer: &mut Deframer) -> Got
        requires { IsIntact (stream_of deframer.old) }
        ensures goes { Receives (front Target (held_of deframer.old)) (stream_of deframer.old)
            result (stream_of deframer.new) (bytes_of self.new) }
        ensures sound { IsIntact (stream_of deframer.new) }
    {
        let got = deframer.next(&mut self.bytes);
        if let Got::Bad { .. } = got {
            deframer.restart();
        }
        got
    }

    /// A command, whose data-out stands at its place, where its data-in stands afterwards.
    pub(crate) fn command<M: Medium, D: Disk>(
        &mut self,
        core: &mut Core<M, D>,
        who: u64,
        nexus: Nexus,
        lun: u16,
        cdb: &RawCdb,
        out_len: usize,
    ) -> CommandOut
        requires idle { IsIdleIn core.old who nexus }
        requires sent { out_len ≤ DATA }
        ensures entry { Extends core.old core.new (entry who nexus
            (Command lun cdb.now (take out_len (data_in (bytes_of self.old))))
            (out_of result (data_in (bytes_of self.new))) ∷ []) }
        ensures owner { owner_of core.new ≡ owner_of core.old }
        ensures begins { Begins result (progress_of core.new nexus) }
        ensures fed { IsFed result out_len }
        ensures proper { IsProper result }
        ensures kept { LeavesData result (data_in (bytes_of self.old))
            (data_in (bytes_of self.new)) }
        ensures others { KeepsOthers who core.old core.new }
    {
        command_on(core, who, nexus, lun, cdb.bytes(), &mut self.bytes, out_len)
    }

    /// The entry of a command that carried these bytes, whose data-in now stands at its place.
    pub(crate) fn command_entry(
        &self,
        who: u64,
        nexus: Nexus,
        lun: u16,
        cdb: &RawCdb,
        sent: Excerpt,
        sent_len: usize,
        out: &Out,
    ) -> Entry
        requires { (answer : CommandOut) × (out.now ≡ Out.Command answer) }
        ensures { (answer : CommandOut) → out.now ≡ Out.Command answer → result ≡ entry who nexus
            (Command lun cdb.now (take sent_len sent))
            (out_of answer (data_in (bytes_of self.now))) }
    {
        let left = self.excerpt(COMMAND_HEAD);
        match *out {
            Out::Command(out) => {
                Entry::command(who, nexus, lun, cdb.bytes(), sent, sent_len, out, left)
            }
            Out::Login(_) | Out::Step(_) | Out::Logout => unreachable!(),
        }
    }

    /// A step of a task, whose block stands at this place.
    pub(crate) fn step<M: Medium, D: Disk>(
        &mut self,
        core: &mut Core<M, D>,
        who: u64,
        nexus: Nexus,
        at: usize,
    ) -> StepOut
        requires owner { owner_of core.old nexus ≡ Some who }
        requires task { is_some (progress_of core.old nexus) ≡ true }
        requires within { at + BLOCK ≤ HELD }
        ensures entry { (sent : List ℕ) → IsCarried result sent (block_from at (bytes_of self.old)) →
            Extends core.old core.new (entry who nexus (Step sent)
            (step_out result (block_from at (bytes_of self.new))) ∷ []) }
        ensures owner { owner_of core.new ≡ owner_of core.old }
        ensures progress { Progresses result (progress_of core.old nexus)
            (progress_of core.new nexus) }
        ensures before { take at (bytes_of self.new) ≡ take at (bytes_of self.old) }
        ensures kept { LeavesBlock result (bytes_of self.old) (bytes_of self.new) }
        ensures others { KeepsOthers who core.old core.new }
    {
        step_on(core, who, nexus, &mut self.bytes, at)
    }

    /// Writes a reply behind the room, around its data-in, which stands at its place, and says how
    /// long it is.
    #[inline(always)]
    pub(crate) fn write_reply(&mut self, lun: u16, tag: u32, reply: &Reply) -> usize
        requires { IsWritable reply.now }
        ensures reply { take result (drop ROOM (bytes_of self.new)) ≡ spelled (reply_frame reply.now
            lun tag (take (data_in_of reply.now) (data_in (bytes_of self.old)))) }
        ensures bound { result ≤ 16 + DATA }
    {
        write_behind_room(&mut self.bytes, lun, tag, reply)
    }
}

/// Writes the bytes over the first ones of the slice.
fn copy_to_front(work: &mut [u8], head: &[u8])
    requires { length head.now ≤ length work.old }
    ensures { work.new ≡ head.now ++ drop (length head.now) work.old }
{
    work[..head.len()].copy_from_slice(head);
}

/// Writes the bytes over those of the slice from a place on.
fn copy_at(work: &mut [u8], at: usize, piece: &[u8])
    requires { at + length piece.now ≤ length work.old }
    ensures { work.new ≡ take at work.old ++ piece.now ++ drop (at + length piece.now) work.old }
{
    let (_, rest) = work.split_at_mut(at);
    copy_to_front(rest, piece);
}

/// Takes bytes from a source into the front of the slice.
fn take_to_front<S: Source>(source: &mut S, work: &mut [u8], room: usize) -> Result<usize, Failed>
    requires { room ≤ length work.old }
    ensures count { IfOk result (λ n. n ≤ room) }
    ensures bytes { MovesInto (S.rest source.old) (S.rest source.new) result work.new }
    ensures end { IfOk result (λ n. HasEnded (S.rest source.new) n room) }
    ensures cause { HasCause (S.faults source.old) (S.faults source.new) result }
{
    let (front, _) = work.split_at_mut(room);
    source.take(front)
}

/// Writes a reply behind the first four bytes of the slice.
#[inline(always)]
fn write_behind_room(work: &mut [u8], lun: u16, tag: u32, reply: &Reply) -> usize
    requires room { length work.old ≡ HELD }
    requires writable { IsWritable reply.now }
    ensures reply { take result (drop ROOM work.new) ≡ spelled (reply_frame reply.now
        lun tag (take (data_in_of reply.now) (drop COMMAND_HEAD work.old))) }
    ensures bound { result ≤ 16 + DATA }
{
    let (_, out) = work.split_at_mut(ROOM);
    reply.write(lun, tag, out)
}
