//! The session of one connection.

ghost use Rattle.std.specs.Prelude.{◌≡◌, ◌+◌, ◌-◌, ◌≤◌, ◌<◌, ◌++◌, ◌∷◌, [], Some, None, is_some, true, false, take, drop, length, slice_range, IfOk, OnOk, OnErr, MatchBool, ℕ, List};
ghost use Rattle.pr_io.specs.Streams.{HasEnded, Put, PutSome};
ghost use Rattle.pr_io.specs.Causes.{HasCause};
ghost use Rattle.pr_grammar.specs.Bodies.{login_reply, command_reply};
ghost use Rattle.pr_grammar.specs.Frames.{front, frame, spelled};
ghost use Rattle.pr_words.specs.declared.nexus.Nexus.{Nexus};
ghost use Rattle.pr_words.specs.declared.nexus.Side.TheVariants.{Target};
ghost use Rattle.pr_words.specs.declared.limits.TheConstants.{BLOCK, HELD, COMMAND_HEAD};
ghost use Rattle.pr_session.specs.declared.job.Job.{Job};
ghost use Rattle.pr_session.specs.declared.work.TheConstants.{ROOM};
ghost use Rattle.pr_link.specs.Replies.{IsWritable, reply_frame, data_in_of};
ghost use Rattle.pr_model.specs.Lanes.{AwaitsFrame, Lane, lane, turn, broken, asked, fresh, dead, arrived, rejected, turned, place_after, phase_after_login, after_step};
ghost use Rattle.pr_model.specs.Lanes as lanes;
ghost use Rattle.pr_core.specs.Outs.{IsProper, IsFed, out_of, step_out};
ghost use Rattle.pr_core.specs.View.{KeepsOthers};
ghost use Rattle.pr_model.specs.Entries as entries;
ghost use Rattle.pr_model.specs.Entries.{entry};
ghost use Rattle.pr_tasks.specs.declared.step_out.StepOut.{StepOut};
ghost use Rattle.pr_link.specs.Streams as streams;
ghost use Rattle.pr_link.specs.Deframer.{stream_of, held_of, place_of};
ghost use Rattle.pr_session.specs.Streams.{IsIntact};
ghost use Rattle.pr_session.specs.Feeding.{fed, Takes};
ghost use Rattle.pr_session.specs.States.{IsSettledIn, is_busy, moved_in, phase_of, phase_in, living, rejection_at, rejection_in, asked_in};
ghost use Rattle.pr_session.specs.Jobs.{job_of, block_in, FitsStep};
ghost use Rattle.pr_session.specs.Places.{data_in};
ghost use Rattle.pr_session.specs.Asking.{next_by};
ghost use Rattle.pr_session.specs.declared.asked.Asked.{Asked};
ghost use Rattle.pr_session.specs.declared.asked.Asked.TheVariants as waits;
ghost use Rattle.pr_session.specs.declared.state.State.TheVariants as states;

use crate::act::{Act, Out, Want};
use crate::asked::Asked;
use crate::job::Job;
use crate::state::{Rejection, State};
use crate::work::{ROOM, Work};
use pr_core::{CommandOut, Core, Entry, Excerpt};
use pr_io::{Disk, Failed, Medium, Sink, Source, put_all};
use pr_link::{Deframer, Frame, Got, Reply, Request};
use pr_tasks::StepOut;
use pr_words::{BLOCK, COMMAND_HEAD, HELD, Nexus, Sense, Side, Status};
use std::alloc::{AllocError, Global};

/// The session of one connection: it takes bytes, says what they ask for, is told how that came
/// out, and has the replies.
///
/// Its owner feeds it, asks what it wants, has acts done by a target and answers them, and sends
/// the replies. All memory is taken when it is made.
#[derive(Drop)]
pub struct Session {
    deframer: Deframer,
    work: Work,
    state: State,
    start: usize,
    stop: usize,
    ghost sound: { IsIntact (stream_of deframer) },
    ghost roomed: { ROOM ≤ start },
    ghost order: { start ≤ stop },
    ghost within: { stop ≤ HELD },
    ghost quiet: { is_busy state ≡ true → (start ≡ ROOM) × (stop ≡ ROOM) },
}

impl Session {
    ghost use Rattle.pr_session.specs.Asking.{want_of};
    ghost use Rattle.pr_link.specs.Replies as replies;
    ghost use Rattle.pr_session.specs.Sessions.{IsSettled, IsStepping, IsAnswer, lane_of, next_of, work_of, reply_of, room_of, nexus_of, rejection_of, HasTurned, IsKept};
    ghost use Rattle.pr_session.specs.Turning.{Begins, Continues};
    ghost use Rattle.pr_session.specs.Driving.{IsReadyIn, Does};
    ghost use Rattle.pr_session.specs.Acts.{act_by, outcome_by};
    ghost use Rattle.pr_session.specs.Asking.{nexus_in};
    ghost use Rattle.pr_session.specs.Sharing.{sent_place};

    /// A new connection. All memory is taken here: 524,320 bytes for what is held, and as many to
    /// work in.
    pub fn new(alloc: Global) -> Result<Session, AllocError>
        ensures new { IfOk result (λ s. HasTurned s (turned fresh [])) }
        ensures rejection { IfOk result (λ s. rejection_of s ≡ None) }
    {
        Ok(Session {
            deframer: Deframer::new(alloc, Side::Target)?,
            work: Work::new(alloc)?,
            state: State::Fresh,
            start: ROOM,
            stop: ROOM,
        })
    }

    /// The connection is a new one, in the same memory.
    pub fn fresh(&mut self)
        ensures new { HasTurned self.new (turned fresh []) }
        ensures rejection { rejection_of self.new ≡ None }
    {
        self.deframer.restart();
        self.state = State::Fresh;
        self.start = ROOM;
        self.stop = ROOM;
    }

    /// How many bytes of the connection are held. With the work buffer a session holds 1,048,640
    /// at most.
    pub fn held(&self) -> usize
        ensures held { result ≡ length (lane_of self.now).bytes }
        ensures bound { result ≤ HELD }
        ensures both { result + length (work_of self.now) ≤ 1048640 }
    {
        self.deframer.held()
    }

    /// How many bytes of the connection came before the held ones, modulo 2^64. Once a session has
    /// ended it counts from 0 again, and holds nothing.
    pub fn place(&self) -> u64
        ensures { result ≡ (lane_of self.now).place }
    {
        self.deframer.place()
    }

    /// The Reject by which it has ended.
    pub fn rejected(&self) -> Option<Rejection>
        ensures { result ≡ rejection_of self.now }
    {
        match self.state {
            State::Dead(rejection) => rejection,
            State::Fresh | State::In(_) | State::Busy(..) | State::Asking(_) => None,
        }
    }

    /// The nexus that is logged in.
    pub fn nexus(&self) -> Option<Nexus>
        ensures { result ≡ nexus_of self.now }
    {
        match self.state {
            State::In(nexus) | State::Busy(nexus, _) => Some(nexus),
            State::Fresh | State::Dead(_) => None,
            State::Asking(asked) => asked.nexus(),
        }
    }

    /// The nexus whose task runs, and how many blocks of that are moved.
    pub(crate) fn moved(&self) -> Option<(Nexus, u32)>
        ensures { result ≡ moved_in self.now.state }
    {
        match self.state {
            State::Busy(nexus, job) => Some((nexus, job.moved())),
            State::Fresh | State::In(_) | State::Asking(_) | State::Dead(_) => None,
        }
    }

    pub(crate) fn is_dead(&self) -> bool
        requires { IsSettled self.now }
        ensures { MatchBool result ((lane_of self.now).phase ≡ lanes.Dead)
            ((lane_of self.now).phase ≡ lanes.Dead → ⊥) }
    {
        matches!(self.state, State::Dead(_))
    }

    /// Takes the first bytes, as many as there is room for, and says how many. A session that has
    /// ended drops all.
    pub fn feed(&mut self, bytes: &[u8]) -> usize
        requires { IsSettled self.old }
        ensures count { result ≡ fed (lane_of self.old) bytes.now }
        ensures lane { lane_of self.new ≡ arrived (lane_of self.old) (take result bytes.now) }
        ensures bound { length (lane_of self.new).bytes ≤ HELD }
        ensures keeps { (self.new.state ≡ self.old.state) × (reply_of self.new ≡ reply_of self.old) }
    {
        if self.is_dead() {
            return bytes.len();
        }
        self.deframer.feed(bytes)
    }

    /// Takes bytes of the connection from a source, by one call, as many as there is room for, and
    /// says how many. None, where there is room, is the end of the source.
    ///
    /// # Errors
    ///
    /// Where the source has failed. Nothing was taken then.
    pub fn take_from<S: Source>(&mut self, source: &mut S) -> Result<usize, Failed>
        requires settled { IsSettled self.old }
        requires awaits { AwaitsFrame (lane_of self.old).phase }
        requires replied { reply_of self.old ≡ [] }
        ensures takes { Takes (S.rest source.old) (S.rest source.new) (lane_of self.old)
            (lane_of self.new) result }
        ensures end { IfOk result (λ n. HasEnded (S.rest source.new) n
            (HELD - length (lane_of self.old).bytes)) }
        ensures keeps { (self.new.state ≡ self.old.state) × (reply_of self.new ≡ []) }
        ensures cause { HasCause (S.faults source.old) (S.faults source.new) result }
    {
        let room = HELD - self.deframer.held();
        let n = self.work.take_from(source, room)?;
        self.deframer.feed(self.work.front(n));
        Ok(n)
    }

    /// Sends the reply that waits, in as few calls of the sink as it allows.
    ///
    /// # Errors
    ///
    /// Where the sink has failed. A front of the reply was sent then.
    pub fn send_to<K: Sink>(&mut self, sink: &mut K) -> Result<(), Failed>
        ensures all { OnOk result (Put (K.written sink.old) (K.written sink.new)
            (reply_of self.old)) }
        ensures some { OnErr result (PutSome (K.written sink.old) (K.written sink.new)
            (reply_of self.old)) }
        ensures sent { OnOk result (reply_of self.new ≡ []) }
        ensures keeps { IsKept self.old self.new }
        ensures cause { HasCause (K.faults sink.old) (K.faults sink.new) result }
    {
        put_all(sink, self.reply())?;
        let len = self.reply().len();
        self.sent(len);
        Ok(())
    }

    /// The bytes of the reply that aren't sent yet.
    pub fn reply(&self) -> &[u8]
        ensures { result.now ≡ reply_of self.now }
    {
        self.work.range(self.start, self.stop)
    }

    /// So many more bytes of the reply are sent.
    pub fn sent(&mut self, n: usize)
        requires { n ≤ length (reply_of self.old) }
        ensures reply { reply_of self.new ≡ drop n (reply_of self.old) }
        ensures keeps { IsKept self.old self.new }
    {
        self.start += n;
        if self.start == self.stop {
            self.start = ROOM;
            self.stop = ROOM;
        }
    }

    /// Writes four bytes in front of a reply that waits, as the head of a record that has it.
    pub fn put_head(&mut self, head: [u8; 4])
        requires { 0 < length (reply_of self.old) }
        ensures room { room_of self.new ≡ head }
        ensures reply { reply_of self.new ≡ reply_of self.old }
        ensures keeps { IsKept self.old self.new }
    {
        self.work.write_at(self.start - ROOM, &head);
    }

    /// The four bytes in front of the reply, and the reply.
    pub fn headed_reply(&self) -> &[u8]
        ensures { result.now ≡ room_of self.now ++ reply_of self.now }
    {
        self.work.range(self.start - ROOM, self.stop)
    }

    /// What it wants next. Asked again before the answer it wants the same.
    ///
    /// Where a frame breaks a rule and nobody is logged in, the session has ended, and a Reject is
    /// its reply.
    #[inline(always)]
    pub fn want(&mut self) -> Want
        requires { reply_of self.old ≡ [] }
        ensures begins { IsSettled self.old →
            Begins (lane_of self.old) (turn (lane_of self.old)) result self.new }
        ensures again { Continues self.old.state result self.old self.new }
    {
        match self.state {
            State::Asking(asked) => asked.want(),
            State::Dead(_) => Want::Dead,
            State::Fresh => self.begin(None),
            State::In(nexus) => self.begin(Some(nexus)),
            State::Busy(nexus, _) => Want::Act(nexus, Act::Step),
        }
    }

    /// Begins the next turn of a session that lives.
    #[inline(always)]
    fn begin(&mut self, logged_in: Option<Nexus>) -> Want
        requires lives { self.old.state ≡ living logged_in }
        requires replied { reply_of self.old ≡ [] }
        ensures { Begins (lane_of self.old) (turn (lane_of self.old)) result self.new }
    {
        let place = self.deframer.place();
        match self.work.take_frame(&mut self.deframer) {
            Got::Need(lacks) => Want::Need(lacks),
            Got::Bad { place, reason } => { self.refuse(logged_in, Rejection { place, reason }) }
            Got::Frame(head) => self.serve(logged_in, place, head),
        }
    }

    /// A turn waits for its act's outcome.
    #[inline(always)]
    fn ask(&mut self, asked: Asked) -> Want
        ensures want { result ≡ want_of asked }
        ensures state { self.new.state ≡ State.Asking asked }
        ensures stream { self.new.deframer ≡ self.old.deframer }
        ensures work { self.new.work ≡ self.old.work }
    {
        self.state = State::Asking(asked);
        asked.want()
    }

    /// A frame breaks a rule.
    fn refuse(&mut self, logged_in: Option<Nexus>, rejection: Rejection) -> Want
        ensures { (l : Lane) → l.phase ≡ phase_in logged_in →
            Begins l (broken (phase_in logged_in) rejection.place rejection.reason)
            result self.new }
    {
        match logged_in {
            Some(nexus) => self.ask(Asked::Reject { nexus, rejection }),
            None => {
                self.reject(rejection);
                Want::Dead
            }
        }
    }

    /// A frame came, from this place on; its body is in the work buffer.
    #[inline(always)]
    fn serve(&mut self, logged_in: Option<Nexus>, place: u64, head: Frame) -> Want
        requires formed { streams.IsFormed Target head (work_of self.old) }
        requires placed { place_of self.old.deframer ≡
            place_after place (streams.frame_of head (take head.body (work_of self.old))) }
        ensures { (l : Lane) → l.phase ≡ phase_in logged_in →
            Begins l (asked (phase_in logged_in) place
            (streams.frame_of head (take head.body (work_of self.old)))
            (held_of self.old.deframer)) result self.new }
    {
        let rejection = Rejection { place, reason: 5 };
        let request = Request::read(head.kind, self.work.front(head.body));
        match logged_in {
            None => match request {
                Request::Login { version, nexus } => self.ask(Asked::Login {
                    head,
                    nexus,
                    version,
                }),
                Request::Command { .. } | Request::Logout => self.refuse(None, rejection),
            },
            Some(nexus) => match request {
                Request::Command { cdb, data_out } => self.ask(Asked::Command {
                    head,
                    nexus,
                    cdb,
                    out_len: data_out,
                }),
                Request::Logout => self.ask(Asked::Logout { head, nexus }),
                Request::Login { .. } => self.refuse(Some(nexus), rejection),
            },
        }
    }

    /// The data of the command last wanted: its data-out first, and once it was done its data-in; and
    /// then room, 524,300 bytes in all.
    pub fn work(&self) -> &[u8]
        ensures { result.now ≡ slice_range (work_of self.now) COMMAND_HEAD HELD }
    {
        self.work.range(COMMAND_HEAD, HELD)
    }

    /// What its turn under way asks for: by a frame that came, or by the task that runs.
    #[inline(always)]
    fn asked(&self) -> Asked
        requires { is_some (asked_in self.now.state) ≡ true }
        ensures { asked_in self.now.state ≡ Some result }
    {
        match self.state {
            State::Asking(asked) => asked,
            State::Busy(nexus, job) => Asked::Step { nexus, job },
            State::Fresh | State::In(_) | State::Dead(_) => unreachable!(),
        }
    }

    /// The block of the step last wanted, of 512 bytes: those that it carries first, and once it was
    /// done those that it read.
    pub fn block(&self) -> &[u8]
        requires { IsStepping self.now }
        ensures { (nexus : Nexus) (job : Job) → self.now.state ≡ states.Busy nexus job
            → result.now ≡ block_in job (work_of self.now) }
    {
        let State::Busy(_, job) = self.state else {
            unreachable!();
        };
        let at = job.block_place();
        self.work.range(at, at + BLOCK)
    }

    /// Has the act that is wanted done by a target, under a number. A command has its data-out from the
    /// work buffer, and leaves its data-in there, and a step moves its block from there or to there.
    #[inline(always)]
    pub fn perform<M: Medium, D: Disk>(&mut self, core: &mut Core<M, D>, who: u64) -> Out
        requires { IsReadyIn self.old core.old who }
        ensures does { (a : Asked) → asked_in self.old.state ≡ Some a → Does a who core.old
            (work_of self.old) result core.new (work_of self.new) }
        ensures keeps { (self.new.state ≡ self.old.state) × (self.new.deframer ≡ self.old.deframer) }
        ensures others { KeepsOthers who core.old core.new }
    {
        match self.asked() {
            Asked::Login { nexus, version, .. } => Out::Login(core.login(who, version, nexus)),
            Asked::Command {
                head,
                nexus,
                cdb,
                out_len,
            } => Out::Command(self.work.command(core, who, nexus, head.lun, &cdb, out_len)),
            Asked::Step { nexus, job } => {
                Out::Step(self.work.step(core, who, nexus, job.block_place()))
            }
            Asked::Logout { nexus, .. } | Asked::Reject { nexus, .. } => {
                core.logout(who, nexus);
                Out::Logout
            }
        }
    }

    /// The bytes that the act carries that is wanted, before it is done.
    pub(crate) fn sent_bytes(&self) -> Excerpt
        requires { is_some (asked_in self.now.state) ≡ true }
        ensures { (a : Asked) → asked_in self.now.state ≡ Some a
            → result ≡ drop (sent_place a) (work_of self.now) }
    {
        let at = match self.asked() {
            Asked::Command { .. } => COMMAND_HEAD,
            Asked::Step { job, .. } => job.carried_place(),
            Asked::Login { .. } | Asked::Logout { .. } | Asked::Reject { .. } => 0,
        };
        self.work.excerpt(at)
    }

    /// The entry of the act that is wanted, which carried these bytes and was done under a number.
    pub(crate) fn entry(&self, who: u64, sent: Excerpt, out: &Out) -> Entry
        requires { IsAnswer self.now out.now }
        ensures { (a : Asked) (work : List ℕ) → asked_in self.now.state ≡ Some a
            → sent ≡ drop (sent_place a) work → result ≡ entry who (nexus_in a) (act_by a work)
            (outcome_by a out.now (work_of self.now)) }
    {
        match self.asked() {
            Asked::Login { nexus, version, .. } => login_entry(who, nexus, version, out),
            Asked::Command {
                head,
                nexus,
                cdb,
                out_len,
            } => self
                .work
                .command_entry(who, nexus, head.lun, &cdb, sent, out_len, out),
            Asked::Step { nexus, job } => {
                let left = self.work.excerpt(job.block_place());
                step_entry(who, nexus, sent, job.carried_len(), out, left)
            }
            Asked::Logout { nexus, .. } | Asked::Reject { nexus, .. } => Entry::logout(who, nexus),
        }
    }

    /// How the act that is wanted came out. The reply then waits, if there is one.
    #[inline(always)]
    pub fn answer(&mut self, out: &Out)
        requires { IsAnswer self.old out.now }
        ensures turned { HasTurned self.new (next_of self.old out.now) }
        ensures rejection { rejection_of self.new ≡ rejection_in self.old.state }
    {
        match (self.asked(), *out) {
            (Asked::Login { head, nexus, .. }, Out::Login(code)) => {
                self.answer_login(head, nexus, code);
            }
            (
                Asked::Command {
                    head,
                    nexus,
                    out_len,
                    ..
                },
                Out::Command(out),
            ) => self.answer_command(head, nexus, out_len, out),
            (Asked::Step { nexus, job }, Out::Step(out)) => self.answer_step(nexus, job, out),
            (Asked::Logout { head, .. }, Out::Logout) => self.leave(head),
            (Asked::Reject { rejection, .. }, Out::Logout) => self.reject(rejection),
            _ => unreachable!(),
        }
    }

    /// A reply to a request with this LUN and tag waits.
    #[inline(always)]
    fn reply_with(&mut self, lun: u16, tag: u32, reply: &Reply)
        requires writable { IsWritable reply.now }
        requires idle { is_busy self.old.state ≡ false }
        ensures reply { reply_of self.new ≡ spelled (reply_frame reply.now lun tag
            (take (data_in_of reply.now) (data_in (work_of self.old)))) }
        ensures keeps { (self.new.state ≡ self.old.state) × (self.new.deframer ≡ self.old.deframer) }
    {
        let len = self.work.write_reply(lun, tag, reply);
        self.start = ROOM;
        self.stop = ROOM + len;
    }

    /// A Login is answered with a code.
    fn answer_login(&mut self, head: Frame, nexus: Nexus, code: u8)
        ensures turned { HasTurned self.new (turned (lane (held_of self.old.deframer)
            (phase_after_login nexus code) (place_of self.old.deframer))
            (spelled (frame 0x81 head.lun head.tag (login_reply code)))) }
        ensures rejection { rejection_of self.new ≡ None }
    {
        self.state = state_after(nexus, code);
        self.reply_with(head.lun, head.tag, &Reply::Login { code });
    }

    /// A command is answered, or its task begins.
    #[inline(always)]
    fn answer_command(&mut self, head: Frame, nexus: Nexus, out_len: usize, out: CommandOut)
        requires proper { IsProper out }
        requires fed { IsFed out out_len }
        ensures turned { (cdb : List ℕ) → HasTurned self.new (next_by
            (waits.Command head nexus cdb out_len) (work_of self.old) (held_of self.old.deframer)
            (place_of self.old.deframer) (out_of out (data_in (work_of self.old)))) }
        ensures rejection { rejection_of self.new ≡ None }
    {
        match out {
            CommandOut::Ended { status, sense, len } => {
                self.end(nexus, head.lun, head.tag, status, sense, len);
            }
            CommandOut::Started { way, .. } => self.go_on(nexus, Job::begin(head, way, out_len)),
        }
    }

    /// A step of a task is made: it goes on, or its command is answered.
    fn answer_step(&mut self, nexus: Nexus, job: Job, out: StepOut)
        requires { FitsStep job out }
        ensures turned { HasTurned self.new (after_step nexus (job_of job (work_of self.old))
            (held_of self.old.deframer) (place_of self.old.deframer)
            (step_out out (block_in job (work_of self.old)))) }
        ensures rejection { rejection_of self.new ≡ None }
    {
        match out {
            StepOut::Wrote { .. } => self.go_on(nexus, job.after_write()),
            StepOut::Read { .. } => self.go_on(nexus, job.after_read()),
            StepOut::Done => {
                self.end(nexus, job.lun, job.tag, Status::Good, None, job.data_in());
            }
            StepOut::Aborted => self.end(nexus, job.lun, job.tag, Status::TaskAborted, None, 0),
            StepOut::Fault(code) => {
                let sense = Sense { code, info: None };
                self.end(
                    nexus,
                    job.lun,
                    job.tag,
                    Status::CheckCondition,
                    Some(sense),
                    0,
                );
            }
        }
    }

    /// A task of a nexus goes on, without a reply.
    fn go_on(&mut self, nexus: Nexus, job: Job)
        ensures turned { HasTurned self.new (turned (lane (held_of self.old.deframer)
            (lanes.Busy nexus (job_of job (work_of self.old))) (place_of self.old.deframer)) []) }
        ensures rejection { rejection_of self.new ≡ None }
    {
        self.state = State::Busy(nexus, job);
        self.start = ROOM;
        self.stop = ROOM;
    }

    /// The command with this LUN and tag has ended, with so many bytes of data-in, and is answered.
    #[inline(always)]
    fn end(
        &mut self,
        nexus: Nexus,
        lun: u16,
        tag: u32,
        status: Status,
        sense: Option<Sense>,
        len: usize,
    )
        requires { replies.IsAnswer status sense len }
        ensures turned { HasTurned self.new (turned (lane (held_of self.old.deframer)
            (lanes.In nexus) (place_of self.old.deframer)) (spelled (frame 0x82 lun tag
            (command_reply status sense (take len (data_in (work_of self.old))))))) }
        ensures rejection { rejection_of self.new ≡ None }
    {
        self.state = State::In(nexus);
        let reply = Reply::of_command(status, sense, len);
        self.reply_with(lun, tag, &reply);
    }

    /// A Logout is answered, and the session ends.
    fn leave(&mut self, head: Frame)
        ensures turned { HasTurned self.new
            (turned dead (spelled (frame 0x83 head.lun head.tag []))) }
        ensures rejection { rejection_of self.new ≡ None }
    {
        self.deframer.restart();
        self.state = State::Dead(None);
        self.reply_with(head.lun, head.tag, &Reply::Logout);
    }

    /// The session ends with a Reject.
    fn reject(&mut self, rejection: Rejection)
        ensures turned { HasTurned self.new (rejected rejection.reason rejection.place) }
        ensures rejection { rejection_of self.new ≡ Some rejection }
    {
        self.deframer.restart();
        self.state = State::Dead(Some(rejection));
        let Rejection { place, reason } = rejection;
        self.reply_with(0, 0, &Reply::Reject { reason, place });
    }
}

/// What a session has reached after a Login.
fn state_after(nexus: Nexus, code: u8) -> State
    ensures settled { IsSettledIn result }
    ensures phase { (work : List ℕ) → phase_of result work ≡ phase_after_login nexus code }
    ensures idle { is_busy result ≡ false }
    ensures rejection { rejection_at result ≡ None }
{
    if code == 0 {
        State::In(nexus)
    } else {
        State::Fresh
    }
}

/// The entry of a login.
fn login_entry(who: u64, nexus: Nexus, version: u8, out: &Out) -> Entry
    requires { (code : ℕ) × (out.now ≡ Out.Login code) }
    ensures { (code : ℕ) → out.now ≡ Out.Login code → result ≡ entry who nexus
        (entries.Login version) (entries.Login_code code) }
{
    match *out {
        Out::Login(code) => Entry::login(who, nexus, version, code),
        Out::Command(_) | Out::Step(_) | Out::Logout => unreachable!(),
    }
}

/// The entry of a step, which carried the first of these bytes, and behind which a block that it
/// read stands at the front of those.
fn step_entry(
    who: u64,
    nexus: Nexus,
    sent: Excerpt,
    sent_len: usize,
    out: &Out,
    left: Excerpt,
) -> Entry
    requires { (step : StepOut) × (out.now ≡ Out.Step step) }
    ensures { (step : StepOut) → out.now ≡ Out.Step step → result ≡ entry who nexus
        (entries.Step (take sent_len sent)) (step_out step (take BLOCK left)) }
{
    match *out {
        Out::Step(out) => Entry::step(who, nexus, sent, sent_len, out, left),
        Out::Login(_) | Out::Command(_) | Out::Logout => unreachable!(),
    }
}
