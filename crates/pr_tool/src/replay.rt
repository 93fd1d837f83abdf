ghost use Rattle.std.specs.Prelude.{◌≡◌, ◌+◌, ◌-◌, ◌≤◌, ◌<◌, ◌^◌, ◌↔◌, ◌⊎◌, ℕ, List, replicate, length, vec_len, IfOk, OnOk, OnErr};
ghost use Rattle.pr_io.specs.Causes.{HasCause};
ghost use Rattle.pr_io.specs.Told.{told_sink, told_streams, told};
ghost use Rattle.pr_words.specs.declared.limits.TheConstants.{LANES};
ghost use Rattle.pr_grammar.specs.Schedules as schedules;
ghost use Rattle.pr_model.specs.Lanes.{fresh};
ghost use Rattle.pr_model.specs.Lanes as model;
ghost use Rattle.pr_model.specs.Runs.{RunsRecord, CutsRecord, ActsOn};
ghost use Rattle.pr_core.specs.View.{medium_of, disk_of, KeepsOthers};
ghost use Rattle.pr_tool.specs.Reading.{lane_record_of, IsHeldOf, Reads};
ghost use Rattle.pr_tool.specs.Lanes.{lane_of, lanes_of};
ghost use Rattle.pr_session.specs.Driving.{Agrees, AllAgree};
ghost use Rattle.pr_tool.specs.Counting.{faults_read};
ghost use Rattle.pr_tool.specs.Exits.{Ran, RunEnds, Leaves, Stands, Causes, Decides};
ghost use Rattle.pr_tool.specs.Stops.{exit_of, unopened_of, RunsOne};
ghost use Rattle.pr_tool.specs.Asking.{AsksReplay};

use crate::asking::lanes_asked;
use crate::exit::Exit;
use crate::lane::Lane;
use crate::schedule::{End, LaneRecord, Record, read_record};
use pr_core::{Core, OpenFault};
use pr_io::{Disk, Failed, Medium, Sink, Source};
use pr_words::PIECE;
use std::alloc::{AllocError, Global};

/// The most bytes of a schedule that are looked at.
const BUDGET: u64 = 1 << 32;

/// Bytes arrive on the lane of a number. While not all fit, it takes turns.
fn arrive<K: Sink, M: Medium, D: Disk>(
    sink: &mut K,
    core: &mut Core<M, D>,
    lane: &mut Lane,
    who: u8,
    bytes: &[u8],
) -> Result<(), Failed>
    requires { Agrees (lane_of lane.old).phase who core.old }
    ensures all { OnOk result (Ran (RunsRecord (schedules.Arrival who bytes.now))
        (told_sink K.Sink sink.old) (told_sink K.Sink sink.new)
        core.old (lane_of lane.old) core.new (lane_of lane.new)) }
    ensures some { OnErr result ((m : model.Lane) × Ran (CutsRecord (schedules.Arrival who bytes.now))
        (told_sink K.Sink sink.old) (told_sink K.Sink sink.new) core.old
        (lane_of lane.old) core.new m) }
    ensures agrees { Agrees (lane_of lane.new).phase who core.new }
    ensures others { KeepsOthers who core.old core.new }
    ensures cause { HasCause (K.faults sink.old) (K.faults sink.new) result }
{
    let mut at = lane.feed(bytes);
    while at < bytes.len() {
        lane.turn(sink, core, who)?;
        at += lane.feed(&bytes[at..]);
    }
    Ok(())
}

/// What a record does on its lane, whose bytes stand in the buffer.
fn act<K: Sink, M: Medium, D: Disk>(
    sink: &mut K,
    core: &mut Core<M, D>,
    lane: &mut Lane,
    found: LaneRecord,
    body: &[u8],
) -> Result<(), Failed>
    requires agrees { Agrees (lane_of lane.old).phase
        (schedules.lane_of (lane_record_of found body.now)) core.old }
    requires held { IsHeldOf found }
    requires room { PIECE ≤ length body.now }
    ensures all { OnOk result (Ran (RunsRecord (lane_record_of found body.now))
        (told_sink K.Sink sink.old) (told_sink K.Sink sink.new)
        core.old (lane_of lane.old) core.new (lane_of lane.new)) }
    ensures some { OnErr result ((m : model.Lane) × Ran (CutsRecord (lane_record_of found body.now))
        (told_sink K.Sink sink.old) (told_sink K.Sink sink.new) core.old
        (lane_of lane.old) core.new m) }
    ensures agrees { Agrees (lane_of lane.new).phase
        (schedules.lane_of (lane_record_of found body.now)) core.new }
    ensures others { KeepsOthers (schedules.lane_of (lane_record_of found body.now)) core.old core.new }
    ensures cause { HasCause (K.faults sink.old) (K.faults sink.new) result }
{
    match found {
        LaneRecord::Arrival { lane: who, len } => arrive(sink, core, lane, who, &body[..len]),
        LaneRecord::Step { lane: who } => lane.turn(sink, core, who),
        LaneRecord::Close { lane: who } => {
            lane.close(core, who as u64);
            Ok(())
        }
    }
}

/// What a record does, on its lane of these.
fn act_on<K: Sink, M: Medium, D: Disk>(
    sink: &mut K,
    core: &mut Core<M, D>,
    lanes: &mut [Lane],
    found: LaneRecord,
    body: &[u8],
) -> Result<(), Failed>
    requires agree { AllAgree (lanes_of lanes.old) core.old }
    requires held { IsHeldOf found }
    requires room { PIECE ≤ length body.now }
    requires valid { schedules.IsRecord (length lanes.old) (lane_record_of found body.now) }
    ensures all { OnOk result (Ran (ActsOn RunsRecord (lane_record_of found body.now))
        (told_sink K.Sink sink.old) (told_sink K.Sink sink.new)
        core.old (lanes_of lanes.old) core.new (lanes_of lanes.new)) }
    ensures some { OnErr result ((last : List model.Lane)
        × Ran (ActsOn CutsRecord (lane_record_of found body.now))
        (told_sink K.Sink sink.old) (told_sink K.Sink sink.new) core.old
        (lanes_of lanes.old) core.new last) }
    ensures agree { AllAgree (lanes_of lanes.new) core.new }
    ensures count { length lanes.new ≡ length lanes.old }
    ensures cause { HasCause (K.faults sink.old) (K.faults sink.new) result }
{
    let lane = &mut lanes[found.lane() as usize];
    act(sink, core, lane, found, body)
}

/// What came of a record that was read.
#[derive(Clone, Copy, Debug)]
enum Event {
    /// It acted on its lane, and takes so many bytes of the schedule.
    Acted { size: u64 },
    /// Power is lost, which takes four bytes.
    PowerLoss,
}

/// Why a run stops: no record was read, or a reply couldn't be written.
#[derive(Clone, Copy, Debug)]
enum Stop {
    Read(End),
    Write,
}

impl Stop {
    /// The exit with which a run stops behind so many bytes of whole records.
    fn exit(self, place: u64) -> Exit
        ensures { result ≡ exit_of self place }
    {
        match self {
            Stop::Read(End::Done) => Exit::Done,
            Stop::Read(End::ReadFault) => Exit::ReadFault,
            Stop::Read(End::Broken) => Exit::BadSchedule { place },
            Stop::Read(End::TooLong) => Exit::TooLong,
            Stop::Write => Exit::WriteFault,
        }
    }
}

/// Reads one record into the buffer.
fn read_into<S: Source>(
    source: &mut S,
    lanes: u8,
    left: u64,
    body: &mut Vec<u8>,
) -> Result<Record, End>
    requires { vec_len body.old ≡ PIECE }
    ensures reads { Reads lanes left result (S.rest source.old) (S.rest source.new) body.new.items }
    ensures room { vec_len body.new ≡ PIECE }
    ensures faults { S.faults source.new ≡ faults_read result (S.faults source.old) }
{
    read_record(source, lanes, left, body)
}

/// How many bytes of a schedule a record of a lane takes.
fn size_of(found: LaneRecord) -> u64
    requires { IsHeldOf found }
    ensures size { (body : List ℕ) → PIECE ≤ length body →
        result ≡ length (schedules.spelled_record (lane_record_of found body)) }
    ensures some { 4 ≤ result }
{
    match found {
        LaneRecord::Arrival { len, .. } => 4 + len as u64,
        LaneRecord::Step { .. } | LaneRecord::Close { .. } => 4,
    }
}

/// Reads one record, of `left` bytes that may still be looked at, and lets it act, where it is one
/// of a lane. What came of it, or why the run stops.
fn run_one<S: Source, K: Sink, M: Medium, D: Disk>(
    source: &mut S,
    sink: &mut K,
    core: &mut Core<M, D>,
    lanes: &mut [Lane],
    left: u64,
    body: &mut Vec<u8>,
) -> Result<Event, Stop>
    requires agree { AllAgree (lanes_of lanes.old) core.old }
    requires most { length lanes.old ≤ LANES }
    requires room { vec_len body.old ≡ PIECE }
    ensures does { RunsOne (length lanes.old) left result
        (told_streams S.Source K.Sink source.old sink.old)
        (told_streams S.Source K.Sink source.new sink.new)
        core.old (lanes_of lanes.old) core.new (lanes_of lanes.new) }
    ensures agree { AllAgree (lanes_of lanes.new) core.new }
    ensures count { length lanes.new ≡ length lanes.old }
    ensures room { vec_len body.new ≡ PIECE }
{
    let found = match read_into(source, lanes.len() as u8, left, body) {
        Ok(Record::OfLane(found)) => found,
        Ok(Record::Power) => return Ok(Event::PowerLoss),
        Err(end) => return Err(Stop::Read(end)),
    };
    match act_on(sink, core, lanes, found, body) {
        Ok(()) => Ok(Event::Acted {
            size: size_of(found),
        }),
        Err(_) => Err(Stop::Write),
    }
}

/// All connections are new ones.
fn renew(lanes: &mut [Lane])
    ensures fresh { lanes_of lanes.new ≡ replicate (length lanes.old) fresh }
    ensures count { length lanes.new ≡ length lanes.old }
{
    for lane in lanes.iter_mut() {
        lane.renew();
    }
}

/// Runs a schedule of which so many bytes are looked at, on these lanes, and hands disk and medium
/// back.
fn run<S: Source, K: Sink, M: Medium, D: Disk>(
    alloc: Global,
    source: &mut S,
    sink: &mut K,
    opened: Core<M, D>,
    lanes: &mut [Lane],
    body: &mut Vec<u8>,
    budget: u64,
) -> (Exit, D, M)
    requires fresh { lanes_of lanes.old ≡ replicate (length lanes.old) fresh }
    requires most { length lanes.old ≤ LANES }
    requires room { vec_len body.old ≡ PIECE }
    ensures ends { RunEnds (λ h. Leaves opened result.0 result.1 result.2 h) (length lanes.old)
        budget result.0
        (told_streams S.Source K.Sink source.old sink.old)
        (told_streams S.Source K.Sink source.new sink.new) }
    ensures causes { Causes (length lanes.old) result.0 budget (S.rest source.old) }
{
    let mut core = opened;
    let mut left = budget;
    'records: loop {
        match run_one(source, sink, &mut core, lanes, left, body) {
            Ok(Event::Acted { size }) => left -= size,
            Ok(Event::PowerLoss) => {
                core = match core.power(alloc) {
                    Ok(powered) => powered,
                    Err(parts) => return refused(parts),
                };
                renew(lanes);
                left -= 4;
            }
            Err(stop) => {
                let (disk, medium) = parts_of(core);
                return (stop.exit(budget - left), disk, medium);
            }
        }
    }
}

/// So many new connections.
fn fresh_lanes(alloc: Global, count: usize) -> Result<Vec<Lane>, AllocError>
    ensures fresh { IfOk result (λ s. lanes_of s.items ≡ replicate count fresh) }
    ensures count { IfOk result (λ s. vec_len s ≡ count) }
{
    let mut lanes = Vec::with_capacity(alloc, count)?;
    while lanes.len() < count {
        lanes.push(Lane::new(alloc)?)?;
    }
    Ok(lanes)
}

/// The exit of a target that couldn't be opened.
fn unopened(fault: OpenFault) -> Exit
    ensures { result ≡ unopened_of fault }
{
    match fault {
        OpenFault::BadFile { place } => Exit::BadFile { place },
        OpenFault::DiskFault => Exit::DiskFault,
        OpenFault::OutOfMemory => Exit::NoMemory,
    }
}

/// The exit of a target that couldn't be opened, with its disk and its medium.
fn refused<M: Medium, D: Disk>(parts: (OpenFault, M, D)) -> (Exit, D, M)
    ensures { (result.0 ≡ unopened_of parts.0) × (result.1 ≡ parts.2) × (result.2 ≡ parts.1) }
{
    let (fault, medium, disk) = parts;
    (unopened(fault), disk, medium)
}

/// The disk and the medium of a target to which no record is to come any more.
fn parts_of<M: Medium, D: Disk>(core: Core<M, D>) -> (D, M)
    ensures { (result.0 ≡ disk_of core) × (result.1 ≡ medium_of core) }
{
    let (medium, disk) = core.into_parts();
    (disk, medium)
}

/// `replay_within` with a disk that is handed back.
fn replay_over<S: Source, K: Sink, M: Medium, D: Disk>(
    alloc: Global,
    lanes: usize,
    budget: u64,
    source: &mut S,
    sink: &mut K,
    medium: &mut M,
    disk: D,
) -> (Exit, D)
    requires { (1 ≤ lanes) × (lanes ≤ LANES) }
    ensures stands { Stands ((source.new ≡ source.old) × (sink.new ≡ sink.old)
        × (medium.new ≡ medium.old)) lanes budget result.0
        (told S.Source K.Sink M.Medium D.Disk source.old sink.old medium.old disk)
        (told S.Source K.Sink M.Medium D.Disk source.new sink.new medium.new result.1)
        (D.story disk) (D.story result.1) }
    ensures causes { Causes lanes result.0 budget (S.rest source.old) }
    ensures decides { Decides lanes result.0 budget (S.rest source.old) }
    ensures begun { result.0 ≡ Exit.BadWords → ⊥ }
    ensures disk { D.reference result.1 ≡ D.reference disk }
{
    let Ok(mut sessions) = fresh_lanes(alloc, lanes) else {
        return (Exit::NoMemory, disk);
    };
    let Ok(mut body) = vec![in alloc; 0u8; PIECE] else {
        return (Exit::NoMemory, disk);
    };
    match Core::open(alloc, medium, disk) {
        Ok(core) => {
            let (exit, disk, _medium) = run(
                alloc,
                source,
                sink,
                core,
                &mut sessions,
                &mut body,
                budget,
            );
            (exit, disk)
        }
        Err(parts) => {
            let (exit, disk, _medium) = refused(parts);
            (exit, disk)
        }
    }
}

/// Runs a schedule of so many lanes over a target, of whose bytes no more than the budget are
/// looked at: `replay_main` without its words.
///
/// # Errors
///
/// As `replay_main`, with the budget in place of 2^32 bytes, and never `BadWords`.
pub fn replay_within<S: Source, K: Sink, M: Medium, D: Disk>(
    alloc: Global,
    lanes: usize,
    budget: u64,
    source: &mut S,
    sink: &mut K,
    medium: &mut M,
    disk: &mut D,
) -> Exit
    requires { (1 ≤ lanes) × (lanes ≤ LANES) }

    // The headline: one history whose run over the records read gives the bytes written, legal over
    // the medium and the file handed in and fenced; the medium ends with what it says; and power
    // that is lost at any moment restores what a prefix of it left that holds every entry whose
    // moment has passed. Which object failed, and that no fault of one is passed over.
    ensures stands { Stands ((source.new ≡ source.old) × (sink.new ≡ sink.old)
        × (medium.new ≡ medium.old)) lanes budget result
        (told S.Source K.Sink M.Medium D.Disk source.old sink.old medium.old disk.old)
        (told S.Source K.Sink M.Medium D.Disk source.new sink.new medium.new disk.new)
        (D.story disk.old) (D.story disk.new) }

    // The causes of the exits, and that what the schedule alone brings is the exit.
    ensures causes { Causes lanes result budget (S.rest source.old) }
    ensures decides { Decides lanes result budget (S.rest source.old) }
    ensures begun { result ≡ Exit.BadWords → ⊥ }
{
    let (exit, _disk) = replay_over(alloc, lanes, budget, source, sink, medium, disk);
    exit
}

/// Runs a schedule over a target, on 1 to 64 lanes: the words are `replay` and their number.
///
/// The target begins as after a power-up, with what the registrations' file on the disk has kept.
/// READ and WRITE move blocks of the medium, one with each step; a PERSISTENT RESERVE OUT that
/// changes what APTPL keeps is saved on the disk before it is answered. The schedule's records act in
/// order, each on the lane of its number, under which the target knows that lane, and each reply is
/// written at once. All memory is taken before the first record: some 1 MiB for each lane.
///
/// # Errors
///
/// `BadWords` where the words are others, before anything is read, written or taken; `NoMemory`
/// where the memory is refused, `BadFile` where what stands on the disk isn't a registrations' file,
/// and `DiskFault` where the disk fails when it is opened, before anything is read from the source
/// or written anywhere; `ReadFault` and `WriteFault`
/// where the source or the sink failed; `BadSchedule` where the schedule breaks its grammar or ends
/// inside a record; `TooLong` where it goes on behind its first 2^32 bytes. The records before have
/// run.
pub fn replay_main<S: Source, K: Sink, M: Medium, D: Disk>(
    alloc: Global,
    words: &[&str],
    source: &mut S,
    sink: &mut K,
    medium: &mut M,
    disk: &mut D,
) -> Exit
    ensures words { result ≡ Exit.BadWords ↔ (¬ ((lanes : ℕ) × AsksReplay words.now lanes)) }
    ensures stands { (lanes : ℕ) → AsksReplay words.now lanes
        → Stands ((source.new ≡ source.old) × (sink.new ≡ sink.old)
        × (medium.new ≡ medium.old)) lanes (2 ^ 32) result
        (told S.Source K.Sink M.Medium D.Disk source.old sink.old medium.old disk.old)
        (told S.Source K.Sink M.Medium D.Disk source.new sink.new medium.new disk.new)
        (D.story disk.old) (D.story disk.new) }
    ensures causes { (lanes : ℕ) → AsksReplay words.now lanes →
        Causes lanes result (2 ^ 32) (S.rest source.old) }
    ensures decides { (lanes : ℕ) → AsksReplay words.now lanes →
        Decides lanes result (2 ^ 32) (S.rest source.old) }
    ensures unasked { result ≡ Exit.BadWords → (source.new ≡ source.old)
        × (sink.new ≡ sink.old) × (medium.new ≡ medium.old) × (disk.new ≡ disk.old) }
{
    match lanes_asked(words) {
        Some(lanes) => replay_within(alloc, lanes, BUDGET, source, sink, medium, disk),
        None => Exit::BadWords,
    }
}
