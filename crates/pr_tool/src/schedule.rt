ghost use Rattle.std.specs.Prelude.{◌≡◌, ◌≤◌, ◌<◌, ℕ, List, true, length, slice_index, IfOk, IfErr, OnOk};
ghost use Rattle.pr_io.specs.Streams.{Took};
ghost use Rattle.pr_words.specs.declared.limits.TheConstants.{PIECE};
ghost use Rattle.pr_grammar.specs.Schedules as schedules;
ghost use Rattle.pr_tool.specs.Counting.{faults_at, faults_read};
ghost use Rattle.pr_tool.specs.Reading.{lane_record_of, Reads, Stops, Cuts, Ends, end_at};

use pr_io::{Source, read_up_to};
use pr_words::get_u16;

/// A record of a schedule, as it was read.
#[derive(Clone, Copy, Debug, PartialEq, Eq)]
pub(crate) enum Record {
    /// A lane's connection brings bytes, is looked at, or is closed.
    OfLane(LaneRecord),
    /// Power is lost and comes back.
    Power,
}

/// A record that acts on one lane.
#[derive(Clone, Copy, Debug, PartialEq, Eq)]
pub(crate) enum LaneRecord {
    /// Bytes arrive on a lane: the first `len` bytes of the buffer that they were read into.
    Arrival { lane: u8, len: usize },
    /// A lane takes a step.
    Step { lane: u8 },
    /// A lane's connection is closed.
    Close { lane: u8 },
}

impl LaneRecord {
    /// The lane on which it acts.
    pub(crate) fn lane(self) -> u8
        ensures { (body : List ℕ) → result ≡ schedules.lane_of (lane_record_of self body) }
    {
        match self {
            LaneRecord::Arrival { lane, .. }
            | LaneRecord::Step { lane }
            | LaneRecord::Close { lane } => lane,
        }
    }
}

/// Why no record was read.
#[derive(Clone, Copy, Debug, PartialEq, Eq)]
pub(crate) enum End {
    /// The schedule has ended, where a record may begin.
    Done,
    /// The source failed.
    ReadFault,
    /// What comes can't become a record, or the schedule ended inside one.
    Broken,
    /// The schedule goes on behind the last byte that is looked at.
    TooLong,
}

impl End {
    /// The end of a schedule: whether it came inside a record that had begun.
    fn at(begun: bool) -> End
        ensures { result ≡ end_at begun }
    {
        if begun { End::Broken } else { End::Done }
    }
}

/// The byte at a place, and zero where none has come.
fn byte_at(bytes: &[u8], at: usize) -> u8
    ensures { result ≡ slice_index bytes.now at }
{
    bytes.get(at).copied().unwrap_or(0)
}

/// Whether these can be the first bytes of a record.
fn can_begin(lanes: u8, bytes: &[u8]) -> bool
    ensures { result ≡ schedules.can_begin lanes bytes.now }
{
    let kind = byte_at(bytes, 1);
    let is_empty = byte_at(bytes, 2) == 0 && byte_at(bytes, 3) == 0;
    let lane = byte_at(bytes, 0);
    lane < lanes && kind < 4 && (kind == 0 || is_empty) && (kind < 3 || lane == 0)
}

/// Takes one byte more, to see whether the source has ended where no more is looked at.
fn look_behind<S: Source>(source: &mut S, begun: bool) -> End
    ensures ends { Ends begun result (S.rest source.old) (S.rest source.new) }
    ensures faults { S.faults source.new ≡ faults_at result (S.faults source.old) }
{
    match source.take(&mut [0]) {
        Ok(0) => End::at(begun),
        Ok(_) => End::TooLong,
        Err(_) => End::ReadFault,
    }
}

/// Reads the four bytes of a record's head, of `left` bytes that may still be looked at.
fn read_head<S: Source>(source: &mut S, lanes: u8, left: u64) -> Result<[u8; 4], End>
    ensures took { IfOk result (λ head. Took (S.rest source.old) (S.rest source.new) head) }
    ensures begins { IfOk result (λ head. schedules.can_begin lanes head ≡ true) }
    ensures room { OnOk result (4 ≤ left) }
    ensures stops { IfErr result (λ end. Stops lanes left end (S.rest source.old)
        (S.rest source.new)) }
    ensures faults { S.faults source.new ≡ faults_read result (S.faults source.old) }
{
    if left < 4 {
        return Err(read_cut_head(source, lanes, left));
    }
    let mut head = [0; 4];
    let Ok(got) = read_up_to(source, &mut head) else {
        return Err(End::ReadFault);
    };
    if got < 4 {
        return Err(End::at(got > 0));
    }
    if !can_begin(lanes, &head) {
        return Err(End::Broken);
    }
    Ok(head)
}

/// Reads the fewer than four bytes that may still be looked at, and says why they are no record.
fn read_cut_head<S: Source>(source: &mut S, lanes: u8, left: u64) -> End
    requires { left < 4 }
    ensures stops { Stops lanes left result (S.rest source.old) (S.rest source.new) }
    ensures faults { S.faults source.new ≡ faults_at result (S.faults source.old) }
{
    let mut head = [0; 4];
    let room = left as usize;
    let Ok(got) = read_up_to(source, &mut head[..room]) else {
        return End::ReadFault;
    };
    if got < room {
        return End::at(got > 0);
    }
    if !can_begin(lanes, &head[..room]) {
        return End::Broken;
    }
    look_behind(source, room > 0)
}

/// Reads the bytes of an arrival behind its head, of `left` bytes that may still be looked at.
fn read_body<S: Source>(source: &mut S, left: u64, body: &mut [u8]) -> Result<(), End>
    requires { length body.old ≤ PIECE }
    ensures took { OnOk result (Took (S.rest source.old) (S.rest source.new) body.new) }
    ensures room { OnOk result (length body.old ≤ left) }
    ensures cuts { IfErr result (λ end. Cuts (length body.old) left end (S.rest source.old)
        (S.rest source.new)) }
    ensures faults { S.faults source.new ≡ faults_read result (S.faults source.old) }
{
    let room = left.min(body.len() as u64) as usize;
    let Ok(got) = read_up_to(source, &mut body[..room]) else {
        return Err(End::ReadFault);
    };
    if got < room {
        return Err(End::Broken);
    }
    if room < body.len() {
        return Err(look_behind(source, true));
    }
    Ok(())
}

/// Reads one record of a schedule of so many lanes, of `left` bytes that may still be looked at.
///
/// The buffer has room for the 65,535 bytes that an arrival may bring. Where the last byte that
/// may be looked at comes inside a record or behind one, one byte more is taken, to see whether
/// the schedule ends there.
///
/// # Errors
///
/// Where no record was read, and why. Bytes of a record that was begun are lost.
pub(crate) fn read_record<S: Source>(
    source: &mut S,
    lanes: u8,
    left: u64,
    body: &mut [u8],
) -> Result<Record, End>
    requires { PIECE ≤ length body.old }
    ensures reads { Reads lanes left result (S.rest source.old) (S.rest source.new) body.new }
    ensures faults { S.faults source.new ≡ faults_read result (S.faults source.old) }
{
    let head = read_head(source, lanes, left)?;
    let lane = head[0];
    if head[1] == 1 {
        return Ok(Record::OfLane(LaneRecord::Step { lane }));
    }
    if head[1] == 2 {
        return Ok(Record::OfLane(LaneRecord::Close { lane }));
    }
    if head[1] == 3 {
        return Ok(Record::Power);
    }
    let len = usize::from(get_u16(&head, 2));
    read_body(source, left - 4, &mut body[..len])?;
    Ok(Record::OfLane(LaneRecord::Arrival { lane, len }))
}
