//! A case: what happens in a conversation, and what is to come of it.

ghost use Rattle.std.specs.Prelude.{◌≡◌, ◌≤◌, ◌++◌, [], OnOk};
ghost use Rattle.conversations.specs.Records.{record_of};

use crate::flaw::Flaw;
use pr_tool::Exit;
use pr_words::PIECE;
use std::alloc::Global;

/// One thing that happens, or that is to come out, in the order in which a person tells it.
#[derive(Clone, Drop)]
pub(crate) enum Event {
    /// Bytes arrive on a lane, which then takes a step.
    Asks(u8, Vec<u8>),
    /// Bytes arrive on a lane.
    Sends(u8, Vec<u8>),
    /// Bytes arrive on a lane, each by itself.
    Trickles(u8, Vec<u8>),
    /// A lane takes a step.
    Steps(u8),
    /// A connection is closed.
    Closes(u8),
    /// Bytes of the input, as they are.
    Raw(Vec<u8>),
    /// Bytes are written on a lane.
    Hears(u8, Vec<u8>),
    /// Bytes are written, as they are.
    Prints(Vec<u8>),
}

/// What a case finds below the target: a medium of so many blocks that are zero, whose calls of
/// these numbers fail. The first call is number 1.
#[derive(Clone, Drop)]
pub(crate) struct Below {
    pub blocks: u16,
    pub failing: Vec<u64>,
}

/// A conversation by its name, with the words of the command that runs it.
#[derive(Drop)]
pub(crate) struct Case {
    pub name: String,
    pub call: String,
    pub below: Below,
    pub events: Vec<Event>,
    pub exit: Exit,
}

/// A record of a schedule without bytes, by its second byte.
fn bare(lane: u8, kind: u8) -> [u8; 4]
    ensures { result ≡ record_of lane kind [] }
{
    [lane, kind, 0, 0]
}

/// Adds the record of an arrival, which is also the form of an output record.
fn add_record(records: &mut Vec<u8>, lane: u8, bytes: &[u8]) -> Result<(), Flaw>
    ensures { OnOk result (records.new.items ≡ records.old.items ++ record_of lane 0 bytes.now) }
{
    let length = u16::try_from(bytes.len()).map_err(|_| Flaw::TooLong)?;
    records.extend_from_slice(&[lane, 0])?;
    records.extend_from_slice(&length.to_be_bytes())?;
    records.extend_from_slice(bytes)?;
    Ok(())
}

/// Adds the records of arrivals of at most so many bytes each, and of what comes behind each.
fn add_arrivals(
    records: &mut Vec<u8>,
    lane: u8,
    bytes: &[u8],
    most: usize,
    behind: &[u8],
) -> Result<(), Flaw>
    requires { 1 ≤ most }
{
    for piece in bytes.chunks(most) {
        add_record(records, lane, piece)?;
        records.extend_from_slice(behind)?;
    }
    Ok(())
}

/// The input of these events, in arrivals of at most so many bytes each.
pub(crate) fn input_of(alloc: Global, events: &[Event], most: usize) -> Result<Vec<u8>, Flaw>
    requires { 1 ≤ most }
{
    let mut input = Vec::new(alloc);
    for event in events {
        match event {
            Event::Asks(lane, bytes) => {
                add_arrivals(&mut input, *lane, bytes, most, &bare(*lane, 1))?;
            }
            Event::Sends(lane, bytes) => add_arrivals(&mut input, *lane, bytes, most, &[])?,
            Event::Trickles(lane, bytes) => add_arrivals(&mut input, *lane, bytes, 1, &[])?,
            Event::Steps(lane) => input.extend_from_slice(&bare(*lane, 1))?,
            Event::Closes(lane) => input.extend_from_slice(&bare(*lane, 2))?,
            Event::Raw(bytes) => input.extend_from_slice(bytes)?,
            Event::Hears(_, _) | Event::Prints(_) => {}
        }
    }
    Ok(input)
}

/// What is to be written.
pub(crate) fn output_of(alloc: Global, events: &[Event]) -> Result<Vec<u8>, Flaw> {
    let mut output = Vec::new(alloc);
    for event in events {
        match event {
            Event::Hears(lane, bytes) => add_arrivals(&mut output, *lane, bytes, PIECE, &[])?,
            Event::Prints(bytes) => output.extend_from_slice(bytes)?,
            _ => {}
        }
    }
    Ok(output)
}

/// Adds so many steps of lane 0.
fn add_steps(records: &mut Vec<u8>, count: usize) -> Result<(), Flaw> {
    for _ in 0..count {
        records.extend_from_slice(&bare(0, 1))?;
    }
    Ok(())
}

/// What is asked on lane 0, and by how many lines, where nothing else happens.
#[derive(Drop)]
pub(crate) struct Stream {
    bytes: Vec<u8>,
    asks: usize,
}

impl Stream {
    /// The stream of these events.
    pub(crate) fn of(alloc: Global, events: &[Event]) -> Result<Option<Stream>, Flaw> {
        let mut stream = Stream {
            bytes: Vec::new(alloc),
            asks: 0,
        };
        for event in events {
            match event {
                Event::Asks(0, bytes) => {
                    stream.bytes.extend_from_slice(bytes)?;
                    stream.asks = stream.asks.saturating_add(1);
                }
                Event::Hears(_, _) => {}
                _ => return Ok(None),
            }
        }
        Ok(Some(stream))
    }

    /// How many bytes it has.
    pub(crate) fn len(&self) -> usize {
        self.bytes.len()
    }

    /// The input in which these bytes arrive in two parts, and each is followed by as many steps
    /// as there are lines that ask.
    pub(crate) fn cut(&self, alloc: Global, at: usize) -> Result<Vec<u8>, Flaw> {
        let (front, back) = self.bytes.split_at(at.min(self.bytes.len()));
        let mut input = Vec::new(alloc);
        for part in [front, back] {
            add_arrivals(&mut input, 0, part, PIECE, &[])?;
            add_steps(&mut input, self.asks)?;
        }
        Ok(input)
    }
}
