//! Runs of a case over objects in memory, and what differs from what was to come.

ghost use Rattle.std.specs.Prelude.{◌≡◌, ◌≤◌, ◌↔◌};
ghost use Rattle.conversations.specs.declared.running.Verdict.TheVariants.{Met};

use crate::case::{Below, Case, Stream, input_of, output_of};
use crate::flaw::Flaw;
use pr_io::{DISK, FRESH_HEAD, MemMedium, MemSink, MemSource, SureDisk};
use pr_tool::{Exit, replay_main, show_main};
use pr_words::PIECE;
use std::alloc::Global;

/// The longest input that is also run byte by byte.
const SHORT: usize = 16_384;

/// The longest stream that is also cut at every place.
const SHORT_STREAM: usize = 512;

/// How the input of a run is cut.
#[derive(Clone, Copy, Debug, PartialEq, Eq)]
pub(crate) enum Cut {
    /// The input in one piece.
    Nowhere,
    /// A call of the source gives one byte, and a call of the sink takes one.
    Calls,
    /// Each byte arrives by itself, followed by the step that comes behind the arrival.
    Arrivals,
    /// All bytes arrive in two parts, the first of so many bytes, before the steps.
    At(usize),
}

/// What a run comes to, beside what was to come.
#[derive(Clone, Copy, Debug, PartialEq, Eq)]
pub(crate) enum Verdict {
    Met,
    /// The run has ended otherwise.
    OtherExit(Exit),
    /// What was written differs from this byte on.
    OtherBytes(usize),
}

/// The medium that a case finds.
fn medium_of(alloc: Global, below: &Below) -> Result<MemMedium, Flaw> {
    if below.blocks == 0 {
        return Err(Flaw::MediumSize);
    }
    let bytes = vec![in alloc; 0u8; 512 * usize::from(below.blocks)]?;
    Ok(MemMedium::new(bytes, below.failing.clone()?))
}

/// A disk on which nothing was kept yet.
fn fresh_disk(alloc: Global) -> Result<SureDisk, Flaw> {
    let mut image = FRESH_HEAD.to_vec(alloc)?;
    image.resize(DISK, 0)?;
    Ok(SureDisk::new(image))
}

/// Runs the command of these words, with streams that move at most so many bytes a call, over a
/// medium of zeros and a disk on which nothing was kept yet.
fn run(
    alloc: Global,
    words: &[&str],
    below: &Below,
    input: Vec<u8>,
    most: usize,
) -> Result<(Exit, MemSink), Flaw>
    requires { 1 ≤ most }
{
    let mut source = MemSource::in_pieces(input, most, Vec::new(alloc));
    let mut sink = MemSink::in_pieces(alloc, most, Vec::new(alloc));
    if matches!(words, ["show"]) {
        let exit = show_main(alloc, &mut source, &mut sink);
        return Ok((exit, sink));
    }
    let mut medium = medium_of(alloc, below)?;
    let mut disk = fresh_disk(alloc)?;
    let exit = replay_main(alloc, words, &mut source, &mut sink, &mut medium, &mut disk);
    Ok((exit, sink))
}

/// How many bytes of both agree, from the first on.
fn agreement(found: &[u8], wanted: &[u8]) -> usize {
    found.iter().zip(wanted).take_while(|(a, b)| a == b).count()
}

/// Compares what came with what was to come.
fn judge(exit: Exit, written: &[u8], wanted_exit: Exit, wanted: &[u8]) -> Verdict
    ensures { result ≡ Met ↔ ((exit ≡ wanted_exit) × (written.now ≡ wanted.now)) }
{
    if exit != wanted_exit {
        return Verdict::OtherExit(exit);
    }
    if written != wanted {
        return Verdict::OtherBytes(agreement(written, wanted));
    }
    Verdict::Met
}

/// A case that is ready to run.
#[derive(Drop)]
struct Trial<'a> {
    words: Vec<&'a str>,
    below: &'a Below,
    exit: Exit,
    output: Vec<u8>,
}

impl Trial<'_> {
    /// Runs it on this input.
    fn run(&self, alloc: Global, input: Vec<u8>, most: usize) -> Result<Verdict, Flaw>
        requires { 1 ≤ most }
    {
        let (exit, sink) = run(alloc, &self.words, self.below, input, most)?;
        Ok(judge(exit, sink.bytes(), self.exit, &self.output))
    }

    /// Runs it on the stream cut at each place, up to the first that makes a difference.
    fn run_cut(&self, alloc: Global, stream: &Stream) -> Result<(Cut, Verdict), Flaw> {
        for at in 0..=stream.len() {
            let verdict = self.run(alloc, stream.cut(alloc, at)?, usize::MAX)?;
            if verdict != Verdict::Met {
                return Ok((Cut::At(at), verdict));
            }
        }
        Ok((Cut::Nowhere, Verdict::Met))
    }
}

/// Runs a case, in one piece and, where it is short, cut. Gives the first run that makes a
/// difference.
pub(crate) fn try_case(alloc: Global, case: &Case) -> Result<(Cut, Verdict), Flaw> {
    let trial = Trial {
        words: case.call.split_whitespace().collect(alloc)?,
        below: &case.below,
        exit: case.exit,
        output: output_of(alloc, &case.events)?,
    };
    let input = input_of(alloc, &case.events, PIECE)?;
    let is_short = input.len() <= SHORT;
    let verdict = trial.run(alloc, input, usize::MAX)?;
    if verdict != Verdict::Met || !is_short {
        return Ok((Cut::Nowhere, verdict));
    }
    let input = input_of(alloc, &case.events, PIECE)?;
    let verdict = trial.run(alloc, input, 1)?;
    if verdict != Verdict::Met {
        return Ok((Cut::Calls, verdict));
    }
    let input = input_of(alloc, &case.events, 1)?;
    let verdict = trial.run(alloc, input, usize::MAX)?;
    if verdict != Verdict::Met {
        return Ok((Cut::Arrivals, verdict));
    }
    match Stream::of(alloc, &case.events)? {
        Some(stream) if stream.len() <= SHORT_STREAM => trial.run_cut(alloc, &stream),
        _ => Ok((Cut::Nowhere, Verdict::Met)),
    }
}
