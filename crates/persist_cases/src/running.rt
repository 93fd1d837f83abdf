//! Runs of a case over a wire and a sink in memory.

use crate::case::Case;
use crate::flaw::Flaw;
use pr_io::{MemSink, MemWire, Peer, ScriptPeer};
use pr_persist::{explain, persist_main};
use std::alloc::Global;

/// The most bytes that a call of the wire receives.
const RECEIVED: usize = 7;

/// The most bytes that a put takes.
const PUT: usize = 16;

/// What came of a run.
#[derive(Drop)]
pub(crate) struct Outcome {
    pub status: u8,
    pub sent: Vec<u8>,
    pub text: Vec<u8>,
    pub line: Option<String>,
}

/// The calls that fail, by their numbers, which count from 1.
#[derive(Drop)]
pub(crate) struct Failing {
    pub wire: Vec<u64>,
    pub sink: Vec<u64>,
}

impl Failing {
    /// No call fails.
    pub(crate) fn nothing(alloc: Global) -> Failing {
        Failing {
            wire: Vec::new(alloc),
            sink: Vec::new(alloc),
        }
    }
}

/// A case that is ready to run.
#[derive(Drop)]
pub(crate) struct Trial<'a> {
    pub case: &'a Case,
    words: Vec<&'a str>,
}

impl<'a> Trial<'a> {
    /// A trial of this case.
    pub(crate) fn of(alloc: Global, case: &'a Case) -> Result<Trial<'a>, Flaw> {
        let words = case.words.split_whitespace().collect(alloc)?;
        Ok(Trial { case, words })
    }

    /// Runs it against a target at the address x that says these bytes.
    pub(crate) fn run(
        &self,
        alloc: Global,
        said: Vec<u8>,
        failing: Failing,
    ) -> Result<Outcome, Flaw> {
        let mut devices = Vec::new(alloc);
        devices.push((
            String::from_str(alloc, "x")?,
            ScriptPeer::new(said, RECEIVED),
        ))?;
        let wire = MemWire::new(alloc, devices, failing.wire);
        self.run_over(alloc, wire, failing.sink)
    }

    /// Runs it over a wire, with a sink some of whose calls fail.
    pub(crate) fn run_over<P: Peer + Drop>(
        &self,
        alloc: Global,
        mut wire: MemWire<P>,
        failing: Vec<u64>,
    ) -> Result<Outcome, Flaw> {
        let mut sink = MemSink::in_pieces(alloc, PUT, failing);
        let exit = persist_main(alloc, &self.words, &mut wire, &mut sink);
        Ok(Outcome {
            status: exit.status(),
            sent: wire.sent().to_vec(alloc)?,
            text: sink.bytes().to_vec(alloc)?,
            line: explain(alloc, &self.words, exit)?,
        })
    }
}
