//! A case as it stands, and where it ends well, with each thing in turn that may go wrong in it.

ghost use Rattle.std.specs.Prelude.{◌≡◌, OnOk};
ghost use Rattle.std.specs.String.{string_bytes};

use crate::case::Case;
use crate::flaw::Flaw;
use crate::running::{Failing, Outcome, Trial};
use crate::targets::run_behind;
use std::alloc::Global;

/// More calls than a run makes.
const CALLS: u64 = 1_000;

/// A reply's bytes before its data, without its length.
const HEAD: usize = 12;

/// Whether a run has ended with this status, a front of the text and a line for the user.
fn has_failed(case: &Case, outcome: &Outcome, status: u8) -> bool {
    outcome.status == status
        && outcome.line.is_some()
        && case.text.as_bytes().starts_with(&outcome.text)
}

/// Compares what came with what was to come.
fn judge(case: &Case, outcome: &Outcome) -> Result<(), Flaw>
    ensures status { OnOk result (outcome.now.status ≡ case.now.status) }
    ensures text { OnOk result (outcome.now.text.items ≡ string_bytes case.now.text) }
{
    if outcome.status != case.status {
        return Err(Flaw::OtherStatus(outcome.status));
    }
    if let Some(heard) = &case.heard {
        if *heard != outcome.sent {
            return Err(Flaw::OtherRequests);
        }
    }
    if case.text.as_bytes() != outcome.text.as_slice() {
        return Err(Flaw::OtherText);
    }
    if case.line != outcome.line {
        return Err(Flaw::OtherLine);
    }
    Ok(())
}

/// Lets each call of the wire fail in turn.
fn try_calls(alloc: Global, trial: &Trial<'_>) -> Result<(), Flaw> {
    for call in 1..CALLS {
        let mut failing = Failing::nothing(alloc);
        failing.wire.push(call)?;
        let outcome = trial.run(alloc, trial.case.said(alloc)?, failing)?;
        if outcome.status == 0 {
            return Ok(());
        }
        if !has_failed(trial.case, &outcome, 3) {
            return Err(Flaw::AtCall(call, outcome.status));
        }
    }
    Ok(())
}

/// Lets each put fail in turn.
fn try_puts(alloc: Global, trial: &Trial<'_>) -> Result<(), Flaw> {
    for put in 1..CALLS {
        let mut failing = Failing::nothing(alloc);
        failing.sink.push(put)?;
        let outcome = trial.run(alloc, trial.case.said(alloc)?, failing)?;
        if outcome.status == 0 {
            return Ok(());
        }
        if !has_failed(trial.case, &outcome, 4) {
            return Err(Flaw::AtPut(put, outcome.status));
        }
    }
    Ok(())
}

/// Lets the target end behind each number of bytes in turn.
fn try_ends(alloc: Global, trial: &Trial<'_>) -> Result<(), Flaw> {
    let whole = trial.case.said(alloc)?;
    for size in 0..whole.len() {
        let said = whole[..size].to_vec(alloc)?;
        let outcome = trial.run(alloc, said, Failing::nothing(alloc))?;
        if !has_failed(trial.case, &outcome, 5) {
            return Err(Flaw::AtEnd(size, outcome.status));
        }
    }
    Ok(())
}

/// Lets the data of a reply end behind each number of bytes in turn.
fn try_data_of(alloc: Global, trial: &Trial<'_>, reply: usize, size: usize) -> Result<(), Flaw> {
    for size in HEAD..size {
        let said = trial.case.said_short(alloc, reply, size)?;
        let outcome = trial.run(alloc, said, Failing::nothing(alloc))?;
        if !has_failed(trial.case, &outcome, 14) {
            return Err(Flaw::AtData(reply, size, outcome.status));
        }
    }
    Ok(())
}

/// Lets the data of each reply end behind each number of bytes in turn.
fn try_data(alloc: Global, trial: &Trial<'_>) -> Result<(), Flaw> {
    for (number, reply) in trial.case.replies.iter().enumerate() {
        if reply.starts_with(&[0x82]) && reply.get(HEAD - 4) == Some(&0x00) {
            try_data_of(alloc, trial, number, reply.len())?;
        }
    }
    Ok(())
}

/// Runs a case, and where it is to end well before a target that says what it is told to, also with
/// each thing in turn that may go wrong.
pub(crate) fn try_case(alloc: Global, case: &Case) -> Result<(), Flaw> {
    let trial = Trial::of(alloc, case)?;
    if let Some(before) = &case.before {
        return judge(case, &run_behind(alloc, &trial, before)?);
    }
    let outcome = trial.run(alloc, case.said(alloc)?, Failing::nothing(alloc))?;
    judge(case, &outcome)?;
    if case.status == 0 {
        try_calls(alloc, &trial)?;
        try_puts(alloc, &trial)?;
        try_ends(alloc, &trial)?;
        try_data(alloc, &trial)?;
    }
    Ok(())
}
