ghost use Rattle.std.specs.Prelude.{◌≡◌, None, IfOk, IsSome};

use crate::exit::FenceExit;
use crate::running::address_of;
use crate::words::{Verb, end_of, node_of, plan_of, task_of, value, verb_of};
use pr_numbers::hex_number;
use std::alloc::{AllocError, Global};

/// What is wrong behind the options that every command has.
fn wrong_end(verb: Verb, words: &[&str]) -> &'static str {
    match task_of(verb, words) {
        Some((_, rest)) => match end_of(rest) {
            Some(_) => "the words make no command",
            None => "1 to 64 addresses are needed at the end",
        },
        None => "--plug and a node from 1 to 9999 are needed behind --name and its value",
    }
}

/// What is wrong behind the verb.
fn wrong_options(verb: Verb, words: &[&str]) -> &'static str {
    let Some((cluster, rest)) = value(words, "--cluster") else {
        return "--cluster and the cluster's name are needed behind the verb";
    };
    if cluster.is_empty() {
        return "the cluster's name is empty";
    }
    let Some((node, rest)) = value(rest, "--node") else {
        return "--node and a node are needed behind --cluster and its value";
    };
    if node_of(node).is_none() {
        return "--node takes a number from 1 to 9999";
    }
    let Some((name, rest)) = value(rest, "--name") else {
        return "--name and the initiator's name are needed behind --node and its value";
    };
    if hex_number(name, 16).is_none() {
        return "--name takes a number of 1 to 16 hexadecimal digits";
    }
    wrong_end(verb, rest)
}

/// What is wrong with words that make no command.
fn wrong(words: &[&str]) -> &'static str {
    match value(words, "fence") {
        Some((verb, rest)) => match verb_of(verb) {
            Some(verb) => wrong_options(verb, rest),
            None => "on, off or status is needed behind fence",
        },
        None => "on, off or status is needed behind fence",
    }
}

/// The address of the device of this number, where the words have one.
fn address_in<'a>(words: &'a [&'a str], device: usize) -> Option<&'a str> {
    match plan_of(words) {
        Ok(plan) if device < plan.addresses.len() => Some(address_of(&plan, device)),
        _ => None,
    }
}

/// What is told of a run that ended early, with the device's address where there is one.
fn early(alloc: Global, words: &[&str], exit: FenceExit) -> Result<String, AllocError> {
    match exit.fault() {
        Some((device, fault)) => match address_in(words, device) {
            Some(address) => format!(in alloc; "{address}: {fault}"),
            None => format!(in alloc; "{fault}"),
        },
        None => format!(in alloc; "{exit}"),
    }
}

/// What to tell the user of a run of these words that ended so, as one line: on which device, what
/// was asked and what came, or what is wrong with the words. None where the run went through every
/// device.
///
/// # Errors
///
/// Where there is no memory for the line.
pub fn explain(alloc: Global, words: &[&str], exit: FenceExit) -> Result<Option<String>, AllocError>
    ensures done { exit ≡ FenceExit.Done → IfOk result (λ line. line ≡ None) }
    ensures present { exit ≡ FenceExit.Present → IfOk result (λ line. line ≡ None) }
    ensures absent { exit ≡ FenceExit.Absent → IfOk result (λ line. line ≡ None) }
    ensures told { (exit ≡ FenceExit.Done → ⊥) → (exit ≡ FenceExit.Present → ⊥) →
        (exit ≡ FenceExit.Absent → ⊥) → IfOk result IsSome }
{
    match exit {
        FenceExit::Done | FenceExit::Present | FenceExit::Absent => Ok(None),
        FenceExit::BadWords => Ok(Some(String::from_str(alloc, wrong(words))?)),
        exit => Ok(Some(early(alloc, words, exit)?)),
    }
}
