ghost use Rattle.std.specs.Prelude.{◌≡◌, ◌≤◌, Ok, Err, IfSome, IfOk, IfErr, option_map};
ghost use Rattle.pr_fence.specs.Views.{texts_of, valued_of, start_of as spec_start, tasked_of, ended_of, planned_of};
ghost use Rattle.pr_fence.specs.Words.{value_in, verb_in, node_in, start_with as spec_with, start_in, task_in, end_in, errand_of as spec_errand, is_itself as spec_itself, IsKnown, few as spec_few, wanted_with, wanted_by};

use crate::keys::key_for;
use crate::plan::{Errand, Plan};
use pr_numbers::{decimal_number, hex_number};
use pr_words::Nexus;

/// The most addresses that are named.
pub(crate) const ADDRESSES: usize = 64;

/// Why nothing is done.
#[derive(Clone, Copy, Debug, PartialEq, Eq)]
pub(crate) enum Refusal {
    /// The words make no command.
    BadWords,
    /// The node would fence itself off.
    SelfFence,
}

/// What is done, by its word.
#[derive(Clone, Copy, Debug, PartialEq, Eq)]
pub(crate) enum Verb {
    /// `on`.
    On,
    /// `off`.
    Off,
    /// `status`.
    Status,
}

/// What is done, and to which node.
#[derive(Clone, Copy, Debug, PartialEq, Eq)]
pub(crate) enum Task {
    /// The node itself is let in.
    On,
    /// Another node is fenced off.
    Off { plug: u16 },
    /// It is looked whether a node is let in.
    Status { plug: u16 },
}

/// What every command begins with.
#[derive(Clone, Copy, Debug)]
pub(crate) struct Start<'a> {
    pub(crate) verb: Verb,
    pub(crate) cluster: &'a str,
    pub(crate) node: u16,
    pub(crate) name: u64,
    pub(crate) rest: &'a [&'a str],
}

/// The value of an option that comes first, and what stands behind it.
pub(crate) fn value<'a>(words: &'a [&'a str], name: &str) -> Option<(&'a str, &'a [&'a str])>
    ensures { option_map valued_of result ≡ value_in name.now (texts_of words.now) }
{
    match words {
        [first, value, rest @ ..] if *first == name => Some((*value, rest)),
        _ => None,
    }
}

/// What is done, by its word.
pub(crate) fn verb_of(text: &str) -> Option<Verb>
    ensures { result ≡ verb_in text.now }
{
    match text {
        "on" => Some(Verb::On),
        "off" => Some(Verb::Off),
        "status" => Some(Verb::Status),
        _ => None,
    }
}

/// The number of a node, 1 to 9999.
pub(crate) fn node_of(text: &str) -> Option<u16>
    ensures number { result ≡ node_in text.now }
    ensures some { IfSome result (λ n. 1 ≤ n) }
    ensures few { IfSome result (λ n. n ≤ 9999) }
{
    match decimal_number(text) {
        Some(node) if 1 <= node && node <= 9999 => Some(node),
        _ => None,
    }
}

/// What a command begins with, by its values.
fn start_with<'a>(
    verb: &str,
    cluster: &'a str,
    node: &str,
    name: &str,
    rest: &'a [&'a str],
) -> Option<Start<'a>>
    ensures start { option_map spec_start result ≡
        spec_with verb.now cluster.now node.now name.now (texts_of rest.now) }
    ensures some { IfSome result (λ s. 1 ≤ s.node) }
    ensures few { IfSome result (λ s. s.node ≤ 9999) }
{
    if cluster.is_empty() {
        return None;
    }
    match (verb_of(verb), node_of(node), hex_number(name, 16)) {
        (Some(verb), Some(node), Some(name)) => Some(Start {
            verb,
            cluster,
            node,
            name,
            rest,
        }),
        _ => None,
    }
}

/// What a command begins with.
#[tactic(auto, unfolding(crate::specs::Words::start_in))]
fn start_of<'a>(words: &'a [&'a str]) -> Option<Start<'a>>
    ensures start { option_map spec_start result ≡ start_in (texts_of words.now) }
    ensures some { IfSome result (λ s. 1 ≤ s.node) }
    ensures few { IfSome result (λ s. s.node ≤ 9999) }
{
    let Some((verb, rest)) = value(words, "fence") else {
        return None;
    };
    let Some((cluster, rest)) = value(rest, "--cluster") else {
        return None;
    };
    let Some((node, rest)) = value(rest, "--node") else {
        return None;
    };
    let Some((name, rest)) = value(rest, "--name") else {
        return None;
    };
    start_with(verb, cluster, node, name, rest)
}

/// What is done, and to which node.
pub(crate) fn task_of<'a>(verb: Verb, words: &'a [&'a str]) -> Option<(Task, &'a [&'a str])>
    ensures task { option_map tasked_of result ≡ task_in verb (texts_of words.now) }
    ensures known { IfSome result (λ t. IsKnown t.0) }
{
    if verb == Verb::On {
        return Some((Task::On, words));
    }
    let Some((plug, rest)) = value(words, "--plug") else {
        return None;
    };
    match (verb, node_of(plug)) {
        (Verb::Off, Some(plug)) => Some((Task::Off { plug }, rest)),
        (_, Some(plug)) => Some((Task::Status { plug }, rest)),
        (_, None) => None,
    }
}

/// Whether a number of addresses is one that is taken.
fn few<'a>(aptpl: bool, addresses: &'a [&'a str]) -> Option<(bool, &'a [&'a str])>
    ensures { option_map ended_of result ≡ spec_few aptpl (texts_of addresses.now) }
{
    if 1 <= addresses.len() && addresses.len() <= ADDRESSES {
        return Some((aptpl, addresses));
    }
    None
}

/// Whether registrations are to outlive a loss of power, and the addresses.
pub(crate) fn end_of<'a>(words: &'a [&'a str]) -> Option<(bool, &'a [&'a str])>
    ensures { option_map ended_of result ≡ end_in (texts_of words.now) }
{
    match words {
        [first, rest @ ..] if *first == "--aptpl" => few(true, rest),
        words => few(false, words),
    }
}

/// What is done on each device.
fn errand_of(cluster: &str, task: Task) -> Errand
    requires { IsKnown task }
    ensures { result ≡ spec_errand cluster.now task }
{
    match task {
        Task::On => Errand::On,
        Task::Off { plug } => Errand::Off {
            victim: key_for(cluster, plug),
        },
        Task::Status { plug } => Errand::Status {
            key: key_for(cluster, plug),
        },
    }
}

/// Whether a node would fence itself off.
fn is_itself(node: u16, task: Task) -> bool
    ensures { result ≡ spec_itself node task }
{
    match task {
        Task::Off { plug } => plug == node,
        _ => false,
    }
}

/// What is done, by all that the words say.
fn planned<'a>(start: Start<'a>, task: Task, aptpl: bool, addresses: &'a [&'a str]) -> Plan<'a>
    requires some { 1 ≤ start.node }
    requires few { start.node ≤ 9999 }
    requires known { IsKnown task }
    ensures { planned_of result ≡ wanted_with (spec_start start.entry) task aptpl
        (texts_of addresses.now) }
{
    Plan {
        errand: errand_of(start.cluster, task),
        nexus: Nexus {
            name: start.name,
            port: 1,
        },
        own: key_for(start.cluster, start.node),
        aptpl,
        addresses,
    }
}

/// What the words ask for. The first of them is the command's name.
///
/// # Errors
///
/// `Refusal::BadWords` where they make no command; `Refusal::SelfFence` where a node would fence
/// itself off.
#[tactic(auto, unfolding(crate::specs::Words::wanted_by))]
pub(crate) fn plan_of<'a>(words: &'a [&'a str]) -> Result<Plan<'a>, Refusal>
    ensures asked { IfOk result (λ p. wanted_by (texts_of words.entry.now) ≡ Ok (planned_of p)) }
    ensures refused { IfErr result (λ e. wanted_by (texts_of words.entry.now) ≡ Err e) }
{
    let Some(start) = start_of(words) else {
        return Err(Refusal::BadWords);
    };
    let Some((task, rest)) = task_of(start.verb, start.rest) else {
        return Err(Refusal::BadWords);
    };
    let Some((aptpl, addresses)) = end_of(rest) else {
        return Err(Refusal::BadWords);
    };
    if is_itself(start.node, task) {
        return Err(Refusal::SelfFence);
    }
    Ok(planned(start, task, aptpl, addresses))
}
