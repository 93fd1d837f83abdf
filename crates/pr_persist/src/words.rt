ghost use Rattle.std.specs.Prelude.{◌≡◌, ◌≤◌, ◌<◌, None, Some, IfOk, IfErr, IfSome, map, option_map};
ghost use Rattle.clap.specs.Words.{found_of, rows_of, first_of, kind_of};
ghost use Rattle.pr_persist.specs.Asking.{is_set_in, with_action, looks_in, chosen_in, directed, action_in, address_in, hex_at, nexus_in, kind_in, fields_in, wanted_in, wanted_by, wanted_of};

use crate::arguments::matched;
use crate::plan::{Action, Fields, Plan};
use clap::error::ErrorKind;
use clap::{ArgMatches, Error};
use pr_numbers::{decimal_number, hex_number};
use pr_words::{InService, Key, Nexus, OutService};
use std::alloc::Global;

/// The first value of an argument, where it has one.
#[tactic(auto, using(crate::proofs::Reading::value_is))]
pub(crate) fn text_of<'a>(matches: &ArgMatches<'a>, id: &str) -> Option<&'a str>
    ensures { option_map (λ s. s.now) result ≡ first_of id.now (rows_of (found_of matches.now)) }
{
    matches.get_str(id)
}

/// Whether a flag is given.
#[tactic(auto, unfolding(crate::specs::Asking::is_set_in))]
pub(crate) fn is_set(matches: &ArgMatches<'_>, id: &str) -> bool
    ensures { result ≡ is_set_in id.now (rows_of (found_of matches.now)) }
{
    match text_of(matches, id) {
        Some(text) => text == "true",
        None => false,
    }
}

/// The actions that were given.
#[derive(Clone, Copy, Debug)]
pub(crate) enum Chosen {
    /// None.
    Nothing,
    /// This one.
    One(Action),
    /// More than one.
    Many,
}

/// An action more, where its flag is given.
#[tactic(auto, unfolding(crate::specs::Asking::with_action))]
fn add(matches: &ArgMatches<'_>, id: &str, action: Action, chosen: Chosen) -> Chosen
    ensures { result ≡ with_action (rows_of (found_of matches.now)) id.now action chosen }
{
    if !is_set(matches, id) {
        return chosen;
    }
    match chosen {
        Chosen::Nothing => Chosen::One(action),
        _ => Chosen::Many,
    }
}

/// The actions that look.
pub(crate) fn looks_of(matches: &ArgMatches<'_>) -> Chosen
    ensures { result ≡ looks_in (rows_of (found_of matches.now)) }
{
    let chosen = add(
        matches,
        "read-keys",
        Action::In(InService::ReadKeys),
        Chosen::Nothing,
    );
    let chosen = add(
        matches,
        "read-reservation",
        Action::In(InService::ReadReservation),
        chosen,
    );
    let chosen = add(
        matches,
        "report-capabilities",
        Action::In(InService::ReportCapabilities),
        chosen,
    );
    add(
        matches,
        "read-full-status",
        Action::In(InService::ReadFullStatus),
        chosen,
    )
}

/// All actions that were given.
fn all_actions(matches: &ArgMatches<'_>) -> Chosen
    ensures { result ≡ chosen_in (rows_of (found_of matches.now)) }
{
    let register = Action::Out(OutService::Register);
    let ignore = Action::Out(OutService::RegisterAndIgnoreExistingKey);
    let reserve = Action::Out(OutService::Reserve);
    let release = Action::Out(OutService::Release);
    let clear = Action::Out(OutService::Clear);
    let preempt = Action::Out(OutService::Preempt);
    let abort = Action::Out(OutService::PreemptAndAbort);
    let chosen = looks_of(matches);
    let chosen = add(matches, "register", register, chosen);
    let chosen = add(matches, "register-ignore", ignore, chosen);
    let chosen = add(matches, "reserve", reserve, chosen);
    let chosen = add(matches, "release", release, chosen);
    let chosen = add(matches, "clear", clear, chosen);
    let chosen = add(matches, "preempt", preempt, chosen);
    add(matches, "preempt-abort", abort, chosen)
}

/// The action, where it agrees with the direction.
fn in_direction(is_in: bool, is_out: bool, chosen: Chosen) -> Option<Action>
    ensures { result ≡ directed is_in is_out chosen }
{
    let (action, is_other) = match chosen {
        Chosen::Nothing => (Action::In(InService::ReadKeys), is_out),
        Chosen::One(Action::In(service)) => (Action::In(service), is_out),
        Chosen::One(Action::Out(service)) => (Action::Out(service), is_in),
        Chosen::Many => return None,
    };
    if is_other { None } else { Some(action) }
}

/// What to do: READ KEYS, where nothing is said.
#[tactic(auto, unfolding(crate::specs::Asking::action_in))]
pub(crate) fn action_of(matches: &ArgMatches<'_>) -> Option<Action>
    ensures { result ≡ action_in (rows_of (found_of matches.now)) }
{
    in_direction(
        is_set(matches, "in"),
        is_set(matches, "out"),
        all_actions(matches),
    )
}

/// The address, where it is given in one of its two forms alone.
#[tactic(auto, unfolding(crate::specs::Asking::address_in))]
fn address_of<'a>(matches: &ArgMatches<'a>) -> Option<&'a str>
    ensures { option_map (λ s. s.now) result ≡ address_in (rows_of (found_of matches.now)) }
{
    match (text_of(matches, "device"), text_of(matches, "address")) {
        (Some(address), None) => Some(address),
        (None, Some(address)) => Some(address),
        _ => None,
    }
}

/// A number of so many hexadecimal digits at most.
#[tactic(auto, unfolding(crate::specs::Asking::hex_at))]
fn hex_of(matches: &ArgMatches<'_>, id: &str, most: usize) -> Option<u64>
    requires { most ≤ 16 }
    ensures { result ≡ hex_at most id.now (rows_of (found_of matches.now)) }
{
    match text_of(matches, id) {
        Some(text) => hex_number(text, most),
        None => Some(0),
    }
}

/// The nexus of the name, which has to be given, and the port, which is 1 where it isn't.
#[tactic(auto, unfolding(crate::specs::Asking::nexus_in))]
fn nexus_of(matches: &ArgMatches<'_>) -> Option<Nexus>
    ensures { result ≡ nexus_in (rows_of (found_of matches.now)) }
{
    let name = match text_of(matches, "name") {
        Some(text) => hex_number(text, 16),
        None => None,
    };
    let port = match text_of(matches, "port") {
        Some(text) => decimal_number(text),
        None => Some(1),
    };
    match (name, port) {
        (Some(name), Some(port)) => Some(Nexus { name, port }),
        _ => None,
    }
}

/// The type of a reservation, of one digit.
#[tactic(auto, unfolding(crate::specs::Asking::kind_in))]
fn type_of(matches: &ArgMatches<'_>) -> Option<u8>
    ensures kind { result ≡ kind_in (rows_of (found_of matches.now)) }
    ensures few { IfSome result (λ k. k < 16) }
{
    match hex_of(matches, "prout-type", 1) {
        Some(kind) if kind < 16 => Some(kind as u8),
        _ => None,
    }
}

/// The fields that the words give: keys of 16 digits, and a type of one.
#[tactic(auto, unfolding(crate::specs::Asking::fields_in))]
fn fields_of(matches: &ArgMatches<'_>) -> Option<Fields>
    ensures fields { result ≡ fields_in (rows_of (found_of matches.now)) }
    ensures few { IfSome result (λ f. f.kind < 16) }
{
    let key = hex_of(matches, "param-rk", 16);
    let action_key = hex_of(matches, "param-sark", 16);
    let kind = type_of(matches);
    let aptpl = is_set(matches, "param-aptpl");
    match (key, action_key, kind) {
        (Some(key), Some(action_key), Some(kind)) => Some(Fields {
            key: Key(key),
            action_key: Key(action_key),
            kind,
            aptpl,
        }),
        _ => None,
    }
}

/// What the matches ask for, or None where they break an added rule.
#[tactic(auto, unfolding(crate::specs::Asking::wanted_in))]
fn plan_in<'a>(matches: &ArgMatches<'a>) -> Option<Plan<'a>>
    ensures plan { option_map wanted_of result ≡ wanted_in (rows_of (found_of matches.now)) }
    ensures few { IfSome result (λ p. p.fields.kind < 16) }
{
    let inquires = !is_set(matches, "no-inquiry");
    match (
        action_of(matches),
        address_of(matches),
        nexus_of(matches),
        fields_of(matches),
    ) {
        (Some(action), Some(address), Some(nexus), Some(fields)) => Some(Plan {
            address,
            nexus,
            inquires,
            action,
            fields,
        }),
        _ => None,
    }
}

/// Why nothing is done.
#[derive(Clone, Copy, Debug, PartialEq, Eq)]
pub(crate) enum Refusal {
    /// The words make no command.
    BadWords,
    /// There was no memory to read them.
    NoMemory,
}

/// What an error of the simple command comes to.
fn refusal_of(error: &Error) -> Refusal
    ensures { result ≡ Refusal.BadWords → kind_of error.now ≡ ErrorKind.OutOfMemory → ⊥ }
{
    match error.kind() {
        ErrorKind::OutOfMemory => Refusal::NoMemory,
        _ => Refusal::BadWords,
    }
}

/// What the words ask for. The first of them is the command's name.
///
/// # Errors
///
/// Where they ask for nothing, and for want of memory.
pub(crate) fn plan_of<'a>(alloc: Global, words: &'a [&'a str]) -> Result<Plan<'a>, Refusal>
    ensures asked { IfOk result (λ p.
        wanted_by (map (λ w. w.now) words.entry.now) ≡ Some (wanted_of p)) }
    ensures few { IfOk result (λ p. p.fields.kind < 16) }
    ensures refused { IfErr result (λ e. e ≡ Refusal.BadWords →
        wanted_by (map (λ w. w.now) words.entry.now) ≡ None) }
{
    match matched(alloc, words) {
        Ok(matches) => match plan_in(&matches) {
            Some(plan) => Ok(plan),
            None => Err(Refusal::BadWords),
        },
        Err(error) => Err(refusal_of(&error)),
    }
}
