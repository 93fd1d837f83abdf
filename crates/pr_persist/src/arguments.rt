ghost use Rattle.std.specs.Prelude.{◌≡◌, ◌++◌, ◌⊎◌, [], false, IfOk, IfErr, map};
ghost use Rattle.clap.specs.Words.{app_of, rule_of, kind_of, found_of, rows_of};
ghost use Rattle.clap.specs.declared.error.kind.ErrorKind.TheVariants as kind;
ghost use Rattle.pr_persist.specs.Arguments.{flag_rule, option_rule, value_rule, with_rules, in_rules, out_rules, other_rules, faults_in, rows_in};

use clap::{Arg, ArgAction, ArgMatches, Command, Error};
use std::alloc::Global;

/// An argument that is there or not.
fn flag<'a>(alloc: Global, name: &'a str, letter: char) -> Arg<'a>
    ensures rule { rule_of result ≡ flag_rule name.entry.now letter }
    ensures local { result.global ≡ false }
{
    Arg::new(alloc, name)
        .short(letter)
        .long(name)
        .action(ArgAction::SetTrue)
}

/// An argument with a value, which has a letter.
fn option<'a>(alloc: Global, name: &'a str, letter: char) -> Arg<'a>
    ensures rule { rule_of result ≡ option_rule name.entry.now letter }
    ensures local { result.global ≡ false }
{
    Arg::new(alloc, name)
        .short(letter)
        .long(name)
        .action(ArgAction::Set)
}

/// An argument with a value, which has no letter.
fn value<'a>(alloc: Global, name: &'a str) -> Arg<'a>
    ensures rule { rule_of result ≡ value_rule name.entry.now }
    ensures local { result.global ≡ false }
{
    Arg::new(alloc, name).long(name).action(ArgAction::Set)
}

/// With the directions, and the commands that look.
fn with_looks<'a>(alloc: Global, command: Command<'a>) -> Result<Command<'a>, Error>
    ensures shape { IfOk result (λ c. app_of c ≡ with_rules (app_of command.entry) in_rules) }
    ensures memory { IfErr result (λ e. kind_of e ≡ kind.OutOfMemory) }
{
    Ok(
        command
            .arg(flag(alloc, "in", 'i'))?
            .arg(flag(alloc, "out", 'o'))?
            .arg(flag(alloc, "read-keys", 'k'))?
            .arg(flag(alloc, "read-reservation", 'r'))?
            .arg(flag(alloc, "report-capabilities", 'c'))?
            .arg(flag(alloc, "read-full-status", 's'))?,
    )
}

/// With the commands that change something.
fn with_changes<'a>(alloc: Global, command: Command<'a>) -> Result<Command<'a>, Error>
    ensures shape { IfOk result (λ c. app_of c ≡ with_rules (app_of command.entry) out_rules) }
    ensures memory { IfErr result (λ e. kind_of e ≡ kind.OutOfMemory) }
{
    Ok(
        command
            .arg(flag(alloc, "register", 'G'))?
            .arg(flag(alloc, "register-ignore", 'I'))?
            .arg(flag(alloc, "reserve", 'R'))?
            .arg(flag(alloc, "release", 'L'))?
            .arg(flag(alloc, "clear", 'C'))?
            .arg(flag(alloc, "preempt", 'P'))?
            .arg(flag(alloc, "preempt-abort", 'A'))?,
    )
}

/// With what the commands carry, and with whom they speak.
fn with_values<'a>(alloc: Global, command: Command<'a>) -> Result<Command<'a>, Error>
    ensures shape { IfOk result (λ c. app_of c ≡ with_rules (app_of command.entry) other_rules) }
    ensures memory { IfErr result (λ e. kind_of e ≡ kind.OutOfMemory) }
{
    Ok(
        command
            .arg(option(alloc, "param-rk", 'K'))?
            .arg(option(alloc, "param-sark", 'S'))?
            .arg(option(alloc, "prout-type", 'T'))?
            .arg(flag(alloc, "param-aptpl", 'Z'))?
            .arg(flag(alloc, "no-inquiry", 'n'))?
            .arg(option(alloc, "device", 'd'))?
            .arg(Arg::new(alloc, "address").action(ArgAction::Set))?
            .arg(value(alloc, "name").required(true))?
            .arg(value(alloc, "port"))?,
    )
}

/// What a simple command without a help flag makes of the words, of which the first is its name.
///
/// # Errors
///
/// Where it refuses the words, and for want of memory.
pub(crate) fn matched<'a>(alloc: Global, words: &'a [&'a str]) -> Result<ArgMatches<'a>, Error>
    ensures taken { IfOk result (λ m. faults_in (map (λ w. w.now) words.entry.now) ≡ []) }
    ensures rows { IfOk result (λ m. rows_of (found_of m)
        ≡ rows_in (map (λ w. w.now) words.entry.now)) }
    ensures refused { IfErr result (λ e. (kind_of e ≡ kind.OutOfMemory)
        ⊎ (faults_in (map (λ w. w.now) words.entry.now) ≡ [] → ⊥)) }
{
    let command = Command::new(alloc, "persist").disable_help_flag(true);
    let command = with_looks(alloc, command)?;
    let command = with_changes(alloc, command)?;
    let command = with_values(alloc, command)?;
    command.try_get_matches_from(words)
}
