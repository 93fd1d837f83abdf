use crate::words::{Chosen, action_of, is_set, looks_of, text_of};
use clap::ArgMatches;
use pr_numbers::{decimal_number, hex_number};
use std::fmt;

/// A rule that words break which `clap` takes.
#[derive(Clone, Copy, Debug)]
pub(crate) enum WordFault<'a> {
    /// Two actions are given.
    TwoActions(&'static str, &'static str),
    /// The action, or none, isn't of the direction that is given.
    OtherDirection {
        direction: &'static str,
        action: Option<&'static str>,
    },
    /// No address is given.
    NoAddress,
    /// Two addresses are given.
    TwoAddresses(&'a str, &'a str),
    /// A value isn't a number of its option's form.
    NoNumber {
        option: &'static str,
        value: &'a str,
        form: Form,
    },
}

/// What numbers an option takes.
#[derive(Clone, Copy, Debug)]
pub(crate) enum Form {
    /// 1 to 16 hexadecimal digits.
    Long,
    /// One hexadecimal digit.
    Digit,
    /// A port.
    Port,
}

/// The options of the actions.
const ACTIONS: [&str; 11] = [
    "read-keys",
    "read-reservation",
    "report-capabilities",
    "read-full-status",
    "register",
    "register-ignore",
    "reserve",
    "release",
    "clear",
    "preempt",
    "preempt-abort",
];

/// The options with numbers.
const NUMBERS: [(&str, Form); 5] = [
    ("name", Form::Long),
    ("port", Form::Port),
    ("param-rk", Form::Long),
    ("param-sark", Form::Long),
    ("prout-type", Form::Digit),
];

impl Form {
    /// Whether a text is such a number.
    fn has(self, text: &str) -> bool {
        match self {
            Form::Long => hex_number(text, 16).is_some(),
            Form::Digit => hex_number(text, 1).is_some(),
            Form::Port => decimal_number(text).is_some(),
        }
    }
}

/// The first two actions that are given.
fn two_actions(matches: &ArgMatches<'_>) -> (Option<&'static str>, Option<&'static str>) {
    let mut first = None;
    for action in ACTIONS {
        if is_set(matches, action) {
            match first {
                None => first = Some(action),
                Some(_) => return (first, Some(action)),
            }
        }
    }
    (first, None)
}

/// What is wrong with the action.
fn action_fault(matches: &ArgMatches<'_>) -> Option<WordFault<'static>> {
    let (action, second) = two_actions(matches);
    if let (Some(first), Some(second)) = (action, second) {
        return Some(WordFault::TwoActions(first, second));
    }
    if action_of(matches).is_some() {
        return None;
    }
    let looks = action.is_none() || matches!(looks_of(matches), Chosen::One(_));
    let direction = if looks { "out" } else { "in" };
    Some(WordFault::OtherDirection { direction, action })
}

/// What is wrong with the address.
fn address_fault<'a>(matches: &ArgMatches<'a>) -> Option<WordFault<'a>> {
    match (text_of(matches, "device"), text_of(matches, "address")) {
        (None, None) => Some(WordFault::NoAddress),
        (Some(one), Some(other)) => Some(WordFault::TwoAddresses(one, other)),
        _ => None,
    }
}

/// What is wrong with the numbers.
fn number_fault<'a>(matches: &ArgMatches<'a>) -> Option<WordFault<'a>> {
    for (option, form) in NUMBERS {
        if let Some(value) = text_of(matches, option) {
            if !form.has(value) {
                return Some(WordFault::NoNumber {
                    option,
                    value,
                    form,
                });
            }
        }
    }
    None
}

/// The first rule that the words break which `clap` took.
pub(crate) fn fault_in<'a>(matches: &ArgMatches<'a>) -> Option<WordFault<'a>> {
    action_fault(matches)
        .or(address_fault(matches))
        .or(number_fault(matches))
}

impl fmt::Display for Form {
    fn fmt<W: fmt::Write>(&self, f: &mut fmt::Formatter<W>) -> fmt::Result {
        f.write_str(match self {
            Form::Long => "a number of 1 to 16 hexadecimal digits",
            Form::Digit => "one hexadecimal digit",
            Form::Port => "a number from 0 to 65535",
        })
    }
}

impl fmt::Display for WordFault<'_> {
    fn fmt<W: fmt::Write>(&self, f: &mut fmt::Formatter<W>) -> fmt::Result {
        match *self {
            WordFault::TwoActions(one, other) => {
                write!(
                    f,
                    "--{one} and --{other}: one action at most can be asked for"
                )
            }
            WordFault::OtherDirection {
                direction,
                action: Some(action),
            } => write!(f, "--{action} isn't an action of --{direction}"),
            WordFault::OtherDirection {
                direction,
                action: None,
            } => write!(f, "--{direction} needs an action"),
            WordFault::NoAddress => {
                f.write_str("no address: one is needed, by itself or behind --device")
            }
            WordFault::TwoAddresses(one, other) => {
                write!(f, "{one} and {other}: one address at most can be given")
            }
            WordFault::NoNumber {
                option,
                value,
                form,
            } => write!(f, "--{option} {value}: it takes {form}"),
        }
    }
}
