use crate::meaning::Meaning;
use pr_words::Code;
use std::fmt;

/// Why a target gave no answer that counts.
#[derive(Clone, Copy, Debug, PartialEq, Eq)]
pub enum LinkFault {
    /// The wire has failed.
    Down,
    /// The connection ended before a reply was whole, whose first byte has this place.
    Ended { place: u64 },
    /// The reply at this place breaks a rule: 1 to 4 those of its grammar, as in `Got::Bad`, 6 that it
    /// is of the asked kind and has the asked tag.
    BadReply { place: u64, reason: u8 },
    /// The target found that the frame at this place of what it received breaks a rule.
    Rejected { place: u64, reason: u8 },
    /// A Login was refused with this code.
    Refused { code: u8 },
    /// Nine answers were unit attentions, of which this is the last.
    Attention(Code),
}

/// The rule that a frame breaks, by its number.
fn rule(reason: u8) -> &'static str {
    match reason {
        1 => "its length is none that a frame has",
        2 => "its kind is none that is received here",
        3 => "its flags aren't zero",
        4 => "its body isn't one of its kind",
        5 => "a Login has to come first, and just once",
        6 => "it isn't the reply to what was asked",
        _ => "for a reason that has no name here",
    }
}

/// Why a Login was refused, by its code.
fn refusal(code: u8) -> &'static str {
    match code {
        1 => "the nexus is logged in already",
        2 => "the port isn't one that it has",
        3 => "it has no room for another nexus",
        4 => "it doesn't have this version of the link",
        5 => "it has no memory for a session",
        _ => "for a reason that has no name here",
    }
}

/// What came in place of an answer, as a user reads it.
impl fmt::Display for LinkFault {
    fn fmt<W: fmt::Write>(&self, f: &mut fmt::Formatter<W>) -> fmt::Result {
        match *self {
            LinkFault::Down => f.write_str("the target can't be reached"),
            LinkFault::Ended { place } => write!(
                f,
                "the target ended the connection before its reply at byte {place} was whole"
            ),
            LinkFault::BadReply { place, reason } => {
                write!(
                    f,
                    "the reply at byte {place} breaks a rule: {}",
                    rule(reason)
                )
            }
            LinkFault::Rejected { place, reason } => write!(
                f,
                "the target rejected what was sent from byte {place} on: {}",
                rule(reason)
            ),
            LinkFault::Refused { code } => write!(f, "the target refused it: {}", refusal(code)),
            LinkFault::Attention(code) => write!(
                f,
                "nine answers were unit attentions, the last {}",
                Meaning(code)
            ),
        }
    }
}
