//! What the lines of files tell: names of bytes, and cases.

use crate::case::{Below, Case, Event};
use crate::flaw::Flaw;
use crate::number::{decimal, decimals};
use crate::spelling::{Names, spell};
use pr_tool::Exit;
use std::alloc::Global;
use std::mem;

/// The names and the cases that were read so far.
#[derive(Drop)]
pub(crate) struct Script {
    names: Names,
    cases: Vec<Case>,
}

impl Script {
    /// Nothing was read yet.
    pub(crate) fn new(alloc: Global) -> Script {
        Script {
            names: Names::new(alloc),
            cases: Vec::new(alloc),
        }
    }

    /// The cases, which are handed out once. The names stay.
    pub(crate) fn take_cases(&mut self, alloc: Global) -> Vec<Case> {
        mem::replace(&mut self.cases, Vec::new(alloc))
    }

    /// Reads the words of a line, in a loop at this number.
    pub(crate) fn take(
        &mut self,
        alloc: Global,
        words: &[&str],
        turn: Option<u64>,
    ) -> Result<(), Flaw> {
        match words {
            [] => Ok(()),
            ["let", name, bytes @ ..] => {
                let bytes = spell(alloc, &self.names, bytes, turn)?;
                self.name(alloc, name, bytes)
            }
            ["more", name, bytes @ ..] => {
                let bytes = spell(alloc, &self.names, bytes, turn)?;
                self.add_to_name(name, &bytes)
            }
            ["case", name @ ..] => self.begin(alloc, name.join(alloc, " ")?),
            ["as", name @ ..] => self.begin_as(alloc, name),
            ["call", words @ ..] => {
                self.last()?.call = words.join(alloc, " ")?;
                Ok(())
            }
            ["medium", blocks, words @ ..] => {
                self.last()?.below = below_of(alloc, blocks, words)?;
                Ok(())
            }
            ["exit", words @ ..] => {
                self.last()?.exit = exit_of(words)?;
                Ok(())
            }
            ["prints", words @ ..] => {
                let event = prints(alloc, words)?;
                self.happens(event)
            }
            ["raw", bytes @ ..] => {
                let event = Event::Raw(spell(alloc, &self.names, bytes, turn)?);
                self.happens(event)
            }
            [lane, verb, bytes @ ..] => {
                let bytes = spell(alloc, &self.names, bytes, turn)?;
                self.happens(event_of(alloc, lane, verb, bytes)?)
            }
            _ => Err(Flaw::UnknownLine),
        }
    }

    /// Gives bytes a name.
    fn name(&mut self, alloc: Global, name: &str, bytes: Vec<u8>) -> Result<(), Flaw> {
        if self.names.contains_key(name) {
            return Err(Flaw::NameTaken);
        }
        self.names.insert(String::from_str(alloc, name)?, bytes)?;
        Ok(())
    }

    /// Adds bytes to those of a name.
    fn add_to_name(&mut self, name: &str, more: &[u8]) -> Result<(), Flaw> {
        let bytes = self.names.get_mut(name).ok_or(Flaw::UnknownName)?;
        bytes.extend_from_slice(more)?;
        Ok(())
    }

    /// Begins a case, which is done by one lane over a medium of one block if nothing else is said.
    fn begin(&mut self, alloc: Global, name: String) -> Result<(), Flaw> {
        self.cases.push(Case {
            name,
            call: String::from_str(alloc, "replay 1")?,
            below: Below {
                blocks: 1,
                failing: Vec::new(alloc),
            },
            events: Vec::new(alloc),
            exit: Exit::Done,
        })?;
        Ok(())
    }

    /// Lets the case begin as an earlier one of the same file goes.
    fn begin_as(&mut self, alloc: Global, name: &[&str]) -> Result<(), Flaw> {
        let name = name.join(alloc, " ")?;
        let earlier = self.cases.iter().find(|case| case.name == name);
        let earlier = earlier.ok_or(Flaw::UnknownCase)?;
        let call = earlier.call.clone()?;
        let below = earlier.below.clone()?;
        let events = earlier.events.clone()?;
        let case = self.last()?;
        case.call = call;
        case.below = below;
        case.events = events;
        Ok(())
    }

    /// The case that is being told.
    fn last(&mut self) -> Result<&mut Case, Flaw> {
        self.cases.last_mut().ok_or(Flaw::NoCase)
    }

    /// Adds an event to the case.
    fn happens(&mut self, event: Event) -> Result<(), Flaw> {
        self.last()?.events.push(event)?;
        Ok(())
    }
}

/// The text of these words and the end of its line.
fn prints(alloc: Global, words: &[&str]) -> Result<Event, Flaw> {
    let mut text = words.join(alloc, " ")?;
    text.push('\n')?;
    Ok(Event::Prints(text.into_bytes()))
}

/// The medium of a number of blocks, of which words may tell which calls fail.
fn below_of(alloc: Global, blocks: &str, words: &[&str]) -> Result<Below, Flaw> {
    let blocks = u16::try_from(decimal(blocks)?).map_err(|_| Flaw::MediumSize)?;
    let failing = match words {
        [] => Vec::new(alloc),
        ["fails", calls @ ..] => decimals(alloc, calls)?,
        _ => return Err(Flaw::UnknownLine),
    };
    Ok(Below { blocks, failing })
}

/// The exit that these words name. No other comes where nothing fails.
fn exit_of(words: &[&str]) -> Result<Exit, Flaw> {
    match words {
        ["bad-words"] => Ok(Exit::BadWords),
        ["bad-schedule", place] => match place.parse::<u64>() {
            Ok(place) => Ok(Exit::BadSchedule { place }),
            Err(_) => Err(Flaw::BadNumber),
        },
        _ => Err(Flaw::UnknownExit),
    }
}

/// What a lane does, or is told, by a verb.
fn event_of(alloc: Global, lane: &str, verb: &str, bytes: Vec<u8>) -> Result<Event, Flaw> {
    let lane = match hex::decode(alloc, lane) {
        Ok(lane) => lane,
        Err(_) => return Err(Flaw::UnknownLine),
    };
    match (lane.as_slice(), verb, bytes.is_empty()) {
        ([lane], "asks", false) => Ok(Event::Asks(*lane, bytes)),
        ([lane], "sends", false) => Ok(Event::Sends(*lane, bytes)),
        ([lane], "trickles", false) => Ok(Event::Trickles(*lane, bytes)),
        ([lane], "hears", false) => Ok(Event::Hears(*lane, bytes)),
        ([lane], "steps", true) => Ok(Event::Steps(*lane)),
        ([lane], "closes", true) => Ok(Event::Closes(*lane)),
        _ => Err(Flaw::UnknownLine),
    }
}
