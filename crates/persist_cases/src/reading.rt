//! A file of cases, line by line.

use crate::case::{Case, add_frame};
use crate::flaw::Flaw;
use std::alloc::Global;
use std::collections::BTreeMap;

/// A line that isn't read, by its number, which counts from 1.
#[derive(Clone, Copy, Debug, PartialEq, Eq)]
pub(crate) struct Refusal {
    pub line: usize,
    pub flaw: Flaw,
}

/// Bytes under names.
type Names = BTreeMap<String, Vec<u8>>;

/// The names and the cases that were read so far.
#[derive(Drop)]
struct Reader {
    names: Names,
    cases: Vec<Case>,
}

/// The cases of a text.
pub(crate) fn read_cases(alloc: Global, text: &str) -> Result<Vec<Case>, Refusal> {
    let mut reader = Reader {
        names: Names::new(alloc),
        cases: Vec::new(alloc),
    };
    let mut line = 0usize;
    for text in text.lines() {
        line = line.saturating_add(1);
        if let Err(flaw) = reader.take(alloc, text) {
            return Err(Refusal { line, flaw });
        }
    }
    Ok(reader.cases)
}

impl Reader {
    /// Reads a line: a verb and what stands behind it.
    fn take(&mut self, alloc: Global, text: &str) -> Result<(), Flaw> {
        if text.is_empty() || text.starts_with('#') {
            return Ok(());
        }
        let (verb, rest) = text.split_once(' ').ok_or(Flaw::UnknownLine)?;
        match verb {
            "let" => self.name(alloc, rest),
            "case" => {
                self.cases.push(Case::named(alloc, rest)?)?;
                Ok(())
            }
            "says" | "rest" | "hears" => {
                let bytes = bytes_of(alloc, &self.names, rest)?;
                self.last()?.passes(alloc, verb, bytes)
            }
            _ => self.last()?.comes_to(alloc, verb, rest),
        }
    }

    /// Gives bytes a name.
    fn name(&mut self, alloc: Global, text: &str) -> Result<(), Flaw> {
        let (name, words) = text.split_once(' ').ok_or(Flaw::UnknownLine)?;
        let bytes = bytes_of(alloc, &self.names, words)?;
        self.names.insert(String::from_str(alloc, name)?, bytes)?;
        Ok(())
    }

    /// The case that is being told.
    fn last(&mut self) -> Result<&mut Case, Flaw> {
        self.cases.last_mut().ok_or(Flaw::NoCase)
    }
}

impl Case {
    /// Takes a line of bytes that pass between both sides.
    fn passes(&mut self, alloc: Global, verb: &str, bytes: Vec<u8>) -> Result<(), Flaw> {
        match verb {
            "says" => self.replies.push(bytes)?,
            "rest" => self.rest = bytes,
            _ => {
                let mut heard = self.heard.take().unwrap_or(Vec::new(alloc));
                add_frame(&mut heard, &bytes)?;
                self.heard = Some(heard);
            }
        }
        Ok(())
    }

    /// Takes a line of what is done and of what comes of it.
    fn comes_to(&mut self, alloc: Global, verb: &str, text: &str) -> Result<(), Flaw> {
        match verb {
            "target" if text == "fresh" => self.before = Some(Vec::new(alloc)),
            "had" => match &mut self.before {
                Some(before) => before.push(String::from_str(alloc, text)?)?,
                None => return Err(Flaw::NoTarget),
            },
            "runs" => self.words = String::from_str(alloc, text)?,
            "prints" => {
                self.text.push_str(text)?;
                self.text.push('\n')?;
            }
            "tells" => self.line = Some(String::from_str(alloc, text)?),
            "status" => self.status = text.parse::<u8>().map_err(|_| Flaw::UnknownLine)?,
            _ => return Err(Flaw::UnknownLine),
        }
        Ok(())
    }
}

/// The bytes of words in hexadecimal and of names.
fn bytes_of(alloc: Global, names: &Names, text: &str) -> Result<Vec<u8>, Flaw> {
    let mut bytes = Vec::new(alloc);
    for word in text.split_whitespace() {
        if let Some(name) = word.strip_prefix('$') {
            bytes.extend_from_slice(names.get(name).ok_or(Flaw::UnknownWord)?)?;
        } else {
            match hex::decode(alloc, word) {
                Ok(piece) => bytes.extend_from_slice(&piece)?,
                Err(_) => return Err(Flaw::UnknownWord),
            }
        }
    }
    Ok(bytes)
}
