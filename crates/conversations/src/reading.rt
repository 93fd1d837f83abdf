//! Files of conversations, line by line.

use crate::flaw::Flaw;
use crate::number::decimal;
use crate::script::Script;
use std::alloc::Global;

/// A line that isn't read, by its number, which counts from 1.
#[derive(Clone, Copy, Debug, PartialEq, Eq)]
pub(crate) struct Refusal {
    pub line: usize,
    pub flaw: Flaw,
}

/// The words of a line, and its number.
#[derive(Drop)]
struct Line<'a> {
    number: usize,
    words: Vec<&'a str>,
}

impl Line<'_> {
    /// Says where the line stands, if it isn't read.
    fn named<T: Drop>(&self, read: Result<T, Flaw>) -> Result<T, Refusal> {
        match read {
            Ok(value) => Ok(value),
            Err(flaw) => Err(Refusal {
                line: self.number,
                flaw,
            }),
        }
    }
}

/// Lines that are read again for each number from the first to the last.
#[derive(Drop)]
struct Loop<'a> {
    first: u64,
    last: u64,
    lines: Vec<Line<'a>>,
}

/// Reads a file's cases. The names that it gives stand beside those of the files before it.
pub(crate) fn read_file(alloc: Global, script: &mut Script, text: &str) -> Result<(), Refusal> {
    let mut open: Option<Loop<'_>> = None;
    let mut number = 0usize;
    for text in text.lines() {
        number = number.saturating_add(1);
        open = read_line(alloc, script, open, number, text)?;
    }
    match open {
        None => Ok(()),
        Some(_) => Err(Refusal {
            line: number,
            flaw: Flaw::OpenLoop,
        }),
    }
}

/// The words of a line, without its comment.
fn words_of<'a>(alloc: Global, text: &'a str) -> Result<Vec<&'a str>, Flaw> {
    let plain = match text.split_once('#') {
        Some((plain, _)) => plain,
        None => text,
    };
    Ok(plain.split_whitespace().collect(alloc)?)
}

/// Reads a line, and gives the loop that is open behind it.
fn read_line<'a>(
    alloc: Global,
    script: &mut Script,
    open: Option<Loop<'a>>,
    number: usize,
    text: &'a str,
) -> Result<Option<Loop<'a>>, Refusal> {
    let words = match words_of(alloc, text) {
        Ok(words) => words,
        Err(flaw) => return Err(Refusal { line: number, flaw }),
    };
    let line = Line { number, words };
    match (line.words.as_slice(), open) {
        (["for", first, last], None) => {
            let first = line.named(decimal(first))?;
            let last = line.named(decimal(last))?;
            let lines = Vec::new(alloc);
            Ok(Some(Loop { first, last, lines }))
        }
        (["for", ..], _) => line.named(Err(Flaw::OpenLoop)),
        (["end"], None) => line.named(Err(Flaw::NoLoop)),
        (["end"], Some(open)) => {
            read_loop(alloc, script, &open)?;
            Ok(None)
        }
        (words, None) => {
            line.named(script.take(alloc, words, None))?;
            Ok(None)
        }
        (_, Some(open)) => grown(open, line),
    }
}

/// The loop with one more line.
fn grown<'a>(mut open: Loop<'a>, line: Line<'a>) -> Result<Option<Loop<'a>>, Refusal> {
    let number = line.number;
    match open.lines.push(line) {
        Ok(()) => Ok(Some(open)),
        Err(_) => Err(Refusal {
            line: number,
            flaw: Flaw::Memory,
        }),
    }
}

/// Reads the lines of a loop for each of its numbers.
fn read_loop(alloc: Global, script: &mut Script, block: &Loop<'_>) -> Result<(), Refusal> {
    for turn in block.first..=block.last {
        read_turn(alloc, script, block, turn)?;
    }
    Ok(())
}

/// Reads the lines of a loop for one of its numbers.
fn read_turn(
    alloc: Global,
    script: &mut Script,
    block: &Loop<'_>,
    turn: u64,
) -> Result<(), Refusal> {
    for line in &block.lines {
        line.named(script.take(alloc, &line.words, Some(turn)))?;
    }
    Ok(())
}
