ghost use Rattle.std.specs.Prelude.{◌≡◌, None, IfOk, IsSome};

use crate::arguments::matched;
use crate::exit::PersistExit;
use crate::word_fault::fault_in;
use clap::Error;
use std::alloc::{AllocError, Global};

/// What stands before the usage, without the word `error`.
fn message_of(text: &str) -> &str {
    let message = match text.split_once("\n\n") {
        Some((message, _usage)) => message,
        None => text,
    };
    message.strip_prefix("error: ").unwrap_or(message)
}

/// The lines of a text in one, with a space between each two.
fn joined(alloc: Global, text: &str) -> Result<String, AllocError> {
    let mut line = String::new(alloc);
    for part in text.trim().split('\n') {
        if !line.is_empty() {
            line.push(' ')?;
        }
        line.push_str(part.trim())?;
    }
    Ok(line)
}

/// What `clap` says of the words that it refuses, in one line and without the usage behind it.
fn refused(alloc: Global, error: &Error) -> Result<String, AllocError> {
    let text = format!(in alloc; "{error}")?;
    joined(alloc, message_of(text.as_str()))
}

/// What is wrong with words that make no command.
fn bad_words(alloc: Global, words: &[&str]) -> Result<String, AllocError> {
    match matched(alloc, words) {
        Ok(matches) => match fault_in(&matches) {
            Some(fault) => format!(in alloc; "{fault}"),
            None => format!(in alloc; "{}", PersistExit::BadWords),
        },
        Err(error) => refused(alloc, &error),
    }
}

/// What to tell the user of a run of these words that ended so, as one line: what was asked, what
/// came and where, or which word is wrong. None where all was done.
///
/// # Errors
///
/// Where there is no memory for the line.
pub fn explain(
    alloc: Global,
    words: &[&str],
    exit: PersistExit,
) -> Result<Option<String>, AllocError>
    ensures silent { exit ≡ PersistExit.Done → IfOk result (λ line. line ≡ None) }
    ensures told { (exit ≡ PersistExit.Done → ⊥) → IfOk result IsSome }
{
    match exit {
        PersistExit::Done => Ok(None),
        PersistExit::BadWords => Ok(Some(bad_words(alloc, words)?)),
        exit => Ok(Some(format!(in alloc; "{exit}")?)),
    }
}
