//! Bytes as a person writes them.

ghost use Rattle.std.specs.Prelude.{◌≡◌, ◌≤◌, ◌↔◌, length, IfOk, IfSome, IsSome};
ghost use Rattle.conversations.specs.Spellings.{framed, padded};

use crate::flaw::Flaw;
use crate::number::decimal;
use std::alloc::Global;
use std::collections::BTreeMap;

/// Bytes under names.
pub(crate) type Names = BTreeMap<String, Vec<u8>>;

/// The bytes of a CDB in a Command (this project's own), without the four bytes of its head.
const CDB: usize = 16;

/// Bytes in the making. Those of a frame and of a CDB wait until their bracket is closed.
#[derive(Drop)]
struct Spelling {
    done: Vec<u8>,
    frame: Option<Vec<u8>>,
    cdb: Option<Vec<u8>>,
}

impl Spelling {
    /// Adds bytes to the innermost that is open.
    fn add(&mut self, piece: &[u8]) -> Result<(), Flaw> {
        if let Some(cdb) = &mut self.cdb {
            cdb.extend_from_slice(piece)?;
        } else if let Some(frame) = &mut self.frame {
            frame.extend_from_slice(piece)?;
        } else {
            self.done.extend_from_slice(piece)?;
        }
        Ok(())
    }

    fn open_frame(&mut self, alloc: Global) -> Result<(), Flaw> {
        if self.frame.is_some() || self.cdb.is_some() {
            return Err(Flaw::LoneBracket);
        }
        self.frame = Some(Vec::new(alloc));
        Ok(())
    }

    /// Adds the frame, with its length before it.
    fn close_frame(&mut self, alloc: Global) -> Result<(), Flaw> {
        if self.cdb.is_some() {
            return Err(Flaw::LoneBracket);
        }
        let body = self.frame.take().ok_or(Flaw::LoneBracket)?;
        self.add(&framed(alloc, &body)?)
    }

    fn open_cdb(&mut self, alloc: Global) -> Result<(), Flaw> {
        if self.cdb.is_some() {
            return Err(Flaw::LoneBracket);
        }
        self.cdb = Some(Vec::new(alloc));
        Ok(())
    }

    /// Adds the CDB as a Command has it.
    fn close_cdb(&mut self, alloc: Global) -> Result<(), Flaw> {
        let cdb = self.cdb.take().ok_or(Flaw::LoneBracket)?;
        self.add(&padded(alloc, &cdb)?)
    }

    /// The bytes, where no bracket is open.
    fn finish(self) -> Result<Vec<u8>, Flaw> {
        match self {
            Spelling {
                done,
                frame: None,
                cdb: None,
            } => Ok(done),
            _ => Err(Flaw::LoneBracket),
        }
    }
}

/// A frame of this body.
fn framed(alloc: Global, body: &[u8]) -> Result<Vec<u8>, Flaw>
    ensures { IfOk result (λ v. v.items ≡ framed body.now) }
{
    let length = u32::try_from(body.len()).map_err(|_| Flaw::TooLong)?;
    let mut frame = length.to_be_bytes().to_vec(alloc)?;
    frame.extend_from_slice(body)?;
    Ok(frame)
}

/// The number of bytes of a CDB, where a Command can have it.
fn cdb_length(cdb: &[u8]) -> Option<u8>
    ensures length { IfSome result (λ n. (n ≡ length cdb.now) × (1 ≤ n) × (n ≤ 16)) }
    ensures some { IsSome result ↔ ((1 ≤ length cdb.now) × (length cdb.now ≤ 16)) }
{
    match cdb.len() {
        length @ 1..=CDB => Some(length as u8),
        _ => None,
    }
}

/// A CDB as a Command has it.
fn padded(alloc: Global, cdb: &[u8]) -> Result<Vec<u8>, Flaw>
    ensures bytes { IfOk result (λ v. v.items ≡ padded cdb.now) }
    ensures size { IfOk result (λ _. (1 ≤ length cdb.now) × (length cdb.now ≤ 16)) }
{
    let length = cdb_length(cdb).ok_or(Flaw::CdbLength)?;
    let mut field = [length, 0, 0, 0].to_vec(alloc)?;
    field.extend_from_slice(cdb)?;
    field.resize(4 + CDB, 0)?;
    Ok(field)
}

/// The bytes that the words spell, in a loop at this number.
pub(crate) fn spell(
    alloc: Global,
    names: &Names,
    words: &[&str],
    turn: Option<u64>,
) -> Result<Vec<u8>, Flaw> {
    let mut spelling = Spelling {
        done: Vec::new(alloc),
        frame: None,
        cdb: None,
    };
    for word in words {
        match *word {
            "[" => spelling.open_frame(alloc)?,
            "]" => spelling.close_frame(alloc)?,
            "<" => spelling.open_cdb(alloc)?,
            ">" => spelling.close_cdb(alloc)?,
            word => spelling.add(&piece(alloc, names, word, turn)?)?,
        }
    }
    spelling.finish()
}

/// The bytes of a word that is no bracket.
fn piece(alloc: Global, names: &Names, word: &str, turn: Option<u64>) -> Result<Vec<u8>, Flaw> {
    if let Some(name) = word.strip_prefix('$') {
        let bytes = names.get(name).ok_or(Flaw::UnknownName)?;
        return Ok(bytes.clone()?);
    }
    if let Some(width) = word.strip_prefix('%') {
        return counter(alloc, width, turn.ok_or(Flaw::BadCounter)?);
    }
    if let Some(run) = word.strip_prefix('x') {
        return repeated(alloc, run);
    }
    match hex::decode(alloc, word) {
        Ok(bytes) => Ok(bytes),
        Err(_) => Err(Flaw::UnknownWord),
    }
}

/// So many bytes of one value: a decimal number, a colon and the value.
fn repeated(alloc: Global, run: &str) -> Result<Vec<u8>, Flaw> {
    let (count, value) = run.split_once(':').ok_or(Flaw::UnknownWord)?;
    let count = decimal(count)? as usize;
    let value = match hex::decode(alloc, value) {
        Ok(value) => value,
        Err(_) => return Err(Flaw::UnknownWord),
    };
    match value.as_slice() {
        [value] => Ok(vec![in alloc; *value; count]?),
        _ => Err(Flaw::UnknownWord),
    }
}

/// The number of a loop's turn in so many bytes, the most significant first.
fn counter(alloc: Global, width: &str, turn: u64) -> Result<Vec<u8>, Flaw> {
    let bytes = match width {
        "1" => narrow(u8::try_from(turn).ok())?
            .to_be_bytes()
            .to_vec(alloc)?,
        "2" => narrow(u16::try_from(turn).ok())?
            .to_be_bytes()
            .to_vec(alloc)?,
        "4" => narrow(u32::try_from(turn).ok())?
            .to_be_bytes()
            .to_vec(alloc)?,
        "8" => turn.to_be_bytes().to_vec(alloc)?,
        _ => return Err(Flaw::UnknownWord),
    };
    Ok(bytes)
}

/// A number that fits.
fn narrow<T: Drop>(number: Option<T>) -> Result<T, Flaw> {
    number.ok_or(Flaw::BadCounter)
}
