ghost use Rattle.std.specs.Prelude.{◌≡◌, ◌<◌, ◌↔◌, ◌*◌, ℕ, List, Option, None, IfOk, IsTrue, length, replicate};
ghost use Rattle.std.specs.Bool.{OnTrue};
ghost use Rattle.pr_io.specs.BlocksAhead.{IsKept, IsTrueTo, place_of, piece_of, slot_of};
ghost use Rattle.pr_io.specs.Contents.{WritesBlock};
ghost use Rattle.pr_io.specs.declared.read_ahead.TheConstants.{AHEAD, PLACES};

use crate::blocks::{BLOCK, Blocks};
use crate::faults::Faults;
use crate::{BulkMedium, Failed, Medium};
use std::alloc::{AllocError, Global};

/// How many blocks are read ahead at once.
const PIECE: u64 = 32;

/// How many such pieces are kept.
const PLACES: usize = 32;

/// The bytes of all pieces.
const AHEAD: usize = 524_288;

const _: () = prove!(AHEAD == PIECE as usize * PLACES * BLOCK);

/// A medium of which blocks are read ahead: 16 KiB at a time, of which the last few are kept, so
/// that several readers who each read on don't take them from each other.
///
/// It holds what the medium under it holds, and writes through at once. Nobody else may write that
/// medium. Where a piece can't be read ahead, the block is read alone.
#[derive(Drop)]
pub struct ReadAhead<M: BulkMedium + Drop> {
    medium: M,
    ahead: Blocks,
    pieces: Vec<Option<u64>>,
    faults: Faults,
    ghost room: { length ahead.bytes.items ≡ AHEAD },
    ghost places: { length pieces.items ≡ PLACES },
    ghost alike: { IsTrueTo (M.Medium.contents medium) (M.Medium.count medium) pieces.items
        ahead.bytes.items },
}

impl<M: BulkMedium + Drop> ReadAhead<M> {
    /// The same medium, of which nothing was read yet. It takes 512 KiB, and later calls take no
    /// memory.
    ///
    /// # Errors
    ///
    /// Where that memory is refused.
    pub fn new(alloc: Global, medium: M) -> Result<ReadAhead<M>, AllocError>
        ensures medium { IfOk result (λ r. r.medium ≡ medium) }
        ensures faults { IfOk result (λ r. r.faults.count ≡ 0) }
    {
        Ok(ReadAhead {
            medium,
            ahead: room_ahead(alloc)?,
            pieces: nothing_kept(alloc)?,
            faults: Faults::new(),
        })
    }
}

impl<M: BulkMedium + Drop> Medium for ReadAhead<M> {
    ghost count = { λ r. M.Medium.count r.medium };

    ghost contents = { λ r. M.Medium.contents r.medium };

    ghost reference = { λ _. None };

    ghost faults = { λ r. r.faults.count };

    fn blocks(&self) -> u64 {
        self.medium.blocks()
    }

    fn read_block(&mut self, lba: u64, block: &mut [u8; 512]) -> Result<(), Failed> {
        if keep(&mut self.medium, &mut self.ahead, &mut self.pieces, lba) {
            self.ahead.read(slot_for(lba), block);
            return Ok(());
        }
        match self.medium.read_block(lba, block) {
            Ok(()) => Ok(()),
            Err(_) => Err(self.faults.raise()),
        }
    }

    fn write_block(&mut self, lba: u64, block: &[u8; 512]) -> Result<(), Failed> {
        let written = self.medium.write_block(lba, block);
        follow(&mut self.ahead, &mut self.pieces, lba, block, written);
        match written {
            Ok(()) => Ok(()),
            Err(_) => Err(self.faults.raise()),
        }
    }

    fn faults(&self) -> u64 {
        self.faults.count()
    }
}

/// Room for all pieces.
fn room_ahead(alloc: Global) -> Result<Blocks, AllocError>
    ensures { IfOk result (λ b. length b.bytes.items ≡ AHEAD) }
{
    Ok(Blocks::new(vec![in alloc; 0u8; AHEAD]?))
}

/// No piece in any place.
fn nothing_kept(alloc: Global) -> Result<Vec<Option<u64>>, AllocError>
    ensures { IfOk result (λ p. p.items ≡ replicate PLACES None) }
{
    vec![in alloc; None; PLACES]
}

/// Where the piece of a block is kept.
fn place_for(lba: u64) -> usize
    ensures place { result ≡ place_of (piece_of lba) }
    ensures within { result < PLACES }
{
    let piece = lba / PIECE;
    let places = PLACES as u64;
    ((piece + piece / places + piece / (places * places)) % places) as usize
}

/// Where a block is kept.
fn slot_for(lba: u64) -> u64
    ensures slot { result ≡ slot_of lba }
    ensures within { result < PIECE * PLACES }
{
    place_for(lba) as u64 * PIECE + lba % PIECE
}

/// Whether a block's piece is kept.
fn is_kept(pieces: &Vec<Option<u64>>, lba: u64) -> bool
    requires { length pieces.now.items ≡ PLACES }
    ensures { IsTrue result ↔ IsKept pieces.now.items lba }
{
    pieces[place_for(lba)] == Some(lba / PIECE)
}

/// Does with what is kept what was done to a block of the medium.
fn follow(
    ahead: &mut Blocks,
    pieces: &mut Vec<Option<u64>>,
    lba: u64,
    block: &[u8; 512],
    written: Result<(), Failed>,
)
    requires room { length ahead.old.bytes.items ≡ AHEAD }
    requires places { length pieces.old.items ≡ PLACES }
    ensures room { length ahead.new.bytes.items ≡ AHEAD }
    ensures places { length pieces.new.items ≡ PLACES }
    ensures alike { (before now : Option (ℕ → List ℕ)) (count : ℕ)
        → WritesBlock before now lba written block.now
        → IsTrueTo before count pieces.old.items ahead.old.bytes.items
        → IsTrueTo now count pieces.new.items ahead.new.bytes.items }
{
    match written {
        Ok(()) => {
            if is_kept(pieces, lba) {
                ahead.write(slot_for(lba), block);
            }
        }
        Err(_) => pieces[place_for(lba)] = None,
    }
}

/// Sees that a block's piece is kept, and says whether it is.
fn keep<M: BulkMedium>(
    medium: &mut M,
    ahead: &mut Blocks,
    pieces: &mut Vec<Option<u64>>,
    lba: u64,
) -> bool
    requires within { lba < M.Medium.count medium.old }
    requires room { length ahead.old.bytes.items ≡ AHEAD }
    requires places { length pieces.old.items ≡ PLACES }
    requires alike { IsTrueTo (M.Medium.contents medium.old) (M.Medium.count medium.old)
        pieces.old.items ahead.old.bytes.items }
    ensures room { length ahead.new.bytes.items ≡ AHEAD }
    ensures places { length pieces.new.items ≡ PLACES }
    ensures alike { IsTrueTo (M.Medium.contents medium.new) (M.Medium.count medium.new)
        pieces.new.items ahead.new.bytes.items }
    ensures kept { OnTrue result (IsKept pieces.new.items lba) }
    ensures contents { M.Medium.contents medium.new ≡ M.Medium.contents medium.old }
    ensures count { M.Medium.count medium.new ≡ M.Medium.count medium.old }
{
    if is_kept(pieces, lba) {
        return true;
    }
    let place = place_for(lba);
    let first = lba / PIECE * PIECE;
    let blocks = PIECE.min(medium.blocks() - first);
    pieces[place] = None;
    match ahead.read_from(medium, first, place as u64 * PIECE, blocks) {
        Ok(()) => {
            pieces[place] = Some(lba / PIECE);
            true
        }
        Err(_) => false,
    }
}
