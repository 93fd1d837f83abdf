ghost use Rattle.std.specs.Prelude.{◌≡◌, ◌≤◌, ◌+◌, ◌↔◌, List, length, take, IfOk, IfErr, IsErr, IsTrue, MatchResult, true, false};
ghost use Rattle.pr_grammar.specs.Standings.{Kept};
ghost use Rattle.pr_grammar.specs.Files.{file_head, file_layout, spelled_slot};
ghost use Rattle.pr_io.specs.Causes.{HasCause};
ghost use Rattle.pr_io.specs.Images.{Stays};
ghost use Rattle.pr_words.specs.declared.limits.TheConstants.{LIMIT};
ghost use Rattle.pr_model.specs.Keeping.{kept};
ghost use Rattle.pr_model.specs.Registrants.{IsWellFormed};
ghost use Rattle.pr_table.specs.Tables.{standing_of};
ghost use Rattle.pr_aptpl.specs.Doubts.{AreInFields, HavePorts, IsKeepable};
ghost use Rattle.pr_aptpl.specs.Opens.{FailsAt, IsFaultOf};
ghost use Rattle.pr_aptpl.specs.declared.opening.TheConstants.{SLOT};

use crate::OpenFault;
use crate::aim::Aim;
use crate::opening::{SLOT, open_file};
use crate::parts::{close, fill, open_gate};
use crate::spelling::spell;
use pr_grammar::FILE_LAYOUT;
use pr_io::{Disk, Failed};
use pr_table::{Kept, Table};
use std::alloc::Global;

/// Keeps on a disk what outlives a power loss.
///
/// All memory is taken by `open`.
#[derive(Drop)]
pub struct Keeper<D: Disk> {
    disk: D,
    buffer: Vec<u8>,
    aim: Aim,
    in_doubt: bool,
    ghost room: { length buffer.items ≡ SLOT },
}

/// Spells an open slot into the keeper's buffer, and says how long it is.
fn spell_into(buffer: &mut Vec<u8>, turn: u8, table: &Table) -> usize
    requires room { length buffer.old.items ≡ SLOT }
    requires count { length (standing_of table.now).pairs ≤ LIMIT }
    ensures room { length buffer.new.items ≡ SLOT }
    ensures least { 16 ≤ result }
    ensures most { result ≤ SLOT }
    ensures fits { (standing_of table.now).preserve ≡ true → AreInFields
        (standing_of table.now).pairs }
    ensures bytes { take result buffer.new.items ≡ spelled_slot turn (kept (standing_of table.now)) }
{
    spell(buffer, turn, table)
}

impl<D: Disk> Keeper<D> {
    ghost use Rattle.pr_aptpl.specs.Keepers.{Opens, Saves, StandsFor, disk_of, is_in_doubt, is_told};

    /// Opens the registrations' file on a disk, and gives what was kept. It begins with a sync, reads
    /// at most 4 KiB, and writes nothing. Where it fails the disk comes back.
    ///
    /// # Errors
    ///
    /// Where what was read isn't a registrations' file, where the disk has failed, and want of
    /// memory.
    pub fn open(alloc: Global, disk: D) -> Result<(Keeper<D>, Kept), (OpenFault, D)>
        ensures opens { IfOk result (λ r. Opens (D.story disk) r.0 r.1) }
        ensures sound { IfOk result (λ r. IsKeepable r.1) }
        ensures calm { IfOk result (λ r. (D.faults (disk_of r.0) ≡ D.faults disk)
            × (is_in_doubt r.0 ≡ false)) }
        ensures reference { MatchResult result
            (λ r. D.reference (disk_of r.0) ≡ D.reference disk)
            (λ e. D.reference e.1 ≡ D.reference disk) }
        ensures fails { IfErr result (λ e. FailsAt file_head file_layout e.0 (D.story disk)
            × Stays (D.story disk) (D.story e.1)) }
        ensures fault { IfErr result (λ e. IsFaultOf e.0 (D.faults disk) (D.faults e.1)) }
    {
        let mut disk = disk;
        let Ok(mut buffer) = vec![in alloc; 0u8; SLOT] else {
            return Err((OpenFault::OutOfMemory, disk));
        };
        match open_file(alloc, &mut disk, &mut buffer) {
            Err(fault) => Err((fault, disk)),
            Ok((aim, kept)) => Ok((
                Keeper {
                    disk,
                    buffer,
                    aim,
                    in_doubt: false,
                },
                kept,
            )),
        }
    }

    /// Saves what a table keeps. At every moment a power loss leaves what was kept before or what the
    /// table keeps; after a success it leaves the latter.
    ///
    /// # Errors
    ///
    /// Where the disk has failed. Until a save that succeeds, a power loss may leave either.
    pub fn save(&mut self, table: &Table) -> Result<(), Failed>
        requires formed { IsWellFormed LIMIT (standing_of table.now) }
        requires ports { HavePorts (standing_of table.now).pairs }
        ensures saves { (ks : List Kept) → StandsFor self.old ks
            → Saves self.old self.new ks (kept (standing_of table.now)) result }
        ensures doubt { IsTrue (is_in_doubt self.new) ↔ IsErr result }
        ensures told { is_told self.new ≡ is_told self.old }
        ensures reference { D.reference (disk_of self.new) ≡ D.reference (disk_of self.old) }
        ensures cause { HasCause (D.faults (disk_of self.old)) (D.faults (disk_of self.new))
            result }
    {
        self.in_doubt = true;
        let gate = self.aim.gate(&FILE_LAYOUT);
        close(&mut self.disk, gate, &mut self.aim.may_be_open)?;
        let turn = self.aim.next_turn();
        let len = spell_into(&mut self.buffer, turn, table);
        fill(&mut self.disk, gate, &self.buffer[1..len])?;
        self.aim.may_be_open = true;
        open_gate(&mut self.disk, gate)?;
        self.aim = self.aim.after(turn);
        self.in_doubt = false;
        Ok(())
    }

    /// Whether the last save since the opening failed.
    pub fn in_doubt(&self) -> bool
        ensures { result ≡ is_in_doubt self.now }
    {
        self.in_doubt
    }

    /// The disk, on which the file stands as the last save left it.
    pub fn into_disk(self) -> D
        ensures { result ≡ disk_of self }
    {
        self.disk
    }
}
