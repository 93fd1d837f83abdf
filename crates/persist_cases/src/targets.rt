//! Runs of cases over a wire to a target in memory that answers by itself.

ghost use Rattle.std.specs.Prelude.{◌≡◌, [], IfOk, length};
ghost use Rattle.pr_io.specs.Blocks.{disk_size};
ghost use Rattle.pr_io.specs.Lines.{new_line};
ghost use Rattle.pr_session.specs.Peers.{HasMade};

use crate::flaw::Flaw;
use crate::running::{Outcome, Trial};
use pr_core::Core;
use pr_io::{DISK, FRESH_HEAD, MemWire, SureDisk, SureMedium, SureSink};
use pr_persist::persist_main;
use pr_session::{LanePeer, Session};
use std::alloc::Global;

/// A target of one block in memory.
type Target = LanePeer<SureMedium, SureDisk>;

/// A disk's bytes on which nothing was kept yet.
fn fresh_image(alloc: Global) -> Result<Vec<u8>, Flaw>
    ensures { IfOk result (λ v. length v.items ≡ disk_size) }
{
    let mut image = FRESH_HEAD.to_vec(alloc)?;
    image.resize(DISK, 0)?;
    Ok(image)
}

/// A target that was never opened before.
fn fresh_target(alloc: Global) -> Result<Target, Flaw>
    ensures { IfOk result (λ p. HasMade p new_line []) }
{
    let medium = SureMedium::new(vec![in alloc; 0u8; 512]?);
    let disk = SureDisk::new(fresh_image(alloc)?);
    match Core::open(alloc, medium, disk) {
        Ok(core) => Ok(LanePeer::new(Session::new(alloc)?, core)),
        Err(_) => Err(Flaw::TargetShut),
    }
}

/// A wire to such a target at the address x.
fn fresh_wire(alloc: Global) -> Result<MemWire<Target>, Flaw> {
    let mut devices = Vec::new(alloc);
    devices.push((String::from_str(alloc, "x")?, fresh_target(alloc)?))?;
    Ok(MemWire::new(alloc, devices, Vec::new(alloc)))
}

/// Runs a trial against a fresh target at the address x that has had these commands.
pub(crate) fn run_behind(
    alloc: Global,
    trial: &Trial<'_>,
    before: &[String],
) -> Result<Outcome, Flaw> {
    let mut wire = fresh_wire(alloc)?;
    for command in before {
        let words: Vec<&str> = command.split_whitespace().collect(alloc)?;
        let exit = persist_main(alloc, &words, &mut wire, &mut SureSink::new());
        if exit.status() != 0 {
            return Err(Flaw::StatusBefore(exit.status()));
        }
    }
    trial.run_over(alloc, wire, Vec::new(alloc))
}
