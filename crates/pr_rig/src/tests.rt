ghost use Rattle.std.specs.Prelude.{◌≡◌, [], IfOk, length};
ghost use Rattle.pr_io.specs.Blocks.{disk_size};
ghost use Rattle.pr_io.specs.Lines.{new_line};
ghost use Rattle.pr_session.specs.Peers.{HasMade};

use super::*;
use pr_core::Core;
use pr_io::{DISK, FRESH_HEAD, MemSink, MemWire, SureDisk, SureMedium};
use pr_persist::persist_main;
use pr_session::{LanePeer, Session};
use std::alloc::{AllocError, Global};
use std::test::*;

/// A target of one block in memory.
type Target = LanePeer<SureMedium, SureDisk>;

/// A disk's bytes on which nothing was kept yet.
fn fresh_image(alloc: Global) -> Result<Vec<u8>, AllocError>
    ensures { IfOk result (λ v. length v.items ≡ disk_size) }
{
    let mut image = FRESH_HEAD.to_vec(alloc)?;
    image.resize(DISK, 0)?;
    Ok(image)
}

/// A target that was never opened before.
fn fresh_target(alloc: Global) -> Result<Target, AllocError>
    ensures { IfOk result (λ p. HasMade p new_line []) }
{
    let medium = SureMedium::new(vec![in alloc; 0u8; 512]?);
    let disk = SureDisk::new(fresh_image(alloc)?);
    match Core::open(alloc, medium, disk) {
        Ok(core) => Ok(LanePeer::new(Session::new(alloc)?, core)),
        Err(_) => Err(AllocError),
    }
}

/// A wire to such targets at the addresses x, y and z.
fn fresh_wire(alloc: Global) -> Result<MemWire<Target>, AllocError> {
    let mut devices = Vec::new(alloc);
    devices.push((String::from_str(alloc, "x")?, fresh_target(alloc)?))?;
    devices.push((String::from_str(alloc, "y")?, fresh_target(alloc)?))?;
    devices.push((String::from_str(alloc, "z")?, fresh_target(alloc)?))?;
    Ok(MemWire::new(alloc, devices, Vec::new(alloc)))
}

/// A wire to such a target at the address x, some of whose calls fail.
fn failing_wire(alloc: Global, failing: Vec<u64>) -> Result<MemWire<Target>, AllocError> {
    let mut devices = Vec::new(alloc);
    devices.push((String::from_str(alloc, "x")?, fresh_target(alloc)?))?;
    Ok(MemWire::new(alloc, devices, failing))
}

/// Runs a command, `fence` or `persist`, and gives its exit status.
fn run(
    alloc: Global,
    command: &str,
    wire: &mut MemWire<Target>,
    sink: &mut MemSink,
) -> Result<u8, AllocError> {
    let words: Vec<&str> = command.split_whitespace().collect(alloc)?;
    if command.starts_with("fence") {
        Ok(fence_rig(alloc, &words, wire, sink).status())
    } else {
        Ok(persist_main(alloc, &words, wire, sink).status())
    }
}

/// A command, the status with which it ends, and what it prints.
type Row = (&'static str, u8, &'static str);

/// Node 1 fences node 2 off; only what it is told changes, and it can't fence itself off.
const WORKED: [Row; 10] = [
    ("fence on --cluster abc --node 1 --name 11 x", 0, "on x\n"),
    ("fence on --cluster abc --node 2 --name 12 x", 0, "on x\n"),
    (
        "fence status --cluster abc --node 1 --name 11 --plug 2 x",
        0,
        "status x present\n",
    ),
    (
        "fence off --cluster abc --node 1 --name 11 --plug 2 x",
        0,
        "off x removed\n",
    ),
    (
        "fence status --cluster abc --node 1 --name 11 --plug 2 x",
        2,
        "status x absent\n",
    ),
    (
        "fence status --cluster abc --node 1 --name 11 --plug 1 x",
        0,
        "status x present\n",
    ),
    (
        "fence off --cluster abc --node 1 --name 11 --plug 2 x",
        0,
        "off x absent\n",
    ),
    (
        "fence off --cluster abc --node 1 --name 11 --plug 1 x",
        9,
        "",
    ),
    (
        "persist -k -n --name 11 x",
        0,
        "  PR generation=0x3, 1 registered reservation key follows:\n    0x90010001\n",
    ),
    (
        "persist -r -n --name 11 x",
        0,
        "  PR generation=0x3, Reservation follows:\n    Key=0x90010001\n    scope: 0, type: Write Exclusive, registrants only\n",
    ),
];

/// Three devices, the second of which isn't there.
const DOWN: [Row; 5] = [
    (
        "fence on --cluster abc --node 1 --name 11 x q z",
        3,
        "on x\n",
    ),
    (
        "fence status --cluster abc --node 1 --name 11 --plug 1 z",
        2,
        "status z absent\n",
    ),
    (
        "fence on --cluster abc --node 2 --name 12 x y z",
        0,
        "on x\non y\non z\n",
    ),
    (
        "fence off --cluster abc --node 1 --name 11 --plug 2 x q z",
        3,
        "off x removed\n",
    ),
    (
        "fence off --cluster abc --node 1 --name 11 --plug 2 x y z y",
        0,
        "off x absent\noff y removed\noff z removed\noff y absent\n",
    ),
];

/// A victim with three nexuses.
const THRICE: [Row; 6] = [
    ("fence on --cluster abc --node 1 --name 11 x", 0, "on x\n"),
    ("fence on --cluster abc --node 2 --name 12 x", 0, "on x\n"),
    ("fence on --cluster abc --node 2 --name 13 x", 0, "on x\n"),
    ("persist -I -S 90010002 -n --name 13 --port 2 x", 0, ""),
    (
        "fence off --cluster abc --node 1 --name 11 --plug 2 x",
        0,
        "off x removed\n",
    ),
    (
        "persist -s -n --name 11 x",
        0,
        "  PR generation=0x5, 1 registrations\n    Key=0x90010001 name=0000000000000011 port=1 holder type=5\n",
    ),
];

/// A reservation of another type, which the victim holds: it goes with the victim.
const EXCLUSIVE: [Row; 4] = [
    ("persist -I -S 90010002 -n --name 12 x", 0, ""),
    ("persist -R -K 90010002 -T 3 -n --name 12 x", 0, ""),
    (
        "fence off --cluster abc --node 1 --name 11 --plug 2 x",
        0,
        "off x removed\n",
    ),
    (
        "persist -s -n --name 11 x",
        0,
        "  PR generation=0x3, 1 registrations\n    Key=0x90010001 name=0000000000000011 port=1 holder type=5\n",
    ),
];

/// A reservation of another type, which the agent holds: it stays.
const STANDING: [Row; 5] = [
    ("persist -I -S 90010001 -n --name 11 x", 0, ""),
    ("persist -R -K 90010001 -T 1 -n --name 11 x", 0, ""),
    ("fence on --cluster abc --node 2 --name 12 x", 0, "on x\n"),
    (
        "fence off --cluster abc --node 1 --name 11 --plug 2 x",
        0,
        "off x removed\n",
    ),
    (
        "persist -r -n --name 11 x",
        0,
        "  PR generation=0x3, Reservation follows:\n    Key=0x90010001\n    scope: 0, type: Write Exclusive\n",
    ),
];

/// Registrations that outlive a loss of power, and such that don't.
const KEPT: [Row; 4] = [
    (
        "fence on --cluster abc --node 1 --name 11 --aptpl x",
        0,
        "on x\n",
    ),
    ("fence on --cluster abc --node 1 --name 11 y", 0, "on y\n"),
    (
        "persist -c -n --name 11 x",
        0,
        "  Capabilities: 0x01 0x81, type mask 0xea01\n",
    ),
    (
        "persist -c -n --name 11 y",
        0,
        "  Capabilities: 0x01 0x80, type mask 0xea01\n",
    ),
];

const SCENES: [&[Row]; 6] = [&WORKED, &DOWN, &THRICE, &EXCLUSIVE, &STANDING, &KEPT];

// Each scene begins with fresh targets.
#[test]
fn scenes_go_as_the_rules_say(rt: HostRuntime) -> Result<(), Fail> {
    let alloc = rt.alloc();
    for scene in SCENES {
        let mut wire = fresh_wire(alloc)?;
        for &(command, status, text) in scene {
            let mut sink = MemSink::new(alloc, Vec::new(alloc));
            assert!(rt; run(alloc, command, &mut wire, &mut sink)? == status);
            assert!(rt; sink.bytes() == text.as_bytes());
        }
    }
    Ok(())
}

// 64 registrations are a target's most: the next one is refused, until one is fenced off.
#[test]
fn full_targets_refuse_a_node(rt: HostRuntime) -> Result<(), Fail> {
    let alloc = rt.alloc();
    let mut wire = fresh_wire(alloc)?;
    let mut sink = MemSink::new(alloc, Vec::new(alloc));
    for node in 1..65 {
        let command = format!(in alloc; "fence on --cluster abc --node {node} --name {node} x")?;
        assert!(rt; run(alloc, &command, &mut wire, &mut sink)? == 0);
    }
    let more = "fence on --cluster abc --node 65 --name 65 x";
    assert!(rt; run(alloc, more, &mut wire, &mut sink)? == 12);
    let stranger = "fence off --cluster abc --node 65 --name 65 --plug 2 x";
    assert!(rt; run(alloc, stranger, &mut wire, &mut sink)? == 12);
    let off = "fence off --cluster abc --node 1 --name 1 --plug 2 x";
    assert!(rt; run(alloc, off, &mut wire, &mut sink)? == 0);
    assert!(rt; run(alloc, more, &mut wire, &mut sink)? == 0);
    Ok(())
}

// 64 addresses are the most.
#[test]
fn addresses_are_counted(rt: HostRuntime) -> Result<(), Fail> {
    let alloc = rt.alloc();
    let mut wire = fresh_wire(alloc)?;
    let mut sink = MemSink::new(alloc, Vec::new(alloc));
    let mut command = String::from_str(alloc, "fence on --cluster abc --node 1 --name 11")?;
    for _ in 0..64 {
        command.push_str(" x")?;
    }
    assert!(rt; run(alloc, &command, &mut wire, &mut sink)? == 0);
    assert!(rt; sink.bytes().len() == 64 * 5);
    command.push_str(" x")?;
    assert!(rt; run(alloc, &command, &mut wire, &mut sink)? == 1);
    assert!(rt; sink.bytes().len() == 64 * 5);
    Ok(())
}

/// Two nodes are let in, and the first fences the second off.
const RUNS: [&str; 3] = [
    "fence on --cluster abc --node 1 --name 11 x",
    "fence on --cluster abc --node 2 --name 12 x",
    "fence off --cluster abc --node 1 --name 11 --plug 2 x",
];

const LOOK: &str = "fence status --cluster abc --node 1 --name 11 --plug 2 x";

/// How many of the runs end with this status; the others end well. The last one does when it is
/// made again, and the victim is gone then. None where it isn't so.
fn failed_of(
    alloc: Global,
    calls: Vec<u64>,
    puts: Vec<u64>,
    wanted: u8,
) -> Result<Option<u64>, AllocError> {
    let mut wire = failing_wire(alloc, calls)?;
    let mut sink = MemSink::new(alloc, puts);
    let mut failed = 0u64;
    for command in RUNS {
        let status = run(alloc, command, &mut wire, &mut sink)?;
        if status == wanted {
            failed = failed.saturating_add(1);
        } else if status != 0 {
            return Ok(None);
        }
    }
    let off = run(alloc, RUNS[2], &mut wire, &mut sink)?;
    let look = run(alloc, LOOK, &mut wire, &mut sink)?;
    if off == 0 && look == 2 {
        Ok(Some(failed))
    } else {
        Ok(None)
    }
}

// Each call of the wire fails in turn, and ends the run in which it does. There are more than 60.
#[test]
fn each_failing_call_ends_its_run(rt: HostRuntime) -> Result<(), Fail> {
    let alloc = rt.alloc();
    for failing in 1..60 {
        let calls = vec![in alloc; failing; 1]?;
        assert!(rt; failed_of(alloc, calls, Vec::new(alloc), 3)? == Some(1));
    }
    assert!(rt; failed_of(alloc, Vec::new(alloc), Vec::new(alloc), 3)? == Some(0));
    Ok(())
}

// Each put fails in turn.
#[test]
fn each_failing_put_ends_its_run(rt: HostRuntime) -> Result<(), Fail> {
    let alloc = rt.alloc();
    for failing in 1..4 {
        let puts = vec![in alloc; failing; 1]?;
        assert!(rt; failed_of(alloc, Vec::new(alloc), puts, 4)? == Some(1));
    }
    Ok(())
}
