ghost use Rattle.std.specs.Prelude.{◌≡◌, IfOk, length};
ghost use Rattle.pr_aptpl.specs.Doubts.{IsKeepable};

use super::*;
use pr_io::{DISK, Disk, FRESH_HEAD, Failed, FileDisk, MemDisk, SureDisk};
use pr_table::{Kept, Table};
use std::alloc::Global;
use std::fs;
use std::test::*;

/// The bytes of an open slot with so many registrations, by their fields.
fn slot(alloc: Global, turn: u8, kind: u8, count: u8, holder: u16) -> Result<Vec<u8>, Fail> {
    let mut bytes = [0xA5, turn, 1, kind, 0, count].to_vec(alloc)?;
    bytes.extend_from_slice(&holder.to_be_bytes())?;
    bytes.extend_from_slice(&[0; 8])?;
    for i in 0..count {
        bytes.extend_from_slice(&[0, 0, 0, 0, 0, 0, 0, i, 0, 1])?;
        bytes.extend_from_slice(&[0, 0, 0, 0, 0, 0, 0, i.wrapping_add(1)])?;
    }
    Ok(bytes)
}

/// Puts bytes where they fit.
fn put_in(image: &mut Vec<u8>, at: usize, bytes: &[u8])
    ensures { length image.new.items ≡ length image.old.items }
{
    let end = at.saturating_add(bytes.len());
    if at <= end && end <= image.len() {
        image[at..end].copy_from_slice(bytes);
    }
}

/// An image in which the slots begin with these bytes.
fn image(alloc: Global, first: &[u8], second: &[u8]) -> Result<Vec<u8>, Fail>
    ensures { IfOk result (λ v. length v.items ≡ 262144) }
{
    let mut image = vec![in alloc; 0u8; DISK]?;
    put_in(&mut image, 0, &FRESH_HEAD);
    put_in(&mut image, 4096, first);
    put_in(&mut image, 8192, second);
    Ok(image)
}

/// What a file gives, or the place at which it is bad.
fn read(alloc: Global, image: Vec<u8>) -> Result<Result<Kept, u64>, Fail>
    requires { length image.items ≡ 262144 }
    ensures { IfOk result (λ r. IfOk r (λ k. IsKeepable k)) }
{
    match Keeper::open(alloc, SureDisk::new(image)) {
        Ok((_, kept)) => Ok(Ok(kept)),
        Err((OpenFault::BadFile { place }, _)) => Ok(Err(place)),
        Err((fault, _)) => Err(fault.into()),
    }
}

/// What an open slot holds.
fn kept(alloc: Global, kind: u8, count: u8, holder: u16) -> Result<Kept, Fail>
    ensures { IfOk result (λ k. IsKeepable k) }
{
    let slot = slot(alloc, 0, kind, count, holder)?;
    let image = image(alloc, &slot, &[])?;
    match read(alloc, image)? {
        Ok(kept) => Ok(kept),
        Err(place) => Err(Fail::new(place)),
    }
}

fn is_same(a: &Kept, b: &Kept) -> bool {
    a.on == b.on
        && a.kind == b.kind
        && a.holder == b.holder
        && a.pairs.as_slice() == b.pairs.as_slice()
}

/// Saves what a table keeps that was restored from this.
fn save<D: Disk>(alloc: Global, keeper: &mut Keeper<D>, kept: &Kept) -> Result<bool, Fail>
    requires { IsKeepable kept.now }
{
    let table = Table::from_kept(alloc, kept, 64)?;
    Ok(keeper.save(&table).is_ok())
}

/// What a disk that is opened again gives; once more where a call of it fails.
fn reopen<D: Disk + Drop>(alloc: Global, disk: D) -> Result<(Keeper<D>, Kept), Fail>
    ensures { IfOk result (λ r. IsKeepable r.1) }
{
    match Keeper::open(alloc, disk) {
        Ok(opened) => Ok(opened),
        Err((OpenFault::DiskFault, disk)) => match Keeper::open(alloc, disk) {
            Ok(opened) => Ok(opened),
            Err((fault, _)) => Err(fault.into()),
        },
        Err((fault, _)) => Err(fault.into()),
    }
}

#[test]
fn each_field_that_is_wrong_is_named_by_its_place(rt: HostRuntime) -> Result<(), Fail> {
    let alloc = rt.alloc();
    let newer = slot(alloc, 1, 5, 2, 0)?;
    let older = slot(alloc, 0, 5, 2, 0)?;
    for place in 0..9usize {
        let mut image = image(alloc, &newer, &older)?;
        put_in(&mut image, place, &[0xFF]);
        assert!(rt; matches!(read(alloc, image)?, Err(bad) if bad == place as u64));
    }
    // By its place in the slot: the byte that is changed, its value, and the field.
    let rows = [
        (1, 3, 1),
        (2, 2, 2),
        (2, 0, 3),
        (3, 2, 3),
        (5, 65, 4),
        (5, 0, 4),
        (7, 2, 6),
        (6, 0xFF, 6),
        (25, 0, 24),
        (25, 17, 24),
        (33, 0, 26),
        (43, 0, 42),
        (51, 0, 44),
        (41, 0, 34),
    ];
    for at in [4096u64, 8192] {
        for (byte, value, field) in rows {
            let mut image = image(alloc, &newer, &older)?;
            put_in(&mut image, (at as usize).saturating_add(byte), &[value]);
            assert_eq!(rt; read(alloc, image)?.err(), Some(at.saturating_add(field)));
        }
    }
    Ok(())
}

#[test]
fn of_two_open_slots_the_next_turn_is_current(rt: HostRuntime) -> Result<(), Fail> {
    let alloc = rt.alloc();
    // The turns, and how many registrations the current slot has: 1 in the first one, 2 in the second.
    let rows = [
        (0, 0, None),
        (0, 1, Some(2)),
        (0, 2, Some(1)),
        (1, 0, Some(1)),
        (1, 1, None),
        (1, 2, Some(2)),
        (2, 0, Some(2)),
        (2, 1, Some(1)),
        (2, 2, None),
    ];
    for (first, second, count) in rows {
        let first = slot(alloc, first, 0, 1, 0xFFFF)?;
        let second = slot(alloc, second, 0, 2, 0xFFFF)?;
        match read(alloc, image(alloc, &first, &second)?)? {
            Ok(kept) => assert_eq!(rt; Some(kept.pairs.len()), count),
            Err(place) => assert_eq!(rt; (place, count), (8193, None)),
        }
    }
    Ok(())
}

#[test]
fn saves_take_the_slots_in_turn(rt: HostRuntime) -> Result<(), Fail> {
    let alloc = rt.alloc();
    // 90010001h of (11h, 1): what it must spell, byte by byte.
    let first = [
        0xA5, 0, 1, 0, 0, 1, 0xFF, 0xFF, 0, 0, 0, 0, 0, 0, 0, 0, 0, 0, 0, 0, 0, 0, 0, 0x11, 0, 1,
        0, 0, 0, 0, 0x90, 1, 0, 1,
    ];
    let Ok(kept) = read(alloc, image(alloc, &[], &first)?)? else {
        return Err(Fail::new("another answer"));
    };
    let (mut keeper, nothing) = reopen(alloc, SureDisk::new(image(alloc, &[], &[])?))?;
    assert!(rt; !nothing.on && !keeper.in_doubt());
    for (gate, turn) in [(4096, 0), (8192, 1), (4096, 2), (8192, 0)] {
        assert!(rt; save(alloc, &mut keeper, &kept)?);
        let mut disk = keeper.into_disk();
        let mut bytes = [0u8; 34];
        disk.read_at(gate, &mut bytes)?;
        assert_eq!(rt; bytes[1], turn);
        bytes[1] = 0;
        assert!(rt; bytes == first);
        let (again, found) = reopen(alloc, disk)?;
        assert!(rt; is_same(&found, &kept));
        keeper = again;
    }
    Ok(())
}

#[test]
fn each_call_of_the_disk_fails_in_turn(rt: HostRuntime) -> Result<(), Fail> {
    let alloc = rt.alloc();
    let (one, two, three) = (
        kept(alloc, 0, 1, 0xFFFF)?,
        kept(alloc, 5, 2, 1)?,
        kept(alloc, 7, 3, 0xFFFF)?,
    );
    // 4 calls of the opening, 5, 5 and 6 of the saves, 4 of the next opening.
    for failing in 1..26u64 {
        let fresh = image(alloc, &[], &[])?;
        let disk = MemDisk::new(fresh, vec![in alloc; failing]?);
        let (mut keeper, _) = reopen(alloc, disk)?;
        let mut again = 0;
        for kept in [&one, &two, &three] {
            let saved = save_twice(alloc, &mut keeper, kept)?;
            again = u32::saturating_add(again, u32::from(!saved));
        }
        assert_eq!(rt; again, u32::from(4 < failing && failing < 21));
        let (keeper, found) = reopen(alloc, keeper.into_disk())?;
        assert!(rt; is_same(&found, &three));
        assert_eq!(rt; Disk::faults(&keeper.into_disk()), u64::from(failing < 25));
    }
    Ok(())
}

/// Saves, and saves again where it failed; whether the first of them succeeded.
fn save_twice(alloc: Global, keeper: &mut Keeper<MemDisk>, kept: &Kept) -> Result<bool, Fail>
    requires { IsKeepable kept.now }
{
    if save(alloc, keeper, kept)? {
        return Ok(true);
    }
    if !keeper.in_doubt() || !save(alloc, keeper, kept)? || keeper.in_doubt() {
        return Err(Fail::new("another answer"));
    }
    Ok(false)
}

#[test]
fn what_was_saved_is_opened_again(rt: HostRuntime) -> Result<(), Fail> {
    let alloc = rt.alloc();
    let path = "what_was_saved";
    let _ = fs::remove_file(&rt, path);
    let (mut keeper, nothing) = reopen(alloc, FileDisk::open(&rt, path)?)?;
    assert!(rt; save(alloc, &mut keeper, &nothing)?);
    for count in [0u8, 1, 64] {
        for (kind, holder) in [
            (0, 0xFFFF),
            (1, 0),
            (3, 63),
            (5, 0),
            (6, 9),
            (7, 0xFFFF),
            (8, 0xFFFF),
        ] {
            if count == 0 && kind != 0 || holder < 64 && u16::from(count) <= holder {
                continue;
            }
            let kept = kept(alloc, kind, count, holder)?;
            assert!(rt; save(alloc, &mut keeper, &kept)?);
            let (again, found) = reopen(alloc, keeper.into_disk())?;
            assert!(rt; is_same(&found, &kept));
            keeper = again;
        }
    }
    fs::remove_file(&rt, path)?;
    Ok(())
}
