ghost use Rattle.std.specs.Prelude.{◌≤◌, ◌+◌};
ghost use Rattle.pr_io.specs.Blocks.{disk_size};

use super::*;
use std::fs;
use std::io::ErrorKind;
use std::test::*;

/// Puts a byte on a disk, settles it, and reads it back.
fn put_and_read<D: Disk>(disk: &mut D, at: u64, byte: u8) -> Result<u8, Failed>
    requires { at + 1 ≤ disk_size }
{
    put(disk, at, &[byte])?;
    settle(disk)?;
    let mut buf = [0u8; 1];
    disk.read_at(at, &mut buf)?;
    Ok(buf[0])
}

#[test]
fn a_disk_that_never_fails(rt: HostRuntime) -> Result<(), Fail> {
    let mut disk = SureDisk::new(vec![in rt.alloc(); 0u8; 262_144]?);
    assert_eq!(rt; put_and_read(&mut &mut disk, 262_143, 0xA1), Ok(0xA1));
    assert_eq!(rt; Disk::faults(&disk), 0);
    Ok(())
}

// Each disk of these lets one call more pass than the one before: a write, two syncs, a read.
#[test]
fn disks_whose_calls_fail_in_turn(rt: HostRuntime) -> Result<(), Fail> {
    let alloc = rt.alloc();
    for (failing, held) in [(1, 0), (2, 0xA2), (3, 0xA2), (4, 0xA2)] {
        let mut disk = MemDisk::new(vec![in alloc; 0u8; 262_144]?, vec![in alloc; failing]?);
        assert_eq!(rt; put_and_read(&mut &mut disk, 7, 0xA2), Err(Failed));
        assert_eq!(rt; disk.bytes().get(7).copied(), Some(held));
        assert_eq!(rt; put_and_read(&mut disk, 7, 0xA3), Ok(0xA3));
        assert_eq!(rt; Disk::faults(&disk), 1);
        assert_eq!(rt; disk.starved(), 0);
    }
    Ok(())
}

#[test]
fn a_disk_makes_its_file(rt: HostRuntime) -> Result<(), Fail> {
    let path = "disk_that_makes_its_file";
    let _ = fs::remove_file(&rt, path);
    let mut disk = FileDisk::open(&rt, path)?;
    let mut head = [0xFFu8; 12];
    disk.read_at(0, &mut head)?;
    assert_eq!(rt; head, *b"PRKEEPER\x01\0\0\0");
    fs::remove_file(&rt, path)?;
    Ok(())
}

// What was put is there when the file is opened again.
#[test]
fn a_disk_over_a_file(rt: HostRuntime) -> Result<(), Fail> {
    let path = "disk_over_a_file";
    fs::write(&rt, path, vec![in rt.alloc(); 0u8; 262_144]?)?;
    let put = put_and_read(&mut &mut FileDisk::open(&rt, path)?, 262_143, 0xA4);
    assert_eq!(rt; put, Ok(0xA4));
    let mut last = [0u8; 2];
    FileDisk::open(&rt, path)?.read_at(262_142, &mut last)?;
    assert_eq!(rt; last, [0, 0xA4]);
    fs::remove_file(&rt, path)?;
    Ok(())
}

#[test]
fn a_disk_whose_file_is_cut(rt: HostRuntime) -> Result<(), Fail> {
    let path = "disk_whose_file_is_cut";
    fs::write(&rt, path, vec![in rt.alloc(); 0u8; 262_144]?)?;
    let mut disk = FileDisk::open(&rt, path)?;
    fs::write(&rt, path, b"shorter")?;
    assert_eq!(rt; disk.read_at(262_142, &mut [0u8; 2]), Err(Failed));
    assert_eq!(rt; Disk::faults(&disk), 1);
    fs::remove_file(&rt, path)?;
    Ok(())
}

#[test]
fn files_of_another_length(rt: HostRuntime) -> Result<(), Fail> {
    let path = "disk_of_another_length";
    for length in [262_143, 262_145] {
        fs::write(&rt, path, vec![in rt.alloc(); 0u8; length]?)?;
        let opened = FileDisk::open(&rt, path);
        assert!(rt; matches!(opened, Err(e) if e.kind() == ErrorKind::InvalidData));
    }
    fs::remove_file(&rt, path)?;
    Ok(())
}
