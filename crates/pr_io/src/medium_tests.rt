use super::*;
use std::fs;
use std::io::ErrorKind;
use std::test::*;

/// A call of a medium, with the byte that fills the block that is written.
#[derive(Clone, Copy)]
enum Call {
    Read(u64),
    Write(u64, u8),
}

/// A call, how it ends, and the medium's count of faults behind it.
type Wanted = (Call, Result<u8, Failed>, u64);

/// Makes the call, if there is such a block, and says which byte the block ends with.
fn answer<M: Medium>(medium: &mut M, call: Call) -> Option<Result<u8, Failed>> {
    let mut block = [0u8; 512];
    match call {
        Call::Read(lba) if lba < medium.blocks() => {
            let read = medium.read_block(lba, &mut block);
            Some(read.map(|()| block[511]))
        }
        Call::Write(lba, byte) if lba < medium.blocks() => {
            block = [byte; 512];
            let written = medium.write_block(lba, &block);
            Some(written.map(|()| byte))
        }
        _ => None,
    }
}

/// Whether the calls end as they are to.
fn are_met<M: Medium>(medium: &mut M, wanted: &[Wanted]) -> bool {
    for (call, result, faults) in wanted {
        if answer(&mut *medium, *call) != Some(*result) || medium.faults() != *faults {
            return false;
        }
    }
    true
}

// The medium under it is asked: 1 ahead (fails), 2 alone, 3 ahead, 4 and 5 writes (5 fails),
// 6 ahead, 7 ahead (32 to 39), 8 a write, 9 a write in a piece that isn't kept any more.
#[test]
fn blocks_are_read_ahead(rt: HostRuntime) -> Result<(), Fail> {
    let alloc = rt.alloc();
    let failing = [1, 5].to_vec(alloc)?;
    let under = MemMedium::new(vec![in alloc; 7u8; 40 * 512]?, failing);
    let mut medium = ReadAhead::new(alloc, under)?;
    let wanted = [
        (Call::Read(0), Ok(7), 0),
        (Call::Read(1), Ok(7), 0),
        (Call::Write(1, 0xA1), Ok(0xA1), 0),
        (Call::Read(1), Ok(0xA1), 0),
        (Call::Write(2, 0xA2), Err(Failed), 1),
        (Call::Read(2), Ok(7), 1),
        (Call::Read(1), Ok(0xA1), 1),
        (Call::Read(39), Ok(7), 1),
        (Call::Write(39, 0xA3), Ok(0xA3), 1),
        (Call::Read(39), Ok(0xA3), 1),
        (Call::Read(31), Ok(7), 1),
    ];
    assert!(rt; are_met(&mut &mut medium, &wanted));
    Ok(())
}

#[test]
fn files_that_hold_no_block(rt: HostRuntime) -> Result<(), Fail> {
    let path = "medium_of_no_block";
    let missing = FileMedium::open(&rt, path);
    assert!(rt; matches!(missing, Err(MediumFault::File(e)) if e.kind() == ErrorKind::NotFound));
    fs::write(&rt, path, vec![in rt.alloc(); 7u8; 511]?)?;
    let short = FileMedium::open(&rt, path);
    assert!(rt; matches!(short, Err(MediumFault::Blocks(0))));
    fs::remove_file(&rt, path)?;
    Ok(())
}

#[test]
fn a_medium_over_a_file(rt: HostRuntime) -> Result<(), Fail> {
    let path = "medium_over_a_file";
    fs::write(&rt, path, vec![in rt.alloc(); 7u8; 35 * 512 + 511]?)?;
    let wanted = [
        (Call::Read(33), Ok(7), 0),
        (Call::Write(34, 0xA4), Ok(0xA4), 0),
        (Call::Read(34), Ok(0xA4), 0),
    ];
    let mut ahead = ReadAhead::new(rt.alloc(), FileMedium::open(&rt, path)?)?;
    assert_eq!(rt; ahead.blocks(), 35);
    assert!(rt; are_met(&mut ahead, &wanted));
    let again = [(Call::Read(34), Ok(0xA4), 0), (Call::Read(33), Ok(7), 0)];
    assert!(rt; are_met(&mut FileMedium::open(&rt, path)?, &again));
    fs::remove_file(&rt, path)?;
    Ok(())
}

// A file that is cut while it is open is a fault of each call, alone and ahead of.
#[test]
fn a_medium_over_a_file_that_is_cut(rt: HostRuntime) -> Result<(), Fail> {
    let path = "medium_that_is_cut";
    fs::write(&rt, path, vec![in rt.alloc(); 7u8; 512]?)?;
    let mut alone = FileMedium::open(&rt, path)?;
    let mut ahead = ReadAhead::new(rt.alloc(), FileMedium::open(&rt, path)?)?;
    fs::write(&rt, path, b"shorter")?;
    let wanted = [(Call::Read(0), Err(Failed), 1)];
    assert!(rt; are_met(&mut alone, &wanted));
    assert!(rt; are_met(&mut ahead, &wanted));
    fs::remove_file(&rt, path)?;
    Ok(())
}
