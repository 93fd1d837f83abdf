use super::*;
use std::io::{ErrorKind, Read, Write};
use std::net::TcpStream;
use std::test::*;
use std::thread;

/// Takes the next connection, puts a byte into it, and reads one from it.
fn greet<A: Door>(door: &mut A, byte: u8) -> Result<u8, Failed> {
    let (mut source, mut sink) = door.accept()?;
    put_all(&mut sink, &[byte])?;
    let mut buf = [0u8; 1];
    read_up_to(&mut source, &mut buf)?;
    Ok(buf[0])
}

// Connections in memory come in their order, once each, and a call that fails takes none.
#[test]
fn a_door_in_memory(rt: HostRuntime) -> Result<(), Fail> {
    let alloc = rt.alloc();
    let mut first = MemSink::new(alloc, Vec::new(alloc));
    let mut second = MemSink::new(alloc, [1].to_vec(alloc)?);
    let mut connections = Vec::new(alloc);
    connections.push((SureSource::new(b"abc".to_vec(alloc)?), &mut first))?;
    connections.push((SureSource::new(b"def".to_vec(alloc)?), &mut second))?;
    let mut door = MemDoor::new(connections, [1, 3].to_vec(alloc)?);
    let wanted = [
        (Err(Failed), 0, 1),
        (Ok(b'a'), 1, 1),
        (Err(Failed), 1, 2),
        (Err(Failed), 2, 2),
        (Err(Failed), 2, 3),
        (Err(Failed), 2, 4),
    ];
    for (result, taken, faults) in wanted {
        assert_eq!(rt; greet(&mut &mut door, b'!'), result);
        assert_eq!(rt; door.taken(), taken);
        assert_eq!(rt; door.faults(), faults);
    }
    drop(door);
    assert_eq!(rt; first.bytes(), b"!".as_slice());
    assert!(rt; second.bytes().is_empty());
    Ok(())
}

/// Replies once, and ends the connection.
fn reply(mut source: TcpSource, mut sink: TcpSink) -> Result<[u8; 5], Failed> {
    let mut asked = [0; 5];
    read_up_to(&mut source, &mut asked)?;
    put_all(&mut sink, b"replied!")?;
    Ok(asked)
}

// A connection over loopback carries bytes both ways in another thread, and its end shows.
#[test]
fn a_door_over_tcp(rt: HostRuntime) -> Result<(), Fail> {
    let mut door = TcpDoor::listen(&rt, rt.alloc(), "127.0.0.1:0")?;
    let mut client = TcpStream::connect(&rt, door.address()?)?;
    client.write_all(b"asked")?;
    let (source, sink) = door.accept()?;
    let replying = thread::spawn(&rt, move || reply(source, sink))?;
    let mut replied = [0; 8];
    client.read_exact(&mut replied)?;
    assert_eq!(rt; replied, *b"replied!");
    assert_eq!(rt; client.read(&mut replied)?, 0);
    assert_eq!(rt; replying.join(&rt), Ok(*b"asked"));
    assert_eq!(rt; door.taken(), 1);
    assert_eq!(rt; door.faults(), 0);
    Ok(())
}

#[test]
fn addresses_that_are_refused(rt: HostRuntime) -> Result<(), Fail> {
    let alloc = rt.alloc();
    let door = TcpDoor::listen(&rt, alloc, "127.0.0.1:0")?;
    let taken = format!(in alloc; "{}", door.address()?)?;
    let wanted = [
        (taken.as_str(), ErrorKind::AddrInUse),
        ("127.0.0.1", ErrorKind::InvalidInput),
        ("127.0.0.1:65536", ErrorKind::InvalidInput),
    ];
    for (address, kind) in wanted {
        let refused = TcpDoor::listen(&rt, alloc, address);
        assert!(rt; matches!(refused, Err(e) if e.kind() == kind));
    }
    Ok(())
}
