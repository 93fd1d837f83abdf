use super::*;
use std::alloc::{AllocError, Global};
use std::io::{Read, Write};
use std::net::TcpListener;
use std::test::*;

// A loopback connection carries bytes both ways, and its end shows.
#[test]
fn tcp_wire_carries_bytes_both_ways(rt: HostRuntime) -> Result<(), Fail> {
    let listener = TcpListener::bind(&rt, "127.0.0.1:0")?;
    let address = format!(in rt.alloc(); "{}", listener.local_addr()?)?;
    let mut wire = TcpWire::new(&rt);
    let mut asked = [0; 5];
    let mut replied = [0; 8];
    assert!(rt; wire.send(b"early").is_err());
    assert!(rt; wire.dial(&address).is_ok());
    let (mut stream, _) = listener.accept()?;
    assert!(rt; wire.send(b"asked").is_ok());
    stream.read_exact(&mut asked)?;
    stream.write_all(b"replied!")?;
    assert!(rt; wire.receive(&mut replied) == Ok(8));
    assert!(rt; (asked, replied) == (*b"asked", *b"replied!"));
    drop(stream);
    assert!(rt; wire.receive(&mut replied) == Ok(0));
    Ok(())
}

/// A wire to a device `x`, which says `replied` in pieces of 4 bytes. Its fourth call fails.
fn wire_to_x(alloc: Global) -> Result<MemWire<ScriptPeer>, AllocError> {
    let peer = ScriptPeer::new(Vec::from_slice(alloc, b"replied")?, 4);
    let mut devices = Vec::new(alloc);
    devices.push((String::from_str(alloc, "x")?, peer))?;
    Ok(MemWire::new(alloc, devices, vec![in alloc; 4]?))
}

// Only what passes is recorded, and each dial begins anew.
#[test]
fn mem_wire_records_what_passes(rt: HostRuntime) -> Result<(), Fail> {
    let mut wire = wire_to_x(rt.alloc())?;
    assert!(rt; wire.send(b"early").is_err());
    assert!(rt; wire.dial("y").is_err());
    assert!(rt; wire.dial("x").is_ok());
    assert!(rt; wire.send(b"lost").is_err());
    assert!(rt; wire.send(b"asked").is_ok());
    assert!(rt; wire.sent() == b"asked".as_slice());
    assert!(rt; wire.dial("x").is_ok());
    assert!(rt; wire.sent().is_empty());
    assert!(rt; wire.starved() == 0);
    Ok(())
}

#[test]
fn mem_wire_receives_what_its_device_says(rt: HostRuntime) -> Result<(), Fail> {
    let mut wire = wire_to_x(rt.alloc())?;
    let mut buf = [0; 8];
    assert!(rt; wire.dial("x").is_ok());
    assert!(rt; wire.receive(&mut buf) == Ok(4));
    assert!(rt; wire.receive(&mut buf) == Ok(3));
    assert!(rt; buf.starts_with(b"ied"));
    assert!(rt; wire.receive(&mut buf).is_err());
    assert!(rt; wire.receive(&mut buf) == Ok(0));
    Ok(())
}
