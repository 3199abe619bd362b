//! The adapters over streams, sockets and the system's clock, one by one.

use edge_traits::{Came, Clock, Doorway, Got, Heard, Link, Sent, Sink, Source};
use real_edges::{StdSink, StdSource, TcpDoor, WallClock};
use std::io::{Read, Write};
use std::net::TcpStream;
use std::test::Fail;

const HOME: &str = "127.0.0.1";

const PORT: u16 = 50_732;

/// A port that two doors want.
const TAKEN: u16 = 50_734;

#[test]
fn streams_and_a_clock(rt: HostRuntime) -> Result<(), Fail> {
    let mut source = StdSource::new(b"abc".as_slice());
    let mut buf = [0; 2];
    assert!(rt; source.read(&mut buf) == Got::Bytes(2));
    assert!(rt; source.read(&mut buf) == Got::Bytes(1));
    assert!(rt; source.read(&mut buf) == Got::End);
    let mut sink = StdSink::new(Vec::new(rt.alloc()));
    assert!(rt; sink.write(b"ready\n") == Sent::All);
    let clock = WallClock::new(&rt);
    let first = clock.now();
    let second = clock.now();
    assert!(rt; first <= second);
    assert!(rt; second < 60_000);
    Ok(())
}

#[test]
fn a_door_on_a_port(rt: HostRuntime) -> Result<(), Fail> {
    let mut door = TcpDoor::new(&rt, HOME, PORT, Some(1));
    let mut client = TcpStream::connect(&rt, (HOME, PORT))?;
    let mut came = door.next();
    if matches!(came, Came::Quiet) {
        came = door.next();
    }
    let Came::Link(mut peer) = came else {
        return Err("no link".into());
    };
    let mut buf = [0; 8];
    assert!(rt; peer.read(&mut buf) == Heard::Quiet);
    client.write_all(b"hi")?;
    assert!(rt; peer.read(&mut buf) == Heard::Bytes(2));
    assert_eq!(rt; &buf[..2], b"hi".as_slice());
    assert!(rt; peer.write(b"ho") == Sent::All);
    peer.close();
    let mut heard = Vec::new(rt.alloc());
    client.read_to_end(&mut heard)?;
    assert_eq!(rt; heard.as_slice(), b"ho".as_slice());
    assert!(rt; peer.read(&mut buf) == Heard::End);
    door.back(1, peer);
    assert!(rt; matches!(door.next(), Came::Closed));
    Ok(())
}

#[test]
fn a_port_that_is_taken(rt: HostRuntime) -> Result<(), Fail> {
    let mut first = TcpDoor::new(&rt, HOME, TAKEN, None);
    let mut second = TcpDoor::new(&rt, HOME, TAKEN, None);
    assert!(rt; matches!(second.next(), Came::Failed));
    assert!(rt; matches!(first.next(), Came::Quiet));
    Ok(())
}
