//! Guests over TCP, each in a thread of its own.

use crate::words::words_of;
use edge_traits::{OpenGate, Sink};
use memory_edges::{MemKeeper, MemSink};
use real_edges::{TcpDoor, WallClock};
use serve_call::serve;
use std::alloc::Global;
use std::io::{self, ErrorKind, Read, Write};
use std::net::{Net, TcpListener, TcpStream};
use std::sync::Wait;
use std::test::Fail;
use std::thread::{self, Threads};
use std::time::{Clock, Duration};

pub const HOME: &str = "127.0.0.1";

const PORT: u16 = 50_731;

/// The port of the guests of whom the second comes once the first was greeted.
const NEXT_PORT: u16 = 50_735;

/// How often a client tries to connect, and for how long it rests between two tries.
const MOST_TRIES: u32 = 200;

const REST_MILLIS: u64 = 50;

/// Serves so many connections at this port, by the words that ask for it. The status.
pub fn serve_at<T, K>(rt: &T, alloc: Global, port: u16, count: u64, sink: &mut K) -> Option<u8>
where
    T: Net<Listener = TcpListener, Stream = TcpStream> + Clock + Threads + Wait + Sync,
    K: Sink,
{
    let at = format!(in alloc; "{port}").ok()?;
    let times = format!(in alloc; "{count}").ok()?;
    let words = ["serve", "--port", at.as_str(), "--count", times.as_str()];
    let words = words_of(alloc, &words).ok()?;
    let mut door = TcpDoor::new(rt, HOME, port, Some(count));
    let clock = WallClock::new(rt);
    let gate = OpenGate::new();
    let mut keeper = MemKeeper::new(alloc, Vec::new(alloc));
    let (status, _hall) = serve(
        rt,
        alloc,
        words.as_slice(),
        &mut door,
        &clock,
        &mut keeper,
        sink,
        &gate,
    );
    Some(status)
}

/// Connects, once the server listens.
fn connect<T>(rt: &T, port: u16) -> io::Result<TcpStream>
where
    T: Net<Listener = TcpListener, Stream = TcpStream> + Clock,
{
    for _ in 0..MOST_TRIES {
        match TcpStream::connect(rt, (HOME, port)) {
            Ok(stream) => return Ok(stream),
            Err(error) if error.kind() == ErrorKind::ConnectionRefused => {
                rt.sleep(Duration::from_millis(REST_MILLIS));
            }
            Err(error) => return Err(error),
        }
    }
    Err(io::Error::from(ErrorKind::TimedOut))
}

/// Comes in as a guest and quits. All that the client is sent.
fn guest<T>(rt: &T, alloc: Global) -> Option<Vec<u8>>
where
    T: Net<Listener = TcpListener, Stream = TcpStream> + Clock,
{
    quitting(alloc, connect(rt, PORT).ok()?)
}

/// One guest waits for a byte of the greeting before another comes, and both quit then. All that each is sent.
fn one_after_the_other<T>(rt: &T, alloc: Global) -> Option<(Vec<u8>, Vec<u8>)>
where
    T: Net<Listener = TcpListener, Stream = TcpStream> + Clock,
{
    let mut first = connect(rt, NEXT_PORT).ok()?;
    let mut greeting = [0; 1];
    first.read_exact(&mut greeting).ok()?;
    let second = connect(rt, NEXT_PORT).ok()?;
    Some((quitting(alloc, first)?, quitting(alloc, second)?))
}

/// Comes in as a guest over this connection and quits. All that is sent from then on.
fn quitting(alloc: Global, mut stream: TcpStream) -> Option<Vec<u8>> {
    stream.write_all(b"guest\nquit\n").ok()?;
    let mut heard = Vec::new(alloc);
    stream.read_to_end(&mut heard).ok()?;
    Some(heard)
}

/// Whether the server took its leave.
pub fn took_leave(heard: &[u8]) -> bool {
    heard.ends_with(b"Goodbye.\n\r")
}

#[test]
fn guests_over_tcp(rt: HostRuntime) -> Result<(), Fail> {
    let alloc = rt.alloc();
    let mut sink = MemSink::new(alloc, Vec::new(alloc));
    let (status, (one, two)) = thread::join(
        &rt,
        || serve_at(&rt, alloc, PORT, 2, &mut sink),
        || thread::join(&rt, || guest(&rt, alloc), || guest(&rt, alloc)),
    );
    assert!(rt; status == Some(0));
    assert!(rt; one.is_some_and(|heard| took_leave(heard.as_slice())));
    assert!(rt; two.is_some_and(|heard| took_leave(heard.as_slice())));
    Ok(())
}

/// The door waits for a second connection, which comes only once the first one was greeted.
#[test]
fn greeted_over_tcp_before_the_door_closes(rt: HostRuntime) -> Result<(), Fail> {
    let alloc = rt.alloc();
    let mut sink = MemSink::new(alloc, Vec::new(alloc));
    let (status, heard) = thread::join(
        &rt,
        || serve_at(&rt, alloc, NEXT_PORT, 2, &mut sink),
        || one_after_the_other(&rt, alloc),
    );
    assert!(rt; status == Some(0));
    assert!(rt;
        heard.is_some_and(|both| took_leave(both.0.as_slice()) && took_leave(both.1.as_slice()))
    );
    Ok(())
}
