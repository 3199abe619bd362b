//! `ready` means that one can connect: a client that does so while it is written is served.

use crate::tcp::{HOME, serve_at, took_leave};
use edge_traits::{Sent, Sink};
use std::alloc::Global;
use std::io::{Read, Write};
use std::net::{Net, TcpListener, TcpStream};
use std::test::Fail;

const PORT: u16 = 50_733;

/// A sink: while the first bytes are written to it a client connects, who comes in as a guest and quits. Where it can't
/// connect, the write runs out of memory, so that serving ends.
#[derive(Drop)]
struct Caller<'a, R: Net<Listener = TcpListener, Stream = TcpStream>> {
    rt: &'a R,
    client: Option<TcpStream>,
}

impl<R: Net<Listener = TcpListener, Stream = TcpStream>> Sink for Caller<'_, R> {
    ghost use Rattle.std.specs.Prelude.{None};

    ghost written = { λ _. None };

    ghost faults = { λ _. 0 };

    fn write(&mut self, _bytes: &[u8]) -> Sent {
        if self.client.is_none() {
            self.client = guest(self.rt);
        }
        if self.client.is_some() {
            Sent::All
        } else {
            Sent::Memory
        }
    }
}

/// A client that has connected at once and said all that it says.
fn guest<R: Net<Listener = TcpListener, Stream = TcpStream>>(rt: &R) -> Option<TcpStream> {
    let mut stream = TcpStream::connect(rt, (HOME, PORT)).ok()?;
    stream.write_all(b"guest\nquit\n").ok()?;
    Some(stream)
}

/// All that the client was sent, if it has connected.
fn heard_by(alloc: Global, client: Option<TcpStream>) -> Option<Vec<u8>> {
    let mut heard = Vec::new(alloc);
    client?.read_to_end(&mut heard).ok()?;
    Some(heard)
}

#[test]
fn who_connects_on_ready_is_served(rt: HostRuntime) -> Result<(), Fail> {
    let alloc = rt.alloc();
    let mut caller = Caller {
        rt: &rt,
        client: None,
    };
    let status = serve_at(&rt, alloc, PORT, 1, &mut caller);
    assert!(rt; status == Some(0));
    let heard = heard_by(alloc, caller.client);
    assert!(rt; heard.is_some_and(|heard| took_leave(heard.as_slice())));
    Ok(())
}
