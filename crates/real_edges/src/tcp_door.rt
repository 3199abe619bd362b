//! A door on a TCP port.

use crate::tcp_peer::{TcpPeer, is_pause};
use edge_traits::{Came, Doorway};
use std::io::{self, ErrorKind};
use std::net::{Net, TcpListener, TcpStream};
use std::os::fd::OwnedFd;
use std::time::{Clock, Duration};

/// How long `next` waits for a connection before it answers Quiet, and for how long connections may come without one.
const PAUSE_MILLIS: u64 = 100;

/// How long it rests where the system can't give a connection, as for want of descriptors.
const REST_MILLIS: u64 = 10;

/// A door on a TCP port of an address. It listens from the moment when it is made, so whoever connects from then on
/// waits for a `next`; where it can't listen, each `next` fails, unless no connection may come. It answers Quiet after
/// 100 ms without a connection and at least that often while connections come. Where a count is given it takes so many
/// connections, answers Quiet as long as one of them is out, and is closed then. A connection that is handed back is
/// dropped. What comes isn't told.
#[derive(Drop)]
pub struct TcpDoor<'a, R: Net<Listener = TcpListener, Stream = TcpStream> + Clock> {
    rt: &'a R,
    /// How many connections may still come; none for ever.
    left: Option<u64>,
    /// How many connections were given and not handed back.
    out: u64,
    /// None where the port of that address couldn't be had.
    listener: Option<TcpListener>,
    /// When the first `next` behind the last Quiet began, by the system's clock; none where there was none yet. What is
    /// done at a Quiet may take longer than the pause, and connections are to be taken all the same.
    since: Option<Duration>,
    faults: u64,
}

impl<'a, R: Net<Listener = TcpListener, Stream = TcpStream> + Clock> TcpDoor<'a, R> {
    ghost use Rattle.std.specs.Prelude.{◌≡◌, ◌+◌, ◌-◌, ◌^◌, ◌≤◌, min};

    /// A door that listens on this port of this address, for so many connections, where a count is given. That it can't
    /// listen there is told by its first `next`.
    pub fn new(rt: &'a R, bind: &str, port: u16, count: Option<u64>) -> TcpDoor<'a, R> {
        TcpDoor {
            rt,
            left: count,
            out: 0,
            listener: listen(rt, bind, port).ok(),
            since: None,
            faults: 0,
        }
    }

    /// Answers Quiet.
    fn rest(&mut self) -> Came<TcpPeer>
        ensures quiet { result ≡ Came.Quiet }
        ensures faults { self.new.faults ≡ self.old.faults }
    {
        self.since = None;
        Came::Quiet
    }

    /// Answers a fault.
    fn fail(&mut self) -> Came<TcpPeer>
        ensures failed { result ≡ Came.Failed }
        ensures counted { self.old.faults ≤ self.new.faults }
        ensures faults { self.new.faults ≡ min (self.old.faults + 1) (2 ^ 64 - 1) }
    {
        self.faults = self.faults.saturating_add(1);
        Came::Failed
    }

    /// Whether connections have come for as long as they may without a Quiet.
    fn is_quiet_due(&mut self) -> bool
        ensures { self.new.faults ≡ self.old.faults }
    {
        let now = reading(self.rt);
        match self.since {
            Some(since) => now.saturating_sub(since) >= Duration::from_millis(PAUSE_MILLIS),
            None => {
                self.since = Some(now);
                false
            }
        }
    }
}

impl<R: Net<Listener = TcpListener, Stream = TcpStream> + Clock> Doorway for TcpDoor<'_, R> {
    ghost use Rattle.std.specs.Prelude.{None};

    type Link = TcpPeer;

    ghost tale = { λ _. None };

    ghost faults = { λ door. door.faults };

    fn next(&mut self) -> Came<TcpPeer> {
        if self.left == Some(0) {
            if self.out == 0 {
                return Came::Closed;
            }
            self.rt.sleep(Duration::from_millis(PAUSE_MILLIS));
            return self.rest();
        }
        if self.is_quiet_due() {
            return self.rest();
        }
        let Some(listener) = &self.listener else {
            return self.fail();
        };
        match listener.accept() {
            Ok((stream, _)) => match TcpPeer::new(stream) {
                Ok(peer) => {
                    self.left = self.left.map(|left| left.saturating_sub(1));
                    self.out = self.out.saturating_add(1);
                    Came::Link(peer)
                }
                Err(_) => self.rest(),
            },
            Err(error) if is_pause(error.kind()) => self.rest(),
            Err(error) if error.kind() == ErrorKind::InvalidInput => self.fail(),
            Err(_) => {
                self.rt.sleep(Duration::from_millis(REST_MILLIS));
                self.rest()
            }
        }
    }

    fn back(&mut self, _number: u64, link: TcpPeer) {
        self.out = self.out.saturating_sub(1);
        drop(link);
    }
}

/// A listener on this port of this address, which waits for a connection as long as the pause.
fn listen<R>(rt: &R, bind: &str, port: u16) -> io::Result<TcpListener>
where
    R: Net<Listener = TcpListener, Stream = TcpStream>,
{
    with_pause(TcpListener::bind(rt, (bind, port))?)
}

/// What the system's clock shows; nothing where it can't be read.
fn reading<R: Clock>(rt: &R) -> Duration {
    rt.monotonic().unwrap_or(Duration::ZERO)
}

/// The same listener, which waits for a connection as long as the pause. The option is that of a stream's reads, and
/// serves `accept` too.
fn with_pause(listener: TcpListener) -> io::Result<TcpListener> {
    let stream = TcpStream::from(OwnedFd::from(listener));
    stream.set_read_timeout(Some(Duration::from_millis(PAUSE_MILLIS)))?;
    Ok(TcpListener::from(OwnedFd::from(stream)))
}
