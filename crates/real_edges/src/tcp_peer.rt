//! A connection over TCP.

use crate::pace::Pace;
use edge_traits::{Heard, Link, Sent};
use std::io::{self, ErrorKind, Read, Write};
use std::net::{Shutdown, TcpStream};
use std::time::Duration;

/// How long a write waits for a client that doesn't read, before it is a fault of this connection.
const PATIENCE_SECONDS: u64 = 10;

/// A connection over TCP, made by `TcpDoor`. A read answers Quiet after 100 ms without bytes, and sooner where its
/// player may be awaiting something, by the pause of `Pace`. A write that waits for more than 10 s is a fault. What
/// comes over the connection isn't told.
#[derive(Drop)]
pub struct TcpPeer {
    stream: TcpStream,
    faults: u64,
    pace: Pace,
}

impl TcpPeer {
    ghost use Rattle.std.specs.Prelude.{◌≡◌, ◌+◌, ◌-◌, ◌^◌, ◌≤◌, min, IfOk};

    /// A connection that was accepted just now; none where its time limits can't be set.
    pub(crate) fn new(stream: TcpStream) -> io::Result<TcpPeer>
        ensures { IfOk result (λ peer. peer.faults ≡ 0) }
    {
        stream.set_nodelay(true)?;
        let pace = Pace::new();
        stream.set_read_timeout(Some(Duration::from_millis(pace.millis())))?;
        stream.set_write_timeout(Some(Duration::from_secs(PATIENCE_SECONDS)))?;
        Ok(TcpPeer {
            stream,
            faults: 0,
            pace,
        })
    }

    /// Reads at this pace from now on. Only where the pause changes is the system asked; where it refuses, reads go on
    /// with the pause that they had.
    fn keep_to(&mut self, pace: Pace)
        ensures { self.new.faults ≡ self.old.faults }
    {
        let millis = pace.millis();
        if millis != self.pace.millis()
            && self
                .stream
                .set_read_timeout(Some(Duration::from_millis(millis)))
                .is_err()
        {
            return;
        }
        self.pace = pace;
    }

    /// Counts a fault.
    fn fault(&mut self)
        ensures counted { self.old.faults ≤ self.new.faults }
        ensures rose { self.new.faults ≡ min (self.old.faults + 1) (2 ^ 64 - 1) }
    {
        self.faults = self.faults.saturating_add(1);
    }
}

impl Link for TcpPeer {
    ghost use Rattle.std.specs.Prelude.{None};

    ghost tale = { λ _. None };

    ghost faults = { λ peer. peer.faults };

    fn read(&mut self, buf: &mut [u8]) -> Heard {
        match self.stream.read(buf) {
            Ok(0) => Heard::End,
            Ok(n) => {
                self.keep_to(self.pace.heard());
                Heard::Bytes(n)
            }
            Err(error) if is_pause(error.kind()) => {
                self.keep_to(self.pace.paused());
                Heard::Quiet
            }
            Err(_) => {
                self.fault();
                Heard::Failed
            }
        }
    }

    fn write(&mut self, bytes: &[u8]) -> Sent {
        match self.stream.write_all(bytes) {
            Ok(()) => {
                self.keep_to(self.pace.told());
                Sent::All
            }
            Err(_) => {
                self.fault();
                Sent::Failed
            }
        }
    }

    /// Tells the client that nothing more comes. A connection that is gone already stays so.
    fn close(&mut self) {
        let _gone = self.stream.shutdown(Shutdown::Both);
    }
}

/// Whether an error says only that nothing came within the pause.
pub(crate) fn is_pause(kind: ErrorKind) -> bool {
    matches!(
        kind,
        ErrorKind::WouldBlock | ErrorKind::TimedOut | ErrorKind::Interrupted
    )
}
