//! A door that gives one link and then waits, by Quiets, until that link's greeting was written.

ghost use Rattle.std.specs.Prelude.{None};

use crate::held_stage::say;
use crate::words::words_of;
use edge_traits::{Came, Doorway, Heard, Link, OpenGate, Sent, StillClock};
use memory_edges::{MemKeeper, MemSink};
use serve_call::serve;
use std::alloc::Global;
use std::sync::Arc;
use std::sync::atomic::{AtomicBool, Ordering};
use std::test::Fail;
use std::thread;

/// The most Quiets for which the door waits.
const MOST_QUIETS: u64 = 1_000_000;

/// A link over which a guest comes in and quits, which tells by a flag that something was written to it.
#[derive(Drop)]
struct Guest {
    greeted: Arc<AtomicBool, Global>,
    /// How many lines were said.
    said: u8,
}

impl Link for Guest {
    ghost use Rattle.std.specs.Prelude.{None};

    ghost tale = { λ _. None };

    ghost faults = { λ _. 0 };

    fn read(&mut self, buf: &mut [u8]) -> Heard {
        let said = self.said;
        self.said = said.saturating_add(1);
        match said {
            0 => say(b"guest\n", buf),
            1 => say(b"quit\n", buf),
            _ => Heard::End,
        }
    }

    fn write(&mut self, _bytes: &[u8]) -> Sent {
        self.greeted.store(true, Ordering::SeqCst);
        Sent::All
    }

    fn close(&mut self) {}
}

/// A door that gives one link, and is closed once that link was greeted or so many Quiets were given.
#[derive(Drop)]
struct Waiting {
    link: Option<Guest>,
    greeted: Arc<AtomicBool, Global>,
    quiets: u64,
}

impl Doorway for Waiting {
    ghost use Rattle.std.specs.Prelude.{None};

    type Link = Guest;

    ghost tale = { λ _. None };

    ghost faults = { λ _. 0 };

    fn next(&mut self) -> Came<Guest> {
        if let Some(link) = self.link.take() {
            return Came::Link(link);
        }
        if self.greeted.load(Ordering::SeqCst) || self.quiets == MOST_QUIETS {
            return Came::Closed;
        }
        self.quiets = self.quiets.saturating_add(1);
        thread::yield_now();
        Came::Quiet
    }

    fn back(&mut self, _number: u64, link: Guest) {
        drop(link);
    }
}

#[test]
fn greeted_before_the_door_closes(rt: HostRuntime) -> Result<(), Fail> {
    let alloc = rt.alloc();
    let greeted = Arc::new(alloc, AtomicBool::new(false))?;
    let mut door = Waiting {
        link: Some(Guest {
            greeted: Arc::try_clone(&greeted)?,
            said: 0,
        }),
        greeted,
        quiets: 0,
    };
    let mut keeper = MemKeeper::new(alloc, Vec::new(alloc));
    let mut sink = MemSink::new(alloc, Vec::new(alloc));
    let clock = StillClock::new(0);
    let gate = OpenGate::new();
    let words = words_of(alloc, &["serve", "--port", "5000"])?;
    let (status, _hall) = serve(
        &rt,
        alloc,
        words.as_slice(),
        &mut door,
        &clock,
        &mut keeper,
        &mut sink,
        &gate,
    );
    assert!(rt; status == 0);
    assert!(rt; door.quiets < MOST_QUIETS);
    Ok(())
}
