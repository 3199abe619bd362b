//! What a server doesn't put off until the door closes: links that ended come back, and orders are carried out.

ghost use Rattle.std.specs.Prelude.{None};

use crate::held_stage::say;
use crate::words::words_of;
use edge_traits::{
    CallLog, Came, Doorway, Heard, Keeper, KeeperFail, Kept, Link, OpenGate, Pair, Request, Sent,
    StillClock,
};
use memory_edges::MemSink;
use serve_call::serve;
use std::alloc::Global;
use std::sync::atomic::{AtomicBool, Ordering};
use std::test::Fail;
use std::thread;

/// The most Quiets for which the door waits.
const MOST_QUIETS: u64 = 1_000_000;

/// What a player says who makes an account, which is an order to save it.
const LINES: &[&[u8]] = &[b"Ann\n", b"register abc\n", b"quit\n"];

/// What was done while the door was open.
#[derive(Drop)]
struct Seen {
    back: AtomicBool,
    kept: AtomicBool,
}

impl Seen {
    fn is_all(&self) -> bool {
        self.back.load(Ordering::SeqCst) && self.kept.load(Ordering::SeqCst)
    }
}

/// A link over which a player says the lines.
#[derive(Drop)]
struct Player {
    said: usize,
}

impl Link for Player {
    ghost use Rattle.std.specs.Prelude.{None};

    ghost tale = { λ _. None };

    ghost faults = { λ _. 0 };

    fn read(&mut self, buf: &mut [u8]) -> Heard {
        let Some(line) = LINES.get(self.said) else {
            return Heard::End;
        };
        self.said = self.said.saturating_add(1);
        say(line, buf)
    }

    fn write(&mut self, _bytes: &[u8]) -> Sent {
        Sent::All
    }

    fn close(&mut self) {}
}

/// A door that gives one link, and is closed once that one came back and the order was carried out, or so many Quiets
/// were given.
#[derive(Drop)]
struct Patient<'a> {
    link: Option<Player>,
    seen: &'a Seen,
    quiets: u64,
}

impl Doorway for Patient<'_> {
    ghost use Rattle.std.specs.Prelude.{None};

    type Link = Player;

    ghost tale = { λ _. None };

    ghost faults = { λ _. 0 };

    fn next(&mut self) -> Came<Player> {
        if let Some(link) = self.link.take() {
            return Came::Link(link);
        }
        if self.seen.is_all() || self.quiets == MOST_QUIETS {
            return Came::Closed;
        }
        self.quiets = self.quiets.saturating_add(1);
        thread::yield_now();
        Came::Quiet
    }

    fn back(&mut self, _number: u64, link: Player) {
        drop(link);
        self.seen.back.store(true, Ordering::SeqCst);
    }
}

/// A keeper that holds nothing, and tells by a flag that a record was put.
#[derive(Drop)]
struct Noting<'a> {
    alloc: Global,
    seen: &'a Seen,
    calls: CallLog,
}

impl Keeper for Noting<'_> {
    ghost use Rattle.std.specs.Prelude.{None};

    ghost table = { λ _. None };

    ghost faults = { λ _. 0 };

    ghost calls = { λ keeper. keeper.calls };

    fn put(&mut self, _key: &[u8], _bytes: &[u8]) -> Kept {
        self.seen.kept.store(true, Ordering::SeqCst);
        self.calls.note(Request::Put, Kept::Done)
    }

    fn remove(&mut self, _key: &[u8]) -> Kept {
        self.calls.note(Request::Remove, Kept::Done)
    }

    fn load(&mut self) -> Result<Vec<Pair>, KeeperFail> {
        self.calls.note(Request::Load, Kept::Done);
        Ok(Vec::new(self.alloc))
    }
}

#[test]
fn nothing_is_put_off_until_the_door_closes(rt: HostRuntime) -> Result<(), Fail> {
    let alloc = rt.alloc();
    let seen = Seen {
        back: AtomicBool::new(false),
        kept: AtomicBool::new(false),
    };
    let mut door = Patient {
        link: Some(Player { said: 0 }),
        seen: &seen,
        quiets: 0,
    };
    let mut keeper = Noting {
        alloc,
        seen: &seen,
        calls: CallLog::new(),
    };
    let mut sink = MemSink::new(alloc, Vec::new(alloc));
    let clock = StillClock::new(0);
    let gate = OpenGate::new();
    let words = words_of(alloc, &["serve", "--port", "5000"])?;
    let (status, _hall) = serve(
        &rt,
        alloc,
        words.as_slice(),
        &mut door,
        &clock,
        &mut keeper,
        &mut sink,
        &gate,
    );
    assert!(rt; status == 0);
    assert!(rt; door.quiets < MOST_QUIETS);
    Ok(())
}
