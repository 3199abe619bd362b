//! The last turn of the steward: it comes behind what the sessions do, so that a game which was adjourned as the door
//! closed is saved; and a fault of the keeper in an earlier turn is none of it.

use crate::held_stage::say;
use crate::timed_stage::{Players, Said, Stage};
use crate::words::words_of;
use edge_traits::{Came, Doorway, Heard, Link, OpenGate, Sent, StillClock};
use memory_edges::{MemKeeper, MemSink};
use serve_call::serve;
use std::alloc::{AllocError, Global};
use std::sync::Wait;
use std::test::Fail;
use std::thread::{self, Threads};

/// Ann and Ben play, and Cat looks on. The two adjourn, hear it and go. Cat, who hasn't heard it yet, looks on no longer
/// then, so that it is left to the steward to take the game off its desk. The door is closed from the start.
const LINES: &[Said] = &[
    Said(1, 100, b"Ann\n"),
    Said(2, 100, b"Ben\n"),
    Said(3, 100, b"Cat\n"),
    Said(1, 100, b"register abc\n"),
    Said(2, 100, b"register abc\n"),
    Said(1, 100, b"match ben 5 0 white\n"),
    Said(2, 100, b"accept\n"),
    Said(3, 100, b"observe 1\n"),
    Said(1, 1_000, b"e4\n"),
    Said(2, 2_000, b"e5\n"),
    Said(1, 3_000, b"adjourn\n"),
    Said(2, 4_000, b"accept\n"),
    Said(1, 5_000, b"quit\n"),
    Said(2, 5_000, b"quit\n"),
    Said(3, 5_000, b"unobserve 1\n"),
    Said(3, 6_000, b"quit\n"),
];

/// Whether the keeper holds two accounts and the game with number 1, and nothing else.
fn holds_the_game(keeper: &MemKeeper) -> bool {
    let keys: [&[u8]; 3] = [b"aann", b"aben", b"g\0\0\0\0\0\0\0\x01"];
    let pairs = keeper.pairs();
    pairs.len() == keys.len()
        && pairs
            .iter()
            .zip(keys)
            .all(|(pair, key)| pair.key.as_slice() == key)
}

/// Serves the three. Gives the status, and whether the keeper holds the game.
fn serve_three<T: Threads + Wait + Sync>(
    rt: &T,
    alloc: Global,
    stage: &Stage,
) -> Result<(u8, bool), AllocError> {
    let words = words_of(alloc, &["serve", "--port", "5000"])?;
    let mut door = Players::new(alloc, stage, 3);
    let mut keeper = MemKeeper::new(alloc, Vec::new(alloc));
    let mut sink = MemSink::new(alloc, Vec::new(alloc));
    let gate = OpenGate::new();
    let (status, _hall) = serve(
        rt,
        alloc,
        words.as_slice(),
        &mut door,
        stage,
        &mut keeper,
        &mut sink,
        &gate,
    );
    Ok((status, holds_the_game(&keeper)))
}

#[test]
fn a_game_adjourned_as_the_door_closed_is_saved(rt: HostRuntime) -> Result<(), Fail> {
    let stage = Stage::new(LINES);
    assert!(rt; serve_three(&rt, rt.alloc(), &stage)? == (0, true));
    assert!(rt; stage.is_over());
    Ok(())
}

/// A door that gives one link, Quiets until it came back and so many more, and is then closed.
#[derive(Drop)]
struct Calm {
    link: Option<Guest>,
    /// How many Quiets are to come once the link came back.
    behind: Option<u64>,
    quiets: u64,
}

/// The most Quiets for which the door waits.
const MOST_QUIETS: u64 = 1_000_000;

impl Doorway for Calm {
    ghost use Rattle.std.specs.Prelude.{None};

    type Link = Guest;

    ghost tale = { λ _. None };

    ghost faults = { λ _. 0 };

    fn next(&mut self) -> Came<Guest> {
        if let Some(link) = self.link.take() {
            return Came::Link(link);
        }
        if self.behind == Some(0) || self.quiets == MOST_QUIETS {
            return Came::Closed;
        }
        self.quiets = self.quiets.saturating_add(1);
        if let Some(behind) = self.behind {
            self.behind = Some(behind.saturating_sub(1));
        }
        thread::yield_now();
        Came::Quiet
    }

    fn back(&mut self, _number: u64, link: Guest) {
        drop(link);
        self.behind = Some(2);
    }
}

/// A link over which a player makes an account, which is an order to save it, and quits.
#[derive(Drop)]
struct Guest {
    said: usize,
}

/// What the player says.
const ACCOUNT: &[&[u8]] = &[b"Ann\n", b"register abc\n", b"quit\n"];

impl Link for Guest {
    ghost use Rattle.std.specs.Prelude.{None};

    ghost tale = { λ _. None };

    ghost faults = { λ _. 0 };

    fn read(&mut self, buf: &mut [u8]) -> Heard {
        let Some(line) = ACCOUNT.get(self.said) else {
            return Heard::End;
        };
        self.said = self.said.saturating_add(1);
        say(line, buf)
    }

    fn write(&mut self, _bytes: &[u8]) -> Sent {
        Sent::All
    }

    fn close(&mut self) {}
}

/// Serves the player over a keeper whose first put fails, which is that of a turn at a Quiet. Gives the status, and how
/// many records the keeper holds.
fn serve_calmly<T: Threads + Wait + Sync>(
    rt: &T,
    alloc: Global,
) -> Result<(u8, usize), AllocError> {
    let words = words_of(alloc, &["serve", "--port", "5000"])?;
    let mut door = Calm {
        link: Some(Guest { said: 0 }),
        behind: None,
        quiets: 0,
    };
    let mut keeper = MemKeeper::new(alloc, Vec::from_slice(alloc, &[1])?);
    let mut sink = MemSink::new(alloc, Vec::new(alloc));
    let clock = StillClock::new(0);
    let gate = OpenGate::new();
    let (status, _hall) = serve(
        rt,
        alloc,
        words.as_slice(),
        &mut door,
        &clock,
        &mut keeper,
        &mut sink,
        &gate,
    );
    Ok((status, keeper.pairs().len()))
}

#[test]
fn a_fault_of_an_earlier_turn_is_none_of_the_last(rt: HostRuntime) -> Result<(), Fail> {
    assert!(rt; serve_calmly(&rt, rt.alloc())? == (0, 1));
    Ok(())
}
