//! A stage on which players say the lines of a play one after the other, and its gate, which holds a worker at desk 1.

ghost use Rattle.std.specs.Prelude.{◌<◌, ◌≤◌, length};
ghost use Rattle.edge_traits.specs.Faults.{Rose};
ghost use Rattle.edge_traits.specs.Link.{IfHeard, OnHearFailed};

use crate::held_plays::{Cue, Play, Then};
use edge_traits::{Gate, Heard, Link, Sent};
use std::alloc::Global;
use std::sync::atomic::{AtomicU64, Ordering};
use std::thread;

/// How many turns the test gives the other players while the worker is held.
const TURNS: u64 = 1_000_000;

/// In how many of these turns, once the move was answered, the processor is given up once.
const STRIDE: u64 = 1_024;

/// For how many turns anything is waited for that has to come.
const MOST_WAITS: u64 = 1 << 40;

/// What was seen of the lines while the worker was held, and afterwards.
#[derive(Clone, Copy, PartialEq, Eq)]
pub struct Seen {
    /// Whether the last line was answered while the worker was held.
    pub moved: bool,
    /// How many lines were answered when the turns were over.
    pub held: u64,
    /// How many were answered in the end.
    pub whole: u64,
    /// How often the steward had a part in its hands while the worker was held.
    pub steward: u64,
}

/// What the threads of the test tell each other.
#[derive(Drop)]
pub struct Stage {
    pub play: &'static Play,
    /// The number of the cue that comes next.
    next: AtomicU64,
    /// How many lines were answered.
    answered: AtomicU64,
    /// How often the steward had a part in its hands while the worker was held.
    steward: AtomicU64,
    /// 1 once the gate is open.
    open: AtomicU64,
    /// 1 once all is said and answered.
    over: AtomicU64,
}

impl Stage {
    pub fn new(play: &'static Play) -> Stage {
        Stage {
            play,
            next: AtomicU64::new(0),
            answered: AtomicU64::new(0),
            steward: AtomicU64::new(0),
            open: AtomicU64::new(0),
            over: AtomicU64::new(0),
        }
    }

    /// Waits until the worker is held, lets the turns pass, opens the gate, and waits for the answers that were held
    /// up.
    pub fn watch(&self) -> Seen {
        wait_for(&self.next, self.play.held.saturating_add(1));
        let moved = self.pass_turns();
        let held = self.answered.load(Ordering::SeqCst);
        let steward = self.steward.load(Ordering::SeqCst);
        self.open.store(1, Ordering::SeqCst);
        wait_for(&self.answered, self.play.lines());
        let whole = self.answered.load(Ordering::SeqCst);
        self.over.store(1, Ordering::SeqCst);
        Seen {
            moved,
            held,
            whole,
            steward,
        }
    }

    /// Lets the turns pass, and tells whether the last line was answered meanwhile.
    fn pass_turns(&self) -> bool {
        let mut moved = false;
        for turn in 0..TURNS {
            if !moved || turn % STRIDE == 0 {
                thread::yield_now();
            }
            moved = moved || self.next.load(Ordering::SeqCst) == self.play.lines();
        }
        moved
    }

    /// The cue that comes next, with its number, if this session is to say it.
    fn cue_of(&self, session: u32) -> Option<(u64, Cue)> {
        let number = self.next.load(Ordering::SeqCst);
        let cue = *self.play.cues.get(usize::try_from(number).ok()?)?;
        (cue.0 == session).then_some((number, cue))
    }

    /// Whether the worker is held.
    fn is_holding(&self) -> bool {
        self.next.load(Ordering::SeqCst) > self.play.held && self.open.load(Ordering::SeqCst) == 0
    }

    /// Goes on behind this cue, if it is the one after which this is waited for.
    fn came(&self, number: u64, cue: Cue, then: Then) {
        if cue.2 == then {
            self.next.store(number.wrapping_add(1), Ordering::SeqCst);
        }
    }
}

/// Waits until a number is at least this.
fn wait_for(number: &AtomicU64, least: u64) {
    for _ in 0..MOST_WAITS {
        if number.load(Ordering::SeqCst) >= least {
            return;
        }
        thread::yield_now();
    }
}

/// The gate holds the session whose worker is to be held, once desk 1 has come out for it, until it is open. Meanwhile
/// it counts the parts that come out for the steward, whose session is 0.
impl Gate for Stage {
    fn at(&self, session: u32, part: u8) {
        if session == 0 && self.is_holding() {
            self.steward.fetch_add(1, Ordering::SeqCst);
        }
        if part != 1 {
            return;
        }
        if let Some((number, cue)) = self.cue_of(session) {
            if cue.2 == Then::Held {
                self.came(number, cue, Then::Held);
                wait_for(&self.open, 1);
            }
        }
    }
}

/// A link over which a player says the lines of a session, and which keeps what it is written.
#[derive(Drop)]
pub struct Player<'a> {
    stage: &'a Stage,
    session: u32,
    /// The cue that was said and isn't answered yet.
    said: Option<(u64, Cue)>,
    pub heard: Vec<u8>,
}

impl<'a> Player<'a> {
    pub fn new(stage: &'a Stage, session: u32, alloc: Global) -> Player<'a> {
        Player {
            stage,
            session,
            said: None,
            heard: Vec::new(alloc),
        }
    }
}

impl Link for Player<'_> {
    ghost use Rattle.std.specs.Prelude.{None};

    ghost tale = { λ _. None };

    ghost faults = { λ _. 0 };

    /// Waits for the session's next cue, or for the end.
    fn read(&mut self, buf: &mut [u8]) -> Heard {
        for _ in 0..MOST_WAITS {
            if self.stage.over.load(Ordering::SeqCst) == 1 {
                return Heard::End;
            }
            if let Some((number, cue)) = self.stage.cue_of(self.session) {
                self.said = Some((number, cue));
                let heard = say(cue.1, buf);
                self.stage.came(number, cue, Then::Read);
                return heard;
            }
            thread::yield_now();
        }
        Heard::End
    }

    fn write(&mut self, bytes: &[u8]) -> Sent {
        if self.heard.extend_from_slice(bytes).is_err() {
            return Sent::Memory;
        }
        if let Some((number, cue)) = self.said.take() {
            self.stage.answered.fetch_add(1, Ordering::SeqCst);
            self.stage.came(number, cue, Then::Answered);
        }
        Sent::All
    }

    fn close(&mut self) {}
}

/// Puts a line into the buffer.
pub fn say(line: &[u8], buf: &mut [u8]) -> Heard
    ensures count { IfHeard result (λ n. (0 < n) × (n ≤ length buf.new)) }
    ensures cause { OnHearFailed result (Rose 0 0) }
{
    let count = line.len().min(buf.len());
    if count == 0 {
        return Heard::End;
    }
    buf[..count].copy_from_slice(&line[..count]);
    Heard::Bytes(count)
}
