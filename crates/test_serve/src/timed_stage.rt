//! A stage on which players say their lines one after the other, each at its moment, and the clock that shows it.

use crate::held_stage::say;
use edge_traits::{Came, Clock, Doorway, Heard, Link, Sent};
use std::alloc::Global;
use std::sync::atomic::{AtomicU64, Ordering};
use std::thread;

/// For how many turns a line is waited for that has to come.
const MOST_WAITS: u64 = 1 << 40;

/// A line: the session that says it, at which moment, and what it says. The next one is said once it is answered.
#[derive(Clone, Copy)]
pub struct Said(pub u32, pub u64, pub &'static [u8]);

/// What the threads of the test tell each other.
#[derive(Drop)]
pub struct Stage {
    lines: &'static [Said],
    /// The number of the line that comes next.
    next: AtomicU64,
    /// The moment of the line that was said last.
    moment: AtomicU64,
}

impl Stage {
    /// A stage on which nothing was said yet, at moment 0.
    pub fn new(lines: &'static [Said]) -> Stage {
        Stage {
            lines,
            next: AtomicU64::new(0),
            moment: AtomicU64::new(0),
        }
    }

    /// The line that comes next, with its number.
    fn line(&self) -> Option<(u64, Said)> {
        let number = self.next.load(Ordering::SeqCst);
        let line = *self.lines.get(usize::try_from(number).ok()?)?;
        Some((number, line))
    }

    /// Whether all lines were said and answered.
    pub fn is_over(&self) -> bool {
        self.line().is_none()
    }
}

/// The clock shows the moment of the line that was said last.
impl Clock for Stage {
    ghost use Rattle.std.specs.Prelude.{true};

    ghost shows = { λ clock moment. true };

    fn now(&self) -> u64 {
        self.moment.load(Ordering::SeqCst)
    }
}

/// A link over which a player says the lines of a session, and which keeps what it is written.
#[derive(Drop)]
pub struct Player<'a> {
    stage: &'a Stage,
    session: u32,
    /// The number of the line that was said and isn't answered yet.
    said: Option<u64>,
    heard: Vec<u8>,
}

impl Link for Player<'_> {
    ghost use Rattle.std.specs.Prelude.{None};

    ghost tale = { λ _. None };

    ghost faults = { λ _. 0 };

    /// Waits for the session's next line, and says it at its moment; the end comes once all lines were said.
    fn read(&mut self, buf: &mut [u8]) -> Heard {
        for _ in 0..MOST_WAITS {
            let Some((number, line)) = self.stage.line() else {
                return Heard::End;
            };
            if line.0 == self.session && self.said.is_none() {
                self.stage.moment.store(line.1, Ordering::SeqCst);
                self.said = Some(number);
                return say(line.2, buf);
            }
            thread::yield_now();
        }
        Heard::End
    }

    fn write(&mut self, bytes: &[u8]) -> Sent {
        if self.heard.extend_from_slice(bytes).is_err() {
            return Sent::Memory;
        }
        if let Some(number) = self.said.take() {
            self.stage
                .next
                .store(number.wrapping_add(1), Ordering::SeqCst);
        }
        Sent::All
    }

    fn close(&mut self) {}
}

/// A door that gives a link for each of so many players, six at most, and is then closed. It gives no Quiet, so the
/// steward makes no act before the last turn.
#[derive(Drop)]
pub struct Players<'a> {
    alloc: Global,
    stage: &'a Stage,
    count: u32,
    came: u32,
    /// What each of them was written, once it came back.
    pub heard: [Option<Vec<u8>>; 6],
}

impl<'a> Players<'a> {
    /// The door before its first link.
    pub fn new(alloc: Global, stage: &'a Stage, count: u32) -> Players<'a> {
        Players {
            alloc,
            stage,
            count,
            came: 0,
            heard: [None, None, None, None, None, None],
        }
    }
}

impl<'a> Doorway for Players<'a> {
    ghost use Rattle.std.specs.Prelude.{None};

    type Link = Player<'a>;

    ghost tale = { λ _. None };

    ghost faults = { λ _. 0 };

    fn next(&mut self) -> Came<Player<'a>> {
        if self.came >= self.count {
            return Came::Closed;
        }
        self.came = self.came.saturating_add(1);
        Came::Link(Player {
            stage: self.stage,
            session: self.came,
            said: None,
            heard: Vec::new(self.alloc),
        })
    }

    fn back(&mut self, number: u64, link: Player<'a>) {
        let Player { heard, .. } = link;
        for (place, kept) in self.heard.iter_mut().enumerate() {
            if number == place as u64 + 1 {
                *kept = Some(heard);
                return;
            }
        }
    }
}
