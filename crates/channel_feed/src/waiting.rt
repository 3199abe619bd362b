//! The lines that wait for a player.
ghost use Rattle.std.specs.Prelude.{◌≡◌, ◌<◌, IfOk, OnErr, OnOk, length, not};
ghost use Rattle.channel_feed.specs.Waiting.{is_full, nothing_waits, with_line_put, with_room, without_last};

use collections::{Listed, Reserved};
use fics_words::Line;
use memory::{Duplicate, NoMemory};
use std::alloc::Global;
use std::marker::Model;

/// The most lines that wait.
const MOST: usize = 512;

/// The lines that wait for a player, at most 512. Contracts see them with the oldest first, and for how many more there
/// is room that takes no memory.
#[derive(Drop)]
pub struct Waiting {
    lines: Reserved<Line>,
}

impl Model for Waiting {
    ghost use Rattle.channel_feed.specs.Waiting.{WaitingLines};

    ghost Value = { WaitingLines };

    ghost view = { λ waiting. waiting.lines };
}

impl Waiting {
    /// No lines; takes no memory.
    pub fn new(alloc: Global) -> Waiting
        ensures { result ≡ nothing_waits }
    {
        Waiting {
            lines: Reserved::new(alloc),
        }
    }

    /// The lines, the oldest first.
    pub fn lines(&self) -> &[Line]
        ensures { result.now ≡ self.now.items }
    {
        self.lines.as_slice()
    }

    /// Whether 512 lines wait, so that no more can.
    pub fn is_full(&self) -> bool
        ensures { result ≡ is_full self.now.items }
    {
        self.lines.len() >= MOST
    }

    /// Puts a line behind the others. False exactly where 512 lines wait; then nothing changes. Where there is room for
    /// the line this takes no memory, and doesn't run out of it.
    pub fn push(&mut self, line: Line) -> Result<bool, NoMemory>
        ensures pushed { IfOk result (λ pushed. pushed ≡ not (is_full self.old.items)) }
        ensures ok { OnOk result (self.new ≡ with_line_put line self.old) }
        ensures err { OnErr result (self.new ≡ self.old) }
        ensures no_room { OnErr result (self.old.room ≡ 0) }
        ensures no_refusal { OnErr result (length self.old.items < 512) }
    {
        if self.is_full() {
            return Ok(false);
        }
        if self.lines.room() == 0 {
            self.lines.reserve(1)?;
        }
        self.lines.push(line);
        Ok(true)
    }

    /// Makes room for one more line, beyond which a `push` takes no memory.
    pub fn reserve(&mut self) -> Result<(), NoMemory>
        ensures ok { OnOk result (self.new ≡ with_room self.old) }
        ensures err { OnErr result (self.new ≡ self.old) }
    {
        self.lines.reserve(1)
    }

    /// Takes back the line that was put last, if one waits. Takes no memory, and leaves the room as it is.
    pub fn take_back(&mut self)
        ensures { self.new ≡ record self.old { items = without_last self.old.items } }
    {
        let _line = self.lines.pop();
    }

    /// Takes all lines, in order, with their block; none wait afterwards, and there is no room. Takes no memory.
    pub fn take_all(&mut self) -> Listed<Line>
        ensures taken { result ≡ self.old.items }
        ensures emptied { self.new ≡ nothing_waits }
    {
        self.lines.take()
    }
}

impl Duplicate for Waiting {
    fn duplicate(&self) -> Result<Waiting, NoMemory> {
        Ok(Waiting {
            lines: self.lines.duplicate()?,
        })
    }
}
