//! The lines that wait for a member.
ghost use Rattle.std.specs.Prelude.{◌≡◌, IfOk, OnErr, OnOk, not};
ghost use Rattle.channel_feed.specs.Waiting.{is_full, with_line, without_last};

use channel_feed::Waiting;
use collections::Listed;
use fics_words::Line;
use memory::{Duplicate, NoMemory};
use std::alloc::Global;
use std::marker::Model;

/// The lines that wait for a member, the oldest first, at most 512. Contracts see the lines alone: what room there is
/// beside them makes no difference to a lobby.
#[derive(Drop)]
pub struct Inbox {
    waiting: Waiting,
}

impl Model for Inbox {
    ghost use Rattle.std.specs.Prelude.{List, ℕ};

    ghost Value = { List (List ℕ) };

    ghost view = { λ inbox. inbox.waiting.items };
}

impl Inbox {
    ghost use Rattle.std.specs.Prelude.{[]};

    /// No lines; takes no memory.
    pub(crate) fn new(alloc: Global) -> Inbox
        ensures { result ≡ [] }
    {
        Inbox {
            waiting: Waiting::new(alloc),
        }
    }

    /// The lines, the oldest first.
    pub(crate) fn lines(&self) -> &[Line]
        ensures { result.now ≡ self.now }
    {
        self.waiting.lines()
    }

    /// Whether 512 lines wait, so that no more can.
    pub(crate) fn is_full(&self) -> bool
        ensures { result ≡ is_full self.now }
    {
        self.waiting.is_full()
    }

    /// Puts a line behind the others. False exactly where 512 lines wait; then nothing changes.
    pub(crate) fn push(&mut self, line: Line) -> Result<bool, NoMemory>
        ensures pushed { IfOk result (λ pushed. pushed ≡ not (is_full self.old)) }
        ensures ok { OnOk result (self.new ≡ with_line line self.old) }
        ensures err { OnErr result (self.new ≡ self.old) }
    {
        self.waiting.push(line)
    }

    /// Takes back the line that was put last, if one waits. Takes no memory.
    pub(crate) fn take_back(&mut self)
        ensures { self.new ≡ without_last self.old }
    {
        self.waiting.take_back();
    }

    /// Takes all lines, in order; none wait afterwards. Takes no memory.
    pub(crate) fn take_all(&mut self) -> Listed<Line>
        ensures taken { result ≡ self.old }
        ensures emptied { self.new ≡ [] }
    {
        self.waiting.take_all()
    }

    /// An inbox with the same lines; it fails only when out of memory.
    pub(crate) fn twin(&self) -> Result<Inbox, NoMemory>
        ensures { IfOk result (λ inbox. inbox ≡ self.now) }
    {
        Ok(Inbox {
            waiting: self.waiting.duplicate()?,
        })
    }

    /// A copy of the lines; it fails only when out of memory.
    pub(crate) fn copy(&self) -> Result<Listed<Line>, NoMemory>
        ensures { IfOk result (λ lines. lines ≡ self.now) }
    {
        let mut copy = self.waiting.duplicate()?;
        Ok(copy.take_all())
    }
}
