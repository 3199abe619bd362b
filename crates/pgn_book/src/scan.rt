//! Reading on in PGN text, from where it stands.
ghost use Rattle.std.specs.Prelude.{◌≡◌, ◌≤◌, ℕ, List, [], ◌∷◌, drop, length, None, IfOk, IfSome};
ghost use Rattle.pgn_book.specs.Export.{IsExportable};
ghost use Rattle.pgn_book.specs.Reader.{ReaderGoesOn, IsLast, LeavesFewer, MayBeExported, StaysAtEnd, reader_facing, fresh_scan, line_if, rests, step_of, told_at_end};

use crate::book::Read;
use crate::game::PgnGame;
use crate::reader::PgnStep;
use crate::walk::Walk;
use memory::NoMemory;
use std::alloc::Global;
use std::marker::Model;

/// The game that ended in bytes that were read, and how many these were; without a game all.
#[derive(Drop)]
pub(crate) struct Found {
    pub(crate) game: Option<PgnGame>,
    pub(crate) read: usize,
}

/// Where reading stands: in what, unless no text goes on so, and on which line.
#[derive(Drop)]
pub(crate) struct Scan {
    walk: Walk,
    goes_on: bool,
    line: u64,
}

impl Model for Scan {
    ghost use Rattle.pgn_book.specs.Reader.{Scan};
    ghost use Rattle.pgn_book.specs.Sound.{IsSoundIf};
    ghost use Rattle.pgn_book.specs.Taking.{on_if};

    ghost Value = { Scan };

    ghost view = { λ scan. record { on = on_if scan.goes_on scan.walk; line = scan.line } };

    ghost invariant = { λ scan. IsSoundIf (on_if scan.goes_on scan.walk) };
}

impl Scan {
    /// Before the first byte.
    pub(crate) fn new(alloc: Global) -> Scan
        ensures { result ≡ fresh_scan }
    {
        Scan {
            walk: Walk::new(alloc),
            goes_on: true,
            line: 1,
        }
    }

    /// The same once more.
    pub(crate) fn duplicate(&self, alloc: Global) -> Result<Scan, NoMemory>
        ensures { IfOk result (λ copy. copy ≡ self.now) }
    {
        let walk = self.walk.duplicate(alloc)?;
        Ok(Scan {
            walk,
            goes_on: self.goes_on,
            line: self.line,
        })
    }

    /// Reads these bytes as far as the end of the first game in them, or else all.
    pub(crate) fn read(&mut self, alloc: Global, bytes: &[u8]) -> Result<Found, NoMemory>
        ensures goes_on { IfOk result (λ found.
            ReaderGoesOn (reader_facing self.old bytes.now) found.game
            (reader_facing self.new (drop found.read bytes.now))) }
        ensures fewer { IfOk result (λ found. LeavesFewer (reader_facing self.old bytes.now) (step_of found.game)
            (reader_facing self.new (drop found.read bytes.now))) }
        ensures within { IfOk result (λ found. found.read ≤ length bytes.now) }
        ensures all { IfOk result (λ found. found.game ≡ None → drop found.read bytes.now ≡ []) }
        ensures exportable { IfOk result (λ found. IfSome found.game IsExportable) }
    {
        let mut read = 0;
        while read < bytes.len() {
            let given = self.take(alloc, bytes[read])?;
            read += 1;
            if let Some(game) = given {
                return Ok(Found {
                    game: Some(game),
                    read,
                });
            }
        }
        Ok(Found { game: None, read })
    }

    /// What is told where all was read and no game ended.
    pub(crate) fn told(&self) -> PgnStep
        ensures { result ≡ told_at_end self.now }
    {
        if self.goes_on {
            return PgnStep::More;
        }
        PgnStep::Bad(self.line)
    }

    /// Takes the end of the text.
    pub(crate) fn end(&mut self, alloc: Global) -> Result<PgnStep, NoMemory>
        ensures last { IfOk result (λ step. IsLast (reader_facing self.old []) step (reader_facing self.new [])) }
        ensures ended { IfOk result (λ step. StaysAtEnd step (reader_facing self.new [])) }
        ensures exportable { IfOk result MayBeExported }
        ensures fewer { IfOk result (λ step. LeavesFewer (reader_facing self.old []) step (reader_facing self.new [])) }
    {
        if !self.goes_on {
            return Ok(PgnStep::Bad(self.line));
        }
        let Read { game, goes_on } = self.walk.finish(alloc)?;
        self.walk.rest();
        self.goes_on = goes_on;
        if let Some(game) = game {
            return Ok(PgnStep::Game(game));
        }
        if self.is_at_rest() {
            return Ok(PgnStep::More);
        }
        self.goes_on = false;
        Ok(PgnStep::Bad(self.line))
    }

    fn is_at_rest(&self) -> bool
        ensures { result ≡ rests self.now.on }
    {
        self.goes_on && self.walk.is_at_rest()
    }

    /// Takes the next byte, which may end a game.
    fn take(&mut self, alloc: Global, byte: u8) -> Result<Option<PgnGame>, NoMemory>
        ensures goes_on { (rest : List ℕ) → IfOk result (λ given.
            ReaderGoesOn (reader_facing self.old (byte ∷ rest)) given (reader_facing self.new rest)) }
        ensures exportable { IfOk result (λ given. IfSome given IsExportable) }
    {
        if !self.goes_on {
            return Ok(None);
        }
        let read = self.walk.step(alloc, byte)?;
        self.goes_on = read.goes_on;
        let line = line_behind(read.goes_on, self.line, byte);
        self.line = line;
        Ok(read.game)
    }
}

/// The line behind a byte, behind which a text goes on or doesn't.
fn line_behind(goes_on: bool, line: u64, byte: u8) -> u64
    ensures { result ≡ line_if goes_on line byte }
{
    if goes_on && byte == b'\n' && line < u64::MAX {
        return line + 1;
    }
    line
}
