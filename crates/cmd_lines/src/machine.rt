//! The machine that is fed the bytes of the input, cuts them into lines and has these answered.

ghost use Rattle.std.specs.Prelude.{◌≡◌, ◌≤◌, [], ◌∷◌, ◌++◌, OnOk, take, vec_len};
ghost use Rattle.cmd_lines.specs.Handling.{bad_line};
ghost use Rattle.cmd_lines.specs.Progress.{OnBadLine};

use crate::feeder::Feeder;
use crate::line_handler::LineHandler;
use crate::stop::Stop;
use fics_words::{MOST_LINE_BYTES, write_number};
use memory::NoMemory;
use std::alloc::Global;
use std::marker::Model;

/// The machine: who answers the lines, the number of the next line, and the beginning of what has come of that line, of
/// which it keeps one byte more than a line that is answered may have.
#[derive(Drop)]
pub struct Machine<T: LineHandler> {
    pub(crate) handler: T,
    number: u64,
    kept: Vec<u8>,
}

impl<T: LineHandler> Model for Machine<T> {
    ghost use Rattle.std.specs.Prelude.{◌≤◌, vec_len};
    ghost use Rattle.cmd_lines.specs.HandlerStanding.{HandlerStanding};

    ghost Value = { HandlerStanding T };

    ghost view = { λ machine. record {
      handler = machine.handler;
      number = machine.number;
      kept = machine.kept.items;
    } };

    ghost invariant = { λ machine. vec_len machine.kept ≤ 1024 };
}

impl<T: LineHandler> Machine<T> {
    ghost use Rattle.std.specs.Prelude.{◌≡◌, ◌≤◌, ◌<◌, ◌+◌, ◌-◌, ◌^◌, [], ◌∷◌, ◌++◌, ℕ, List, length, take, OnOk};
    ghost use Rattle.cmd_lines.specs.HandlerStanding.{HandlerStanding};
    ghost use Rattle.cmd_lines.specs.Progress.{Progress, AfterFeed, AfterLine};

    /// A machine before the first byte.
    pub fn new(alloc: Global, handler: T) -> Machine<T>
        ensures { result ≡ record { handler = handler; number = 1; kept = [] } }
    {
        Machine {
            handler,
            number: 1,
            kept: Vec::new(alloc),
        }
    }

    /// Feeds bytes, and appends to `out` what is written for the lines that end in them.
    fn feed_bytes(&mut self, piece: &[u8], out: &mut Vec<u8>) -> Result<(), Stop>
        requires { self.old.number + length piece.now < 2 ^ 64 }
        ensures { (start : T) (taken base : List ℕ)
            → Progress (T.reached start) taken self.old (base ++ out.old.items)
            → AfterFeed (T.reached start) T.ending (taken ++ piece.now) self.new (base ++ out.new.items) result }
    {
        for byte in piece {
            self.feed_byte(*byte, out)?;
        }
        Ok(())
    }

    fn feed_byte(&mut self, byte: u8, out: &mut Vec<u8>) -> Result<(), Stop>
        requires { self.old.number < 2 ^ 64 - 1 }
        ensures fed { (start : T) (taken base : List ℕ)
            → Progress (T.reached start) taken self.old (base ++ out.old.items)
            → AfterFeed (T.reached start) T.ending (taken ++ byte ∷ []) self.new (base ++ out.new.items) result }
        ensures count { OnOk result (self.new.number ≤ self.old.number + 1) }
    {
        if byte == b'\n' {
            return self.end_line(out);
        }
        if byte == b'\r' || byte == 0 {
            return Ok(());
        }
        keep(byte, &mut self.kept)?;
        Ok(())
    }

    /// Ends the line: makes its answer, and appends what is written for it.
    fn end_line(&mut self, out: &mut Vec<u8>) -> Result<(), Stop>
        requires { self.old.number < 2 ^ 64 - 1 }
        ensures line { (start : T)
            → AfterLine (T.reached start) T.ending self.old out.old.items self.new out.new.items result }
        ensures count { OnOk result (self.new.number ≤ self.old.number + 1) }
    {
        if self.kept.is_empty() {
            self.number += 1;
            return Ok(());
        }
        if self.kept.len() > MOST_LINE_BYTES {
            return Err(refuse_line(self.number, self.handler.ending(), out));
        }
        if !self.handler.answer_line(self.kept.as_slice(), out)? {
            return Err(refuse_line(self.number, self.handler.ending(), out));
        }
        self.number += 1;
        self.kept.clear();
        Ok(())
    }
}

impl<T: LineHandler> Feeder for Machine<T> {
    ghost use Rattle.cmd_lines.specs.MachineFeeding.{line_feeding};

    ghost feeding = { λ start. line_feeding (T.reached start.handler) T.closed T.ending };

    fn feed(&mut self, piece: &[u8], out: &mut Vec<u8>) -> Result<(), Stop> {
        self.feed_bytes(piece, out)
    }

    fn finish(&mut self, out: &mut Vec<u8>) -> Result<(), Stop> {
        self.end_line(out)
    }

    fn close(&mut self, _out: &mut Vec<u8>) -> Result<(), NoMemory> {
        self.handler.close()
    }
}

/// Keeps a byte of the line, where there is room for it.
fn keep(byte: u8, kept: &mut Vec<u8>) -> Result<(), NoMemory>
    requires { vec_len kept.old ≤ 1024 }
    ensures kept { OnOk result (kept.new.items ≡ take 1024 (kept.old.items ++ byte ∷ [])) }
    ensures room { vec_len kept.new ≤ 1024 }
{
    if kept.len() <= MOST_LINE_BYTES {
        kept.push(byte)?;
    }
    Ok(())
}

/// Appends that the line of this number is outside the grammar.
pub fn refuse_line(number: u64, ending: &[u8], out: &mut Vec<u8>) -> Stop
    ensures { OnBadLine result (out.new.items ≡ out.old.items ++ bad_line ending.now number) }
{
    let Ok(()) = write_bad_line(number, ending, out) else {
        return Stop::Memory;
    };
    Stop::BadLine
}

fn write_bad_line(number: u64, ending: &[u8], out: &mut Vec<u8>) -> Result<(), NoMemory>
    ensures { OnOk result (out.new.items ≡ out.old.items ++ bad_line ending.now number) }
{
    out.extend_from_slice(b"bad line ")?;
    write_number(out, number)?;
    out.extend_from_slice(ending)?;
    Ok(())
}
