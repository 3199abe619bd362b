//! Commands that answer each line by a function of where they stand, so that their whole text is a function of the
//! lines.

ghost use Rattle.std.specs.Prelude.{◌≡◌};
ghost use Rattle.fics_words.specs.Line.{most_line_bytes};
ghost use Rattle.edge_traits.specs.Faults.{Rose};
ghost use Rattle.cmd_lines.specs.Ends.{OnReadFault, OnWriteFault};
ghost use Rattle.cmd_lines.specs.LineCommand.{begun_at};
ghost use Rattle.cmd_lines.specs.LineCommandEnds.{LineCommandEnds};

use crate::by_lines::answer_lines;
use crate::end::End;
use crate::line_handler::LineHandler;
use edge_traits::{Sink, Source};
use memory::NoMemory;
use std::alloc::Global;
use std::marker::Model;

/// A command that answers each line of its input by a function of where it stands. What it writes for an input, and the
/// line at which an input stops it, follow from that function alone.
pub trait LineAnswerer: Drop {
    ghost use Rattle.std.specs.Prelude.{◌≡◌, ◌<◌, ◌≤◌, length, IfOk};
    ghost use Rattle.cmd_lines.specs.LineCommand.{IsLineAnswer, LineCommand};

    /// Where the command starts if nothing else is said, the function, and the bytes that end the line which tells of
    /// one outside the grammar.
    ghost command: { LineCommand Self };

    /// Answers a line that isn't empty: appends what is written for it; false where the line is outside the grammar.
    /// After running out of memory nothing is known of the command and of what was appended.
    fn answer_line(&mut self, line: &[u8], out: &mut Vec<u8>) -> Result<bool, NoMemory>
        requires some { 0 < length line.now }
        requires short { length line.now ≤ most_line_bytes }
        ensures { IfOk result
            (λ good. IsLineAnswer (command.answer self.old line.now) out.old.items self.new out.new.items good) };

    /// The bytes that end a line.
    fn ending(&self) -> &'static [u8]
        ensures { result.now ≡ command.ending };
}

/// A command as a handler of lines, which contracts see as the command.
#[derive(Drop)]
pub(crate) struct ByFunction<A: LineAnswerer> {
    pub(crate) answerer: A,
}

impl<A: LineAnswerer> Model for ByFunction<A> {
    ghost Value = { A };

    ghost view = { λ handler. handler.answerer };
}

impl<A: LineAnswerer> LineHandler for ByFunction<A> {
    ghost use Rattle.std.specs.Prelude.{◌≡◌};
    ghost use Rattle.cmd_lines.specs.LineCommand.{IsPlayed, begun_at};
    ghost use Rattle.cmd_lines.specs.PlayedLinesProof.{played_lines};

    ghost reached = { λ start. IsPlayed (begun_at A.command start) };

    ghost closed = { λ old new. new ≡ old };

    ghost ending = { A.command.ending };

    ghost lines = { λ start. played_lines (begun_at A.command start) };

    fn answer_line(&mut self, line: &[u8], out: &mut Vec<u8>) -> Result<bool, NoMemory> {
        self.answerer.answer_line(line, out)
    }

    fn close(&mut self) -> Result<(), NoMemory> {
        Ok(())
    }

    fn ending(&self) -> &'static [u8] {
        self.answerer.ending()
    }
}

/// Reads the source to its end, has each of its lines answered, and writes what is due for them: one write a read.
pub fn answer_each<S: Source, K: Sink, A: LineAnswerer>(
    alloc: Global,
    answerer: A,
    source: &mut S,
    sink: &mut K,
) -> End
    requires { answerer ≡ A.command.start }
    ensures ends { LineCommandEnds A.command (S.left source.old) (S.left source.new) (K.written sink.old)
        (K.written sink.new) result }
    ensures read_cause { OnReadFault result (Rose (S.faults source.old) (S.faults source.new)) }
    ensures write_cause { OnWriteFault result (Rose (K.faults sink.old) (K.faults sink.new)) }
{
    answer_from(alloc, answerer, source, sink)
}

/// As `answer_each`, by a command that starts where it stands now.
pub fn answer_from<S: Source, K: Sink, A: LineAnswerer>(
    alloc: Global,
    answerer: A,
    source: &mut S,
    sink: &mut K,
) -> End
    ensures ends { LineCommandEnds (begun_at A.command answerer) (S.left source.old) (S.left source.new)
        (K.written sink.old) (K.written sink.new) result }
    ensures read_cause { OnReadFault result (Rose (S.faults source.old) (S.faults source.new)) }
    ensures write_cause { OnWriteFault result (Rose (K.faults sink.old) (K.faults sink.new)) }
{
    answer_lines(alloc, ByFunction { answerer }, source, sink)
}
