//! Commands that answer each line by a function of where they stand, and write a text at the input's end.

ghost use Rattle.std.specs.Prelude.{◌≡◌};
ghost use Rattle.edge_traits.specs.Faults.{Rose};
ghost use Rattle.cmd_lines.specs.ClosingCommandEnds.{ClosingCommandEnds};
ghost use Rattle.cmd_lines.specs.Ends.{OnReadFault, OnWriteFault};

use crate::answering::answer_pieces;
use crate::by_function::{ByFunction, LineAnswerer};
use crate::end::End;
use crate::feeder::Feeder;
use crate::machine::Machine;
use crate::stop::Stop;
use edge_traits::{Sink, Source};
use memory::NoMemory;
use std::alloc::Global;
use std::marker::Model;

/// A command that answers each line by a function, and writes a text at the end of an input whose lines are all good.
pub trait ClosingAnswerer: LineAnswerer {
    ghost use Rattle.std.specs.Prelude.{◌≡◌, ◌++◌, ℕ, List, OnOk};

    /// The text at the end, by where the lines have brought the command.
    ghost closing: { Self → List ℕ };

    /// Appends the text at the end. After running out of memory nothing is known of what was appended.
    fn put_closing(&mut self, out: &mut Vec<u8>) -> Result<(), NoMemory>
        ensures { OnOk result (out.new.items ≡ out.old.items ++ closing self.old) };
}

/// The machine that has the lines of such a command answered, which contracts see as that machine.
#[derive(Drop)]
struct ClosingMachine<A: ClosingAnswerer> {
    machine: Machine<ByFunction<A>>,
}

impl<A: ClosingAnswerer> Model for ClosingMachine<A> {
    ghost use Rattle.cmd_lines.specs.HandlerStanding.{HandlerStanding};

    ghost Value = { HandlerStanding A };

    ghost view = { λ closing. closing.machine };
}

impl<A: ClosingAnswerer> Feeder for ClosingMachine<A> {
    ghost use Rattle.cmd_lines.specs.ClosingCommand.{closing_feeding};
    ghost use Rattle.cmd_lines.specs.LineCommand.{begun_at};

    ghost feeding = { λ start. closing_feeding (begun_at A.command start.handler) A.closing };

    fn feed(&mut self, piece: &[u8], out: &mut Vec<u8>) -> Result<(), Stop> {
        self.machine.feed(piece, out)
    }

    fn finish(&mut self, out: &mut Vec<u8>) -> Result<(), Stop> {
        self.machine.finish(out)
    }

    fn close(&mut self, out: &mut Vec<u8>) -> Result<(), NoMemory> {
        self.machine.handler.answerer.put_closing(out)
    }
}

/// Reads the source to its end, has each of its lines answered, and writes what is due for them, one write a read, and
/// behind the last line the text at the end.
pub fn answer_each_and_close<S: Source, K: Sink, A: ClosingAnswerer>(
    alloc: Global,
    answerer: A,
    source: &mut S,
    sink: &mut K,
) -> End
    requires { answerer ≡ A.command.start }
    ensures ends { ClosingCommandEnds A.command A.closing (S.left source.old) (S.left source.new) (K.written sink.old)
        (K.written sink.new) result }
    ensures read_cause { OnReadFault result (Rose (S.faults source.old) (S.faults source.new)) }
    ensures write_cause { OnWriteFault result (Rose (K.faults sink.old) (K.faults sink.new)) }
{
    let machine = Machine::new(alloc, ByFunction { answerer });
    answer_pieces(alloc, ClosingMachine { machine }, source, sink)
}
