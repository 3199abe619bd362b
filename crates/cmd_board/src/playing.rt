//! The command `board`: a game answers the lines of the input.

ghost use Rattle.edge_traits.specs.Faults.{Rose};
ghost use Rattle.cmd_board.specs.BoardEnds.{BoardEnds};
ghost use Rattle.cmd_lines.specs.Ends.{OnReadFault, OnWriteFault};

use crate::game::{END_OF_LINE, UntimedGame};
use cmd_lines::{End, LineAnswerer, answer_each};
use edge_traits::{Sink, Source};
use memory::NoMemory;
use std::alloc::Global;

impl LineAnswerer for UntimedGame {
    ghost use Rattle.cmd_board.specs.Transcript.{board_lines};

    ghost command = { board_lines };

    fn answer_line(&mut self, line: &[u8], out: &mut Vec<u8>) -> Result<bool, NoMemory> {
        self.answer_line(line, out)
    }

    fn ending(&self) -> &'static [u8] {
        END_OF_LINE
    }
}

/// Reads the source to its end, and writes what its lines give: one write a read.
pub fn board<S: Source, K: Sink>(alloc: Global, source: &mut S, sink: &mut K) -> End
    ensures ends { BoardEnds (S.left source.old) (S.left source.new) (K.written sink.old) (K.written sink.new) result }
    ensures read_cause { OnReadFault result (Rose (S.faults source.old) (S.faults source.new)) }
    ensures write_cause { OnWriteFault result (Rose (K.faults sink.old) (K.faults sink.new)) }
{
    let Ok(game) = UntimedGame::new(alloc) else {
        return End::Memory;
    };
    answer_each(alloc, game, source, sink)
}
