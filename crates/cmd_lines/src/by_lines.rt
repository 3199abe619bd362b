//! Commands that answer the lines of their input.

ghost use Rattle.std.specs.Prelude.{[]};
ghost use Rattle.edge_traits.specs.Faults.{Rose};
ghost use Rattle.cmd_lines.specs.Ends.{OnReadFault, OnWriteFault};
ghost use Rattle.cmd_lines.specs.HandlerEnds.{HandlerEnds};

use crate::answering::answer_pieces;
use crate::end::End;
use crate::line_handler::LineHandler;
use crate::machine::Machine;
use edge_traits::{Sink, Source};
use std::alloc::Global;

/// Reads the source to its end, has its lines answered by the handler, and writes what is due for them: one write a
/// read. At the end of the input the handler is closed.
pub fn answer_lines<S: Source, K: Sink, T: LineHandler>(
    alloc: Global,
    handler: T,
    source: &mut S,
    sink: &mut K,
) -> End
    requires { T.reached handler [] handler [] }
    ensures ends { HandlerEnds (T.reached handler) T.closed T.ending (S.left source.old) (S.left source.new)
        (K.written sink.old) (K.written sink.new) result }
    ensures read_cause { OnReadFault result (Rose (S.faults source.old) (S.faults source.new)) }
    ensures write_cause { OnWriteFault result (Rose (K.faults sink.old) (K.faults sink.new)) }
{
    answer_pieces(alloc, Machine::new(alloc, handler), source, sink)
}
