//! The command `replay`: an evening on one server answers the lines of a script.

ghost use Rattle.edge_traits.specs.Faults.{Rose};
ghost use Rattle.cmd_lines.specs.Ends.{OnReadFault, OnWriteFault};
ghost use Rattle.cmd_replay.specs.ReplayEnds.{ReplayEnds};

use crate::evening::Evening;
use cmd_lines::{End, answer_lines};
use edge_traits::{Sink, Source};
use std::alloc::Global;

/// Reads the source to its end, and writes the transcript of the script that it gives: one write a read.
pub fn replay<S: Source, K: Sink>(alloc: Global, source: &mut S, sink: &mut K) -> End
    ensures ends { ReplayEnds (S.left source.old) (S.left source.new) (K.written sink.old) (K.written sink.new) result }
    ensures read_cause { OnReadFault result (Rose (S.faults source.old) (S.faults source.new)) }
    ensures write_cause { OnWriteFault result (Rose (K.faults sink.old) (K.faults sink.new)) }
{
    let Ok(evening) = Evening::new(alloc) else {
        return End::Memory;
    };
    answer_lines(alloc, evening, source, sink)
}
