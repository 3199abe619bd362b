//! What is written where the words name no job that is done.

ghost use Rattle.std.specs.Prelude.{◌≡◌, ◌⊎◌};
ghost use Rattle.edge_traits.specs.Faults.{Rose};
ghost use Rattle.cmd_job.specs.Usage.{UsageEnds};

use cmd_lines::{send, status};
use edge_traits::Sink;

const USAGE: &[u8] = b"usage: ficsd board, replay, demo N, check --store PATH, serve --port P\n";

/// The status that tells that the words name no job.
const USAGE_STATUS: u8 = 1;

/// Writes how the program is called, and gives the status with which it ends: 1, or 3 at a fault of writing, or 6 for
/// want of memory.
pub fn tell_usage<K: Sink>(sink: &mut K) -> u8
    ensures ends { UsageEnds (K.written sink.old) (K.written sink.new) result }
    ensures cause { result ≡ 3 → Rose (K.faults sink.old) (K.faults sink.new) }
    ensures calm { (result ≡ 3) ⊎ (K.faults sink.new ≡ K.faults sink.old) }
{
    match send(USAGE, sink) {
        Ok(()) => USAGE_STATUS,
        Err(end) => status(end),
    }
}
