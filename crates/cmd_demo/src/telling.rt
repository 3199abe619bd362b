//! The command `demo`.

ghost use Rattle.std.specs.Prelude.{◌≡◌, ℕ, IfOk};
ghost use Rattle.edge_traits.specs.Faults.{Rose};
ghost use Rattle.cmd_lines.specs.Ends.{OnWriteFault};
ghost use Rattle.cmd_demo.specs.Demo.{start};
ghost use Rattle.cmd_demo.specs.DemoEnds.{DemoEnds, IsSummary};

use crate::steps::Demo;
use crate::summary::put_summary;
use cmd_lines::{End, send};
use edge_traits::Sink;
use memory::NoMemory;
use std::alloc::Global;

/// Makes the evening of the number, and writes its summary, in one write.
pub fn demo<K: Sink>(alloc: Global, number: u32, sink: &mut K) -> End
    ensures ends { DemoEnds number (K.written sink.old) (K.written sink.new) result }
    ensures cause { OnWriteFault result (Rose (K.faults sink.old) (K.faults sink.new)) }
{
    let Ok(text) = summary(alloc, number) else {
        return End::Memory;
    };
    match send(text.as_slice(), sink) {
        Ok(()) => End::Done,
        Err(end) => end,
    }
}

/// The summary of the number's evening.
fn summary(alloc: Global, number: u32) -> Result<Vec<u8>, NoMemory>
    ensures { IfOk result (λ text. IsSummary number text.items) }
{
    let mut demo = Demo::new(alloc, u64::from(number))?;
    gone(alloc, &mut demo)
}

/// Goes through the steps, and gives the summary of what they made.
fn gone(alloc: Global, demo: &mut Demo) -> Result<Vec<u8>, NoMemory>
    requires { (number : ℕ) × (demo.old ≡ start number) }
    ensures { IfOk result (λ text. (number : ℕ) → demo.old ≡ start number → IsSummary number text.items) }
{
    demo.go()?;
    let mut text = Vec::new(alloc);
    put_summary(demo.server().history(), &mut text)?;
    Ok(text)
}
