//! The reading of the input of a feeder: reads it to its end, feeds what comes, and writes what is due for it.

ghost use Rattle.std.specs.Prelude.{◌≡◌, ◌≢◌, ◌≤◌, [], ◌++◌, ℕ, List, true, false, IfErr};
ghost use Rattle.std.specs.declared.option.Option.{Option};
ghost use Rattle.std.specs.Io.KnownBytes.{Appends};
ghost use Rattle.edge_traits.specs.Faults.{Rose};
ghost use Rattle.cmd_lines.specs.Ends.{OnReadFault, OnWriteFault, UnlessWriteFault};
ghost use Rattle.cmd_lines.specs.FeederEnds.{FeederEnds};
ghost use Rattle.cmd_lines.specs.Feeding.{CanBeFed};
ghost use Rattle.cmd_lines.specs.Reading.{AfterAnswer, AfterFinish, AfterSend, AfterSendLast};

use crate::end::End;
use crate::feeder::Feeder;
use crate::stop::Stop;
use edge_traits::{Got, MOST_READS, Sent, Sink, Source};
use std::alloc::Global;

/// Reads the source to its end, feeds what it gives, and writes what is due for it: one write a read. At the end of the
/// input the feeder is closed, and what it gives then is written.
pub fn answer_pieces<S: Source, K: Sink, F: Feeder>(
    alloc: Global,
    mut feeder: F,
    source: &mut S,
    sink: &mut K,
) -> End
    requires { (F.feeding feeder).fed false [] feeder [] }
    ensures ends { FeederEnds (F.feeding feeder) (S.left source.old) (S.left source.new) (K.written sink.old)
        (K.written sink.new) result }
    ensures read_cause { OnReadFault result (Rose (S.faults source.old) (S.faults source.new)) }
    ensures write_cause { OnWriteFault result (Rose (K.faults sink.old) (K.faults sink.new)) }
{
    let mut out = Vec::new(alloc);
    answer_reads(&mut feeder, &mut out, source, sink)
}

/// Reads the source to its end, with a feeder that was fed nothing yet.
fn answer_reads<S: Source, K: Sink, F: Feeder>(
    feeder: &mut F,
    out: &mut Vec<u8>,
    source: &mut S,
    sink: &mut K,
) -> End
    requires { (F.feeding feeder.old).fed false [] feeder.old [] }
    ensures ends { FeederEnds (F.feeding feeder.old) (S.left source.old) (S.left source.new) (K.written sink.old)
        (K.written sink.new) result }
    ensures read_cause { OnReadFault result (Rose (S.faults source.old) (S.faults source.new)) }
    ensures write_cause { OnWriteFault result (Rose (K.faults sink.old) (K.faults sink.new)) }
{
    let mut buf = [0; 1024];
    'reads: for _ in 0..MOST_READS {
        match source.read(&mut buf) {
            Got::Bytes(n) => {
                if let Err(end) = answer(feeder, &buf[..n], out, sink) {
                    return end;
                }
            }
            Got::End => return finish(feeder, out, sink),
            Got::Failed => return End::ReadFault,
        }
    }
    End::Spent
}

/// Feeds what one read gave, and writes what is due for it.
fn answer<K: Sink, F: Feeder>(
    feeder: &mut F,
    piece: &[u8],
    out: &mut Vec<u8>,
    sink: &mut K,
) -> Result<(), End>
    requires { CanBeFed F.feeding feeder.old piece.now }
    ensures answered { (start : F) (taken text : List ℕ) (written : Option (List ℕ))
        → Appends written (K.written sink.old) text → (F.feeding start).fed false taken feeder.old text
        → AfterAnswer (F.feeding start) (taken ++ piece.now) feeder.new written (K.written sink.new) result }
    ensures cause { IfErr result (λ end. OnWriteFault end (Rose (K.faults sink.old) (K.faults sink.new))) }
    ensures counted { K.faults sink.old ≤ K.faults sink.new }
{
    out.clear();
    match feeder.feed(piece, out) {
        Ok(()) => send(out.as_slice(), sink),
        Err(Stop::BadLine) => Err(send_last(out.as_slice(), sink, End::BadLine)),
        Err(Stop::Memory) => Err(End::Memory),
    }
}

/// Makes the feeder take the input's end, writes what is due for it, and closes the feeder.
fn finish<K: Sink, F: Feeder>(feeder: &mut F, out: &mut Vec<u8>, sink: &mut K) -> End
    requires { CanBeFed F.feeding feeder.old [] }
    ensures finished { (start : F) (taken text : List ℕ) (written : Option (List ℕ))
        → Appends written (K.written sink.old) text → (F.feeding start).fed false taken feeder.old text
        → AfterFinish (F.feeding start) taken written (K.written sink.new) result }
    ensures cause { OnWriteFault result (Rose (K.faults sink.old) (K.faults sink.new)) }
{
    out.clear();
    match feeder.finish(out) {
        Ok(()) => send_and_close(feeder, out, sink),
        Err(Stop::BadLine) => send_last(out.as_slice(), sink, End::BadLine),
        Err(Stop::Memory) => End::Memory,
    }
}

/// Writes the last answers, and only then closes the feeder, so running out of memory in closing loses no answer; then
/// writes what it gives in closing.
fn send_and_close<K: Sink, F: Feeder>(feeder: &mut F, out: &mut Vec<u8>, sink: &mut K) -> End
    ensures finished { (start : F) (taken text : List ℕ) (written : Option (List ℕ))
        → Appends written (K.written sink.old) text
        → (F.feeding start).fed true taken feeder.old (text ++ out.old.items)
        → AfterFinish (F.feeding start) taken written (K.written sink.new) result }
    ensures cause { OnWriteFault result (Rose (K.faults sink.old) (K.faults sink.new)) }
{
    if let Err(fault) = send(out.as_slice(), sink) {
        return fault;
    }
    out.clear();
    match feeder.close(out) {
        Ok(()) => send_last(out.as_slice(), sink, End::Done),
        Err(_) => End::Memory,
    }
}

/// Writes the last bytes: the given end comes where they are written.
fn send_last<K: Sink>(bytes: &[u8], sink: &mut K, end: End) -> End
    ensures sent { AfterSendLast (K.written sink.old) (K.written sink.new) bytes.now end result }
    ensures cause { end ≢ End.WriteFault → OnWriteFault result (Rose (K.faults sink.old) (K.faults sink.new)) }
    ensures counted { K.faults sink.old ≤ K.faults sink.new }
{
    match send(bytes, sink) {
        Ok(()) => end,
        Err(fault) => fault,
    }
}

/// Writes the bytes, in one write; none makes no write.
pub fn send<K: Sink>(bytes: &[u8], sink: &mut K) -> Result<(), End>
    ensures sent { AfterSend (K.written sink.old) (K.written sink.new) bytes.now result }
    ensures cause { IfErr result (λ end. OnWriteFault end (Rose (K.faults sink.old) (K.faults sink.new))) }
    ensures counted { K.faults sink.old ≤ K.faults sink.new }
    ensures calm { UnlessWriteFault result (K.faults sink.new ≡ K.faults sink.old) }
{
    if bytes.is_empty() {
        return Ok(());
    }
    match sink.write(bytes) {
        Sent::All => Ok(()),
        Sent::Failed => Err(End::WriteFault),
        Sent::Memory => Err(End::Memory),
    }
}
