//! The fakes, in short sessions: tables of calls, each with what it has to come to.
ghost use Rattle.std.specs.Prelude.{◌<◌, length};

use crate::calls::{Call, Records, are_kept, first_failing};
use edge_traits::{Got, Kept, Sent, Sink, Source};
use memory::NoMemory;
use memory_edges::{MemKeeper, MemSink, MemSource};
use std::alloc::Global;
use std::test::Fail;
use test_steps::first_wrong;

/// What a source gives.
enum Given {
    Bytes(&'static [u8]),
    End,
    Fault,
}

/// The room of each read, and what it gives: the second and the fifth read fail.
const READS: &[(usize, Given)] = &[
    (4, Given::Bytes(b"abc")),
    (4, Given::Fault),
    (2, Given::Bytes(b"de")),
    (4, Given::Bytes(b"fg")),
    (4, Given::Fault),
    (4, Given::End),
    (4, Given::End),
];

/// Calls of the fakes. They ensure nothing, so that nothing above them is proved over what a fake does.
fn read(source: &mut MemSource, buf: &mut [u8]) -> Got
    requires { 0 < length buf.old }
{
    source.read(buf)
}

fn write(sink: &mut MemSink, bytes: &[u8]) -> Sent {
    sink.write(bytes)
}

fn gives(source: &mut MemSource, room: usize, wanted: &Given) -> bool {
    let mut buf = [0; 4];
    let got = read(source, &mut buf[..room.min(4).max(1)]);
    is_given(got, &buf, wanted)
}

fn is_given(got: Got, buf: &[u8], wanted: &Given) -> bool {
    match (got, wanted) {
        (Got::Bytes(count), Given::Bytes(bytes)) => buf.get(..count) == Some(*bytes),
        (Got::End, Given::End) => true,
        (Got::Failed, Given::Fault) => true,
        _ => false,
    }
}

/// The place of the first read that gives something else, if one does.
fn first_wrong_read(alloc: Global) -> Result<Option<usize>, NoMemory> {
    let bytes = Vec::from_slice(alloc, b"abcdefg")?;
    let fails = Vec::from_slice(alloc, &[1, 4])?;
    let mut source = MemSource::new(bytes, 3, fails);
    Ok(first_wrong_of(&mut source))
}

fn first_wrong_of(source: &mut MemSource) -> Option<usize> {
    first_wrong!(READS, |(room, wanted)| gives(source, *room, wanted))
}

#[test]
fn gives_bytes_in_cuts(rt: HostRuntime) -> Result<(), Fail> {
    assert_eq!(rt; first_wrong_read(rt.alloc())?, None);
    Ok(())
}

/// What is written, and whether it is: the second write fails.
const WRITES: &[(&[u8], Sent)] = &[
    (b"one ", Sent::All),
    (b"two ", Sent::Failed),
    (b"three", Sent::All),
];

/// The place of the first write that comes to something else, if one does, or their number where something else is
/// kept.
fn first_wrong_write(alloc: Global) -> Result<Option<usize>, NoMemory> {
    let fails = Vec::from_slice(alloc, &[1])?;
    let mut sink = MemSink::new(alloc, fails);
    Ok(first_wrong_in(&mut sink))
}

fn first_wrong_in(sink: &mut MemSink) -> Option<usize> {
    let wrong = first_wrong!(WRITES, |(bytes, wanted)| write(sink, bytes) == *wanted);
    if wrong.is_none() && sink.written() != b"one three".as_slice() {
        return Some(WRITES.len());
    }
    wrong
}

#[test]
fn keeps_what_is_written(rt: HostRuntime) -> Result<(), Fail> {
    assert_eq!(rt; first_wrong_write(rt.alloc())?, None);
    Ok(())
}

/// The third call and the eighth fail.
const KEPT: &[Call] = &[
    Call::Puts(b"b", b"1", Kept::Done),
    Call::Puts(b"a", b"2", Kept::Done),
    Call::Puts(b"c", b"3", Kept::Failed),
    Call::Puts(b"ab", b"4", Kept::Done),
    Call::Puts(b"b", b"5", Kept::Done),
    Call::Removes(b"none", Kept::Done),
    Call::Removes(b"a", Kept::Done),
    Call::Refuses,
    Call::Loads(LEFT),
];

const LEFT: Records = &[(b"ab", b"4"), (b"b", b"5")];

/// The place of the first call that comes to something else, if one does, or their number where others are kept.
fn first_wrong_call(alloc: Global) -> Result<Option<usize>, NoMemory> {
    let fails = Vec::from_slice(alloc, &[2, 7])?;
    let mut keeper = MemKeeper::new(alloc, fails);
    Ok(first_wrong_by(&mut keeper))
}

fn first_wrong_by(keeper: &mut MemKeeper) -> Option<usize> {
    let wrong = first_failing(keeper, KEPT);
    if wrong.is_none() && !are_kept(keeper.pairs(), LEFT) {
        return Some(KEPT.len());
    }
    wrong
}

#[test]
fn keeps_records_in_order(rt: HostRuntime) -> Result<(), Fail> {
    assert_eq!(rt; first_wrong_call(rt.alloc())?, None);
    Ok(())
}

/// Whether a hundred reads, a byte each, give all bytes to a sink, and neither of the two ever fails.
fn is_handed_on(alloc: Global) -> Result<bool, NoMemory> {
    let bytes = Vec::from_slice(alloc, b"xyz")?;
    let mut source = MemSource::new(bytes, 1, Vec::new(alloc));
    let mut sink = MemSink::new(alloc, Vec::new(alloc));
    Ok(hands_on(&mut source, &mut sink))
}

fn hands_on(source: &mut MemSource, sink: &mut MemSink) -> bool {
    for _ in 0..100 {
        if !hands_byte_on(source, sink) {
            return false;
        }
    }
    sink.written() == b"xyz".as_slice()
}

fn hands_byte_on(source: &mut MemSource, sink: &mut MemSink) -> bool {
    let mut buf = [0; 8];
    match read(source, &mut buf) {
        Got::Bytes(count) => count == 1 && write(sink, &buf[..1]) == Sent::All,
        Got::End => true,
        Got::Failed => false,
    }
}

#[test]
fn never_fails_with_an_empty_list(rt: HostRuntime) -> Result<(), Fail> {
    assert!(rt; is_handed_on(rt.alloc())?);
    Ok(())
}
