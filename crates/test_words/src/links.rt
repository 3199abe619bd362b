//! A link, a clock and a gate in memory.

use edge_traits::{Clock, Gate, Heard, Link, OpenGate, Sent, StillClock};
use memory_edges::{LinkStep, MemLink};
use std::alloc::{AllocError, Global};
use std::test::Fail;
use test_steps::first_wrong;

/// A call of a link, and what it has to come to.
enum Call {
    /// The bytes are written.
    Writes(&'static [u8]),
    /// Writing the bytes fails.
    Loses(&'static [u8]),
    /// Exactly these bytes are read.
    Reads(&'static [u8]),
    /// Nothing is read, for this cause.
    Hears(Heard),
    /// The link is closed.
    Closes,
    /// Exactly these bytes were written until then.
    Keeps(&'static [u8]),
}

use Call::{Closes, Hears, Keeps, Loses, Reads, Writes};

fn put_step(steps: &mut Vec<LinkStep>, step: LinkStep) -> Result<(), AllocError> {
    steps.push(step)?;
    Ok(())
}

fn put_piece(alloc: Global, steps: &mut Vec<LinkStep>, bytes: &[u8]) -> Result<(), AllocError> {
    let bytes = Vec::from_slice(alloc, bytes)?;
    put_step(steps, LinkStep::Piece(bytes))
}

/// Puts the steps of a link: pieces of bytes, and pauses in place of nothing.
fn put_steps(
    alloc: Global,
    steps: &mut Vec<LinkStep>,
    pieces: &[Option<&[u8]>],
) -> Result<(), AllocError> {
    for piece in pieces {
        match piece {
            Some(bytes) => put_piece(alloc, steps, bytes)?,
            None => put_step(steps, LinkStep::Quiet)?,
        }
    }
    Ok(())
}

/// Calls of a link, which has none of them behind its close. They ensure nothing, so that nothing above them is proved
/// over what a link does.
fn sent(link: &mut MemLink, bytes: &[u8]) -> Option<Sent> {
    if link.is_closed() {
        return None;
    }
    Some(link.write(bytes))
}

fn heard(link: &mut MemLink, buf: &mut [u8; 3]) -> Option<Heard> {
    if link.is_closed() {
        return None;
    }
    Some(link.read(buf))
}

/// Whether exactly these bytes are read, of three at most.
fn reads(link: &mut MemLink, bytes: &[u8]) -> bool {
    let mut buf = [0; 3];
    match heard(link, &mut buf) {
        Some(Heard::Bytes(count)) => buf.get(..count) == Some(bytes),
        _ => false,
    }
}

fn hears(link: &mut MemLink, what: Heard) -> bool {
    let mut buf = [0; 3];
    heard(link, &mut buf) == Some(what)
}

/// Whether exactly these bytes were written.
fn keeps(link: &MemLink, bytes: &[u8]) -> bool {
    link.written() == bytes
}

fn closes(link: &mut MemLink) -> bool {
    link.close();
    link.is_closed()
}

/// The place of the first call that comes to something else, if one does.
fn first_failing(link: &mut MemLink, calls: &[Call]) -> Option<usize> {
    first_wrong!(calls, |call| match call {
        Writes(bytes) => sent(link, bytes) == Some(Sent::All),
        Loses(bytes) => sent(link, bytes) == Some(Sent::Failed),
        Reads(bytes) => reads(link, bytes),
        Hears(what) => hears(link, *what),
        Closes => closes(link),
        Keeps(bytes) => keeps(link, bytes),
    })
}

/// What a link gives, the calls of it that fail, by their numbers, and what all calls come to.
struct Case {
    name: &'static str,
    given: &'static [Option<&'static [u8]>],
    fails: &'static [u64],
    calls: &'static [Call],
}

const CASES: &[Case] = &[
    Case {
        name: "gives_its_steps",
        given: &[Some(b"abcde"), None, Some(b""), Some(b"fg")],
        fails: &[],
        calls: &[
            Writes(b"hello"),
            Reads(b"abc"),
            Reads(b"de"),
            Hears(Heard::Quiet),
            Reads(b"fg"),
            Hears(Heard::End),
            Hears(Heard::End),
            Writes(b" again"),
            Closes,
            Keeps(b"hello again"),
        ],
    },
    Case {
        name: "fails_at_the_calls_that_it_is_told",
        given: &[Some(b"ab")],
        fails: &[0, 2],
        calls: &[
            Loses(b"lost"),
            Writes(b"kept"),
            Hears(Heard::Failed),
            Reads(b"ab"),
            Keeps(b"kept"),
        ],
    },
];

fn link_of(alloc: Global, case: &Case) -> Result<MemLink, AllocError> {
    let mut steps = Vec::new(alloc);
    put_steps(alloc, &mut steps, case.given)?;
    with_fails(alloc, steps, case.fails)
}

fn with_fails(alloc: Global, steps: Vec<LinkStep>, fails: &[u64]) -> Result<MemLink, AllocError> {
    let fails = Vec::from_slice(alloc, fails)?;
    Ok(MemLink::new(alloc, steps, fails))
}

/// The place of the first call of a case that comes to something else, if one does.
fn first_failing_of(alloc: Global, case: &Case) -> Result<Option<usize>, AllocError> {
    let mut link = link_of(alloc, case)?;
    Ok(first_failing(&mut link, case.calls))
}

#[test]
fn links_in_memory(rt: HostRuntime) -> Result<(), Fail> {
    for case in CASES {
        assert_eq!(rt; first_failing_of(rt.alloc(), case)?, None, "{}", case.name);
    }
    Ok(())
}

#[test]
fn a_still_clock_and_an_open_gate(rt: HostRuntime) -> Result<(), Fail> {
    let clock = StillClock::new(81_000);
    assert_eq!(rt; clock.now(), 81_000);
    assert_eq!(rt; clock.now(), 81_000);
    OpenGate::new().at(1, 0);
    Ok(())
}
