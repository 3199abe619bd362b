//! `run` over the fakes: a case says the words, what is read, and which reads and writes fail.

ghost use Rattle.std.specs.Prelude.{◌≤◌};

use cmd_run::run;
use memory_edges::{MemKeeper, MemSink, MemSource};
use std::alloc::Global;
use std::process::Abort;
use std::test::Fail;
use test_steps::first_wrong;

/// A program's run: the words, what it reads, and which reads and writes fail.
#[derive(Drop)]
pub(crate) struct Case<'a> {
    pub(crate) words: &'a [&'a str],
    pub(crate) input: &'a [u8],
    pub(crate) cut: usize,
    pub(crate) reads: &'a [u64],
    pub(crate) writes: &'a [u64],
    ghost cut_some: { 1 ≤ cut },
}

/// `board` over an input that is read whole.
pub(crate) fn board(input: &[u8]) -> Case<'_> {
    Case {
        words: &["board"],
        input,
        cut: 4_096,
        reads: &[],
        writes: &[],
    }
}

/// `tourney` over an input that is read whole.
pub(crate) fn tourney(input: &[u8]) -> Case<'_> {
    Case {
        words: &["tourney"],
        input,
        cut: 4_096,
        reads: &[],
        writes: &[],
    }
}

/// Runs the case; gives the status and what was written.
pub(crate) fn outcome(alloc: Global, case: &Case<'_>) -> Result<(u8, Vec<u8>), Fail> {
    let mut words = Vec::new(alloc);
    for word in case.words {
        words.push(String::from_str(alloc, word)?)?;
    }
    let bytes = Vec::from_slice(alloc, case.input)?;
    let mut source = MemSource::new(bytes, case.cut, Vec::from_slice(alloc, case.reads)?);
    let mut sink = MemSink::new(alloc, Vec::from_slice(alloc, case.writes)?);
    let mut keeper = MemKeeper::new(alloc, Vec::new(alloc));
    let status = run(alloc, words.as_slice(), &mut source, &mut sink, &mut keeper);
    Ok((status, Vec::from_slice(alloc, sink.written())?))
}

/// Runs the case and compares the status and the text that was written.
pub(crate) fn expect(
    rt: &impl Abort,
    alloc: Global,
    case: &Case<'_>,
    status: u8,
    text: &str,
) -> Result<(), Fail> {
    let (ended, written) = outcome(alloc, case)?;
    assert!(rt; ended == status, "status {ended}");
    assert!(rt; written.as_slice() == text.as_bytes());
    Ok(())
}

/// The number, and 1 in place of 0.
pub(crate) fn at_least_one(bytes: usize) -> usize
    ensures { 1 ≤ result }
{
    if bytes < 1 {
        return 1;
    }
    bytes
}

/// A row of a table: the words, what is read, in pieces of how many bytes, which reads and writes fail; the status, and
/// the texts that are written one after the other.
pub(crate) struct Row(
    pub(crate) &'static [&'static str],
    pub(crate) &'static [u8],
    pub(crate) usize,
    pub(crate) &'static [u64],
    pub(crate) &'static [u64],
    pub(crate) u8,
    pub(crate) &'static [&'static str],
);

/// Compares how the runs of each row end with what the row says.
pub(crate) fn expect_tables(
    rt: &impl Abort,
    alloc: Global,
    tables: &[(&str, &[Row])],
) -> Result<(), Fail> {
    for (name, rows) in tables {
        assert_eq!(rt;
            first_wrong!(rows, |row| is_as_said(alloc, row)?),
            None,
            "{name}"
        );
    }
    Ok(())
}

fn is_as_said(alloc: Global, row: &Row) -> Result<bool, Fail> {
    let cut = row.2;
    if cut < 1 {
        return Ok(false);
    }
    let case = Case {
        words: row.0,
        input: row.1,
        cut,
        reads: row.3,
        writes: row.4,
    };
    let (status, written) = outcome(alloc, &case)?;
    Ok(status == row.5 && are(written.as_slice(), row.6))
}

/// Whether these bytes are the texts one after the other.
fn are(bytes: &[u8], texts: &[&str]) -> bool {
    let mut rest = bytes;
    for text in texts {
        match rest.strip_prefix(text.as_bytes()) {
            Some(more) => rest = more,
            None => return false,
        }
    }
    rest.is_empty()
}
