//! Long lines, and blocks and lines that never end.

use crate::line::telling::{Feeding, feed, is_told, told};
use line_reader::LineReader;
use memory::NoMemory;
use std::alloc::Global;
use std::test::Fail;
use test_steps::assert_rows;
use test_steps::limits::LINE_BYTES;

/// So many letters, what stands behind them, where the text is cut, and its lines. A line of 1,023 bytes is read and a
/// longer one is too long; one that ends in 0x80 and is no stamped line is read up to 1,033 bytes.
type Row = (usize, &'static [u8], usize, &'static [u8]);

const ROWS: &[Row] = &[
    (LINE_BYTES + 1, b"\nb\n", 1_024, b"L\nPb\n"),
    (1_033, b"\nb\n", 1_024, b"L\nPb\n"),
    (1_034, b"\nb\n", 1_024, b"L\nPb\n"),
    (1_035, b"\nb\n", 1_024, b"L\nPb\n"),
    (5_000, b"\nb\n", 1_024, b"L\nPb\n"),
    (1_032, b"\x80\nb\n", 1_030, b"B\nPb\n"),
    (1_033, b"\x80\nb\n", 1_030, b"L\nPb\n"),
];

/// So many letters with a text behind them.
fn long_text(alloc: Global, count: usize, behind: &[u8]) -> Result<Vec<u8>, NoMemory> {
    let mut text = vec![in alloc; b'a'; count]?;
    text.extend_from_slice(behind)?;
    Ok(text)
}

/// Whether so many letters with a text behind them have these lines.
fn is_row_told(alloc: Global, row: &Row) -> Result<bool, NoMemory> {
    let text = long_text(alloc, row.0, row.1)?;
    is_told(alloc, &text, Feeding::Cut(row.2), row.3)
}

#[test]
fn long_lines(rt: HostRuntime) -> Result<(), Fail> {
    assert_rows!(rt; ROWS, |row| is_row_told(rt.alloc(), row)?);
    Ok(())
}

/// Whether the longest line is read: a letter, its text, and the line behind it.
fn is_longest_read(alloc: Global) -> Result<bool, NoMemory> {
    let text = long_text(alloc, LINE_BYTES, b"\nb\n")?;
    is_longest(alloc, &text)
}

fn is_longest(alloc: Global, text: &[u8]) -> Result<bool, NoMemory> {
    let lines = told(alloc, text, Feeding::Cut(500))?;
    Ok(lines.len() == 1_028 && lines.as_slice().starts_with(b"Pa"))
}

#[test]
fn the_longest_line(rt: HostRuntime) -> Result<(), Fail> {
    assert!(rt; is_longest_read(rt.alloc())?);
    Ok(())
}

const LETTERS: &[u8] = &[b'a'; 1_024];

const FEEDS: &[u8] = &[b'\n'; 1_024];

/// A piece that comes so often on a link, what stands before and behind, and the lines: a `|` tells where the piece ends.
struct Endless {
    front: &'static [u8],
    piece: &'static [u8],
    turns: usize,
    end: &'static [u8],
    lines: &'static [u8],
}

const LINE: Endless = Endless {
    front: b"",
    piece: LETTERS,
    turns: 10_000,
    end: b"\nb\n",
    lines: b"|L\nPb\n",
};

const BLOCK: Endless = Endless {
    front: b"a\xFF\xFA",
    piece: FEEDS,
    turns: 1_000,
    end: b"\xFF\xFF\xF0\xFF\xF0b\n",
    lines: b"|Pab\n",
};

/// Feeds what comes on the link, and takes the lines that have come each time: three at most.
fn feed_link(reader: &mut LineReader, link: &Endless, lines: &mut Vec<u8>) -> Result<(), NoMemory> {
    feed(reader, link.front, 3, lines)?;
    for _turn in 0..link.turns {
        feed(reader, link.piece, 3, lines)?;
    }
    lines.push(b'|')?;
    feed(reader, link.end, 3, lines)
}

fn put_lines(alloc: Global, link: &Endless, lines: &mut Vec<u8>) -> Result<(), NoMemory> {
    let mut reader = LineReader::new(alloc)?;
    feed_link(&mut reader, link, lines)
}

fn has_its_lines(alloc: Global, link: &Endless) -> Result<bool, NoMemory> {
    let mut lines = Vec::new(alloc);
    put_lines(alloc, link, &mut lines)?;
    Ok(lines.as_slice() == link.lines)
}

#[test]
fn endless_line(rt: HostRuntime) -> Result<(), Fail> {
    assert!(rt; has_its_lines(rt.alloc(), &LINE)?);
    Ok(())
}

#[test]
fn endless_block(rt: HostRuntime) -> Result<(), Fail> {
    assert!(rt; has_its_lines(rt.alloc(), &BLOCK)?);
    Ok(())
}
