//! The same lines, however the bytes are cut.

use crate::line::telling::{Feeding, has_lines, is_told};
use memory::NoMemory;
use std::alloc::Global;
use std::test::Fail;
use test_steps::{assert_rows, least_wrong};

/// A link's bytes: telnet units, a stamped line, an acknowledgement, a spoiled stamped line, and an open end.
const LINK: &[u8] = b"\xFF\xFD\x01gu\xFF\xFB\x0Aest\r\n\
    \xC5\xD1\xBC\xDC\xA2\xA5\xB0\xBC\xA1\x70\x79\x87\x80\n\
    \xC4\xD1\xBC\xDC\xA2\xA5\xB0\xBC\xA1\x70\x79\x87\x80\n\
    e2\xFF\xFA\x18\xFF\xFF\xF0\n\xFF\xF1x\xFF\xF0e4\0\r\n\n\xFF\xFF\nfl\xFF\xF4ag";

const LINES: &[u8] = b"Pguest\nS0 a\nB\nPe2e4\nP\nB\n>Pflag\n";

/// A text, and the lines of it and of what is left of it, however it is cut.
type Row = (&'static [u8], &'static [u8]);

const ROWS: &[Row] = &[
    (LINK, LINES),
    (b"", b""),
    (b"a", b">Pa\n"),
    (b"a\r", b">Pa\n"),
    (b"\r\0", b""),
    (b"a\n", b"Pa\n"),
    (b"a\n\n", b"Pa\nP\n"),
    (b"a\xFF", b">Pa\n"),
    (b"a\xFF\xFB", b">Pa\n"),
    (b"a\xFF\xFB\n", b">Pa\n"),
    (b"a\xFF\xFA\n\n\n", b">Pa\n"),
    (b"a\xFF\xFA\n\xFF\n\xFF\xFF\xF0\n", b">Pa\n"),
    (b"a\xFF\xFA\n\xFF\n\xFF\xFF\xFF\xF0\n", b"Pa\n"),
    (b"a\xFF\n\n", b"Pa\n"),
    (b"\x80", b">B\n"),
    (b"\x80\n", b"B\n"),
    (b"a\tb\nc\n", b"B\nPc\n"),
    (b"fl\xFF\xFD\x01ag\n", b"Pflag\n"),
];

/// Where the row, cut in two, has other lines, if there is such a place.
fn first_wrong_cut(alloc: Global, row: &(&[u8], &[u8])) -> Result<Option<usize>, NoMemory> {
    Ok(least_wrong!(
        0..=row.0.len(),
        |cut| is_told(alloc, row.0, Feeding::Cut(cut), row.1)?
    ))
}

#[test]
fn each_cut(rt: HostRuntime) -> Result<(), Fail> {
    assert_rows!(rt; ROWS, |row| first_wrong_cut(rt.alloc(), row)?.is_none());
    Ok(())
}

/// A session's bytes in parts, each with the line that its last byte ends, worked out from the rules.
const SESSION: &[(&[u8], &[u8])] = &[
    (b"\xFF\xFD\x01gu\xFF\xFB\x0Aest\r\n", b"Pguest\n"),
    (
        b"\xC5\xD1\xBC\xDC\xA2\xA5\xB0\xBC\xA1\x70\x79\x87\x80\n",
        b"S0 a\n",
    ),
    (
        b"\xC5\xB0\xB4\xBC\xAA\xAD\xB8\xB4\xA9\x98\x91\xA4\x80\n",
        b"A9999999\n",
    ),
    (b"ma\0tch Ben\r\n", b"Pmatch Ben\n"),
    (b"\xFF\xFA\n\xFF\xFF\xF0\n\xFF\xF0e4\n", b"Pe4\n"),
    (b"\r\n", b"P\n"),
    (b"e\xFF\xFF5\n", b"B\n"),
    (b"\xFF\xF9quit\n", b"Pquit\n"),
];

/// Puts the bytes, or the lines, of the parts that end within the first `end` bytes.
fn put_parts(given: &mut Vec<u8>, lines: bool, end: usize) -> Result<(), NoMemory> {
    let mut left = end;
    for (bytes, line) in SESSION {
        if bytes.len() > left {
            return Ok(());
        }
        left -= bytes.len();
        given.extend_from_slice(if lines { line } else { bytes })?;
    }
    Ok(())
}

fn parts(alloc: Global, lines: bool, end: usize) -> Result<Vec<u8>, NoMemory> {
    let mut given = Vec::new(alloc);
    put_parts(&mut given, lines, end)?;
    Ok(given)
}

/// Whether the lines of this text are those, fed in two pieces, however it is cut, and byte by byte.
fn are_lines(alloc: Global, text: &[u8], lines: &[u8]) -> Result<bool, NoMemory> {
    for cut in 0..=text.len() {
        if !has_lines(alloc, text, Feeding::Cut(cut), lines)? {
            return Ok(false);
        }
    }
    has_lines(alloc, text, Feeding::ByteByByte, lines)
}

/// Whether the first `end` bytes of a text give the lines of the parts that end in them.
fn is_prefix_told(alloc: Global, text: &[u8], end: usize) -> Result<bool, NoMemory> {
    let wanted = parts(alloc, true, end)?;
    are_lines(alloc, text.split_at(end.min(text.len())).0, &wanted)
}

/// The length of the first prefix of a text with other lines, if there is one.
fn first_wrong_prefix(alloc: Global, text: &[u8]) -> Result<Option<usize>, NoMemory> {
    Ok(least_wrong!(0..=text.len(), |end| is_prefix_told(alloc, text, end)?))
}

fn first_wrong_end(alloc: Global) -> Result<Option<usize>, NoMemory> {
    let text = parts(alloc, false, usize::MAX)?;
    first_wrong_prefix(alloc, &text)
}

#[test]
fn each_prefix_however_it_is_cut(rt: HostRuntime) -> Result<(), Fail> {
    assert_eq!(rt; first_wrong_end(rt.alloc())?, None);
    Ok(())
}
