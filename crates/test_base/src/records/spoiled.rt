//! Texts that are no records, and some that hardly are.

use crate::records::outcome::{Outcome, is_nothing, is_same, reading};
use crate::records::texts::{ANN, CHESS, CRAZYHOUSE, FISCHER, PAIR};
use memory::NoMemory;
use std::alloc::Global;
use std::test::Fail;
use test_steps::limits::HALF_MOVES;
use test_steps::{assert_rows, least_wrong};

const TEXTS: &[&[u8]] = &[ANN, CHESS, PAIR, FISCHER, CRAZYHOUSE];

/// A text, and whether it is a record.
type Row = (&'static [u8], bool);

const ROWS: &[Row] = &[
    (b"", false),
    (b"\x00", false),
    // both players have one name
    (b"\x01\x47\x00\x00\x00\x00\x00\x03Ann\x03Ann\x00\x00", true),
    // the second board of a pair, and a third one
    (
        b"\x02\x47\x02\x00\x00\x00\x00\x03Ann\x03Ben\x03Cat\x03Dan\x00\x01\x02\x18\xe0\x00",
        true,
    ),
    (
        b"\x02\x47\x02\x00\x00\x00\x00\x03Ann\x03Ben\x03Cat\x03Dan\x00\x01\x03\x18\xe0\x00",
        false,
    ),
    (
        b"\x02\x47\x02\x00\x00\x00\x00\x03Ann\x03Ben\x03Cat\x03Dan\x00\x01\x00\x18\xe0\x00",
        false,
    ),
    // a pair under the variant of one board, and one board under that of a pair
    (b"\x02\x47\x00\x00\x00\x00\x00\x03Ann\x03Ben\x00\x00", false),
    (b"\x01\x47\x02\x00\x00\x00\x00\x03Ann\x03Ben\x00\x00", false),
    // the arrays 959 and 960 of Fischer random
    (
        b"\x03\x47\x03\xbf\x00\x00\x00\x00\x03Ann\x03Ben\x00\x00",
        true,
    ),
    (
        b"\x03\x47\x03\xc0\x00\x00\x00\x00\x03Ann\x03Ben\x00\x00",
        false,
    ),
    // 600 and 601 minutes, and seconds
    (b"\x01\x47\x00\x02\x58\x02\x58\x03Ann\x03Ben\x00\x00", true),
    (b"\x01\x47\x00\x02\x59\x00\x00\x03Ann\x03Ben\x00\x00", false),
    (b"\x01\x47\x00\x00\x00\x02\x59\x03Ann\x03Ben\x00\x00", false),
    // a name of two letters, and one with a digit
    (b"\x01\x47\x00\x00\x00\x00\x00\x02An\x03Ben\x00\x00", false),
    (b"\x01\x47\x00\x00\x00\x00\x00\x03An1\x03Ben\x00\x00", false),
    // what no pawn becomes, no castling, and what isn't dropped
    (
        b"\x01\x47\x00\x00\x00\x00\x00\x03Ann\x03Ben\x00\x01\x61\xc5\x00",
        false,
    ),
    (
        b"\x01\x47\x00\x00\x00\x00\x00\x03Ann\x03Ben\x00\x01\x80\x02\x00",
        false,
    ),
    (
        b"\x01\x47\x00\x00\x00\x00\x00\x03Ann\x03Ben\x00\x01\x82\x3f\x00",
        true,
    ),
    (
        b"\x01\x47\x00\x00\x00\x00\x00\x03Ann\x03Ben\x00\x01\x82\x40\x00",
        false,
    ),
    // a charge that begins at 2 and ends at 2, and one that ends at 1
    (
        b"\x01\x47\x00\x00\x00\x00\x00\x03Ann\x03Ben\x00\x01\x18\xe0\x01\
            \x00\x00\x00\x00\x00\x00\x00\x02\x00\x00\x00\x00\x00\x00\x00\x02",
        true,
    ),
    (
        b"\x01\x47\x00\x00\x00\x00\x00\x03Ann\x03Ben\x00\x01\x18\xe0\x01\
            \x00\x00\x00\x00\x00\x00\x00\x02\x00\x00\x00\x00\x00\x00\x00\x01",
        false,
    ),
    // one that ends behind 2^48, one with a stamp of 10,000,000, and one with another mark
    (
        b"\x01\x47\x00\x00\x00\x00\x00\x03Ann\x03Ben\x00\x01\x18\xe0\x01\
            \x00\x00\x00\x00\x00\x00\x00\x02\x00\x01\x00\x00\x00\x00\x00\x01",
        false,
    ),
    (
        b"\x01\x47\x00\x00\x00\x00\x00\x03Ann\x03Ben\x00\x01\x18\xe0\x02\
            \x00\x00\x00\x00\x00\x00\x00\x02\x00\x00\x00\x00\x00\x00\x00\x03\x00\x00\x00\x00\x00\x98\x96\x80",
        false,
    ),
    (
        b"\x01\x47\x00\x00\x00\x00\x00\x03Ann\x03Ben\x00\x01\x18\xe0\x03\
            \x00\x00\x00\x00\x00\x00\x00\x02\x00\x00\x00\x00\x00\x00\x00\x03\x00\x00\x00\x00\x00\x98\x96\x7f",
        false,
    ),
];

/// Whether the text is a record that is written so, or none.
fn is_read_so(alloc: Global, text: &[u8], good: bool) -> Result<bool, NoMemory> {
    if good {
        is_same(alloc, text)
    } else {
        is_nothing(alloc, text)
    }
}

#[test]
fn written_out(rt: HostRuntime) -> Result<(), Fail> {
    assert_rows!(rt; ROWS, |(text, good)| is_read_so(rt.alloc(), text, *good)?);
    Ok(())
}

/// Whether the text is a record, each part of it from its front is none, and neither is it with a byte behind it.
fn is_whole(alloc: Global, text: &[u8]) -> Result<bool, NoMemory> {
    for end in 0..text.len() {
        if !is_nothing(alloc, &text[..end])? {
            return Ok(false);
        }
    }
    if !is_same(alloc, text)? {
        return Ok(false);
    }
    is_nothing_lengthened(alloc, text)
}

fn is_nothing_lengthened(alloc: Global, text: &[u8]) -> Result<bool, NoMemory> {
    let mut longer = Vec::new(alloc);
    put_lengthened(&mut longer, text)?;
    is_nothing(alloc, &longer)
}

/// Puts the text with a byte behind it.
fn put_lengthened(bytes: &mut Vec<u8>, text: &[u8]) -> Result<(), NoMemory> {
    bytes.extend_from_slice(text)?;
    bytes.push(0)?;
    Ok(())
}

#[test]
fn cut_and_lengthened(rt: HostRuntime) -> Result<(), Fail> {
    assert_rows!(rt; TEXTS, |text| is_whole(rt.alloc(), text)?);
    Ok(())
}

/// The text with the byte at a place turned by a mask.
fn turned(alloc: Global, text: &[u8], place: usize, mask: u8) -> Result<Vec<u8>, NoMemory> {
    let mut bytes = Vec::from_slice(alloc, text)?;
    if let Some(byte) = bytes.get_mut(place) {
        *byte ^= mask;
    }
    Ok(bytes)
}

/// The texts of which each byte is turned.
const TURNED: &[&[u8]] = &[CHESS, PAIR, FISCHER];

/// Whether the text, with the byte at a place turned by a mask, is no record or one that is written so.
fn is_spelled(alloc: Global, text: &[u8], place: usize, mask: u8) -> Result<bool, NoMemory> {
    let bytes = turned(alloc, text, place, mask)?;
    Ok(!is_other(reading(alloc, &bytes)?))
}

fn is_other(outcome: Outcome) -> bool {
    matches!(outcome, Outcome::Other)
}

/// Whether the text, with the byte at a place turned in any way, is no record or one that is written so.
fn is_spelled_at(alloc: Global, text: &[u8], place: usize) -> Result<bool, NoMemory> {
    for mask in 1..=255 {
        if !is_spelled(alloc, text, place, mask)? {
            return Ok(false);
        }
    }
    Ok(true)
}

/// The place of the first byte that can be turned so that what is read is written otherwise.
fn first_misread(alloc: Global, text: &[u8]) -> Result<Option<usize>, NoMemory> {
    Ok(least_wrong!(0..text.len(), |place| is_spelled_at(alloc, text, place)?))
}

#[test]
fn turned_bytes(rt: HostRuntime) -> Result<(), Fail> {
    assert_rows!(rt; TURNED, |text| first_misread(rt.alloc(), text)?.is_none());
    Ok(())
}

/// Puts a beginning with a count and so many texts behind it.
fn put_counted(bytes: &mut Vec<u8>, row: &Count) -> Result<(), NoMemory> {
    bytes.extend_from_slice(row.0)?;
    bytes.extend_from_slice(&row.1.to_be_bytes())?;
    for _time in 0..row.3 {
        bytes.extend_from_slice(row.2)?;
    }
    Ok(())
}

const TWO: &[u8] = b"\x01\x47\x00\x00\x00\x00\x00\x03Ann\x03Ben";

const FOUR: &[u8] = b"\x02\x47\x02\x00\x00\x00\x00\x03Ann\x03Ben\x03Cat\x03Dan";

/// A beginning, a count, a text, how often it stands, and whether that is a record: a board has at most 1,200
/// half-moves, which are 2,400 for a pair.
type Count = (&'static [u8], u16, &'static [u8], u16, bool);

const COUNTS: &[Count] = &[
    (TWO, HALF_MOVES, HALF, HALF_MOVES, true),
    (TWO, HALF_MOVES + 1, HALF, HALF_MOVES + 1, false),
    (TWO, HALF_MOVES, HALF, HALF_MOVES - 1, false),
    (TWO, 65_535, HALF, HALF_MOVES, false),
    (FOUR, 2 * HALF_MOVES, HALVES, HALF_MOVES, true),
    (FOUR, 2 * HALF_MOVES + 2, HALVES, HALF_MOVES + 1, false),
    (FOUR, HALF_MOVES, FIRST, HALF_MOVES, true),
    (FOUR, HALF_MOVES + 1, FIRST, HALF_MOVES + 1, false),
    (FOUR, HALF_MOVES + 1, SECOND, HALF_MOVES + 1, false),
];

/// A half-move of one board, of the first and of the second board of a pair, and of both.
const HALF: &[u8] = b"\x18\xe0\x00";

const FIRST: &[u8] = b"\x01\x18\xe0\x00";

const SECOND: &[u8] = b"\x02\x18\xe0\x00";

const HALVES: &[u8] = b"\x01\x18\xe0\x00\x02\x18\xe0\x00";

/// Whether the text of a row is read as the row says.
fn is_counted(alloc: Global, row: &Count) -> Result<bool, NoMemory> {
    let mut text = Vec::new(alloc);
    put_counted(&mut text, row)?;
    is_read_so(alloc, &text, row.4)
}

#[test]
fn counts(rt: HostRuntime) -> Result<(), Fail> {
    assert_rows!(rt; COUNTS, |row| is_counted(rt.alloc(), row)?);
    Ok(())
}
