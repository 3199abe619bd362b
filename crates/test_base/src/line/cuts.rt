//! Inputs that are cut after every byte: a line of the greatest length, a longer one and the line behind them, and
//! inputs that end in the middle of something.

use crate::line::telling::{Feeding, is_told};
use memory::NoMemory;
use std::alloc::Global;
use std::test::Fail;
use test_steps::assert_rows;
use test_steps::limits::LINE_BYTES;

/// So many letters, and the bytes behind them.
struct Part(usize, &'static [u8]);

/// An input, from which byte on it is cut, and its lines with what is left of it behind a `>`.
struct Row {
    input: &'static [Part],
    from: usize,
    lines: &'static [Part],
}

const ROWS: &[Row] = &[
    // a line of 1,023 bytes, one of 1,024, and the line behind it, with a telnet unit inside
    Row {
        input: &[
            Part(LINE_BYTES, b"\n"),
            Part(LINE_BYTES + 1, b"\nfl\xFF\xFD\x01ag\n"),
        ],
        from: 0,
        lines: &[Part(0, b"P"), Part(LINE_BYTES, b"\nL\nPflag\n")],
    },
    // the end inside a telnet unit, behind its first and its second byte
    Row {
        input: &[Part(3, b"\n"), Part(2, b"\xFF")],
        from: 0,
        lines: &[Part(0, b"P"), Part(3, b"\n>P"), Part(2, b"\n")],
    },
    Row {
        input: &[Part(3, b"\n"), Part(2, b"\xFF\xFD")],
        from: 0,
        lines: &[Part(0, b"P"), Part(3, b"\n>P"), Part(2, b"\n")],
    },
    // the end inside a block, which has line feeds, and inside what would end it
    Row {
        input: &[Part(2, b"\xFF\xFA\x18\nquit\n")],
        from: 0,
        lines: &[Part(0, b">P"), Part(2, b"\n")],
    },
    Row {
        input: &[Part(2, b"\xFF\xFA\x18\nquit\n\xFF")],
        from: 0,
        lines: &[Part(0, b">P"), Part(2, b"\n")],
    },
    // the end inside a stamped line, before and behind its last byte
    Row {
        input: &[Part(0, b"\xC5\xD1\xBC\xDC\xA2\xA5\xB0\xBC\xA1\x70\x79\x87")],
        from: 0,
        lines: &[Part(0, b">B\n")],
    },
    Row {
        input: &[Part(0, b"\xC5\xD1\xBC\xDC\xA2\xA5\xB0\xBC\xA1\x70\x79\x87\x80")],
        from: 0,
        lines: &[Part(0, b">S0 a\n")],
    },
    // the end behind the last byte that a line may have, and inside a line that is too long
    Row {
        input: &[Part(LINE_BYTES, b"")],
        from: 1_000,
        lines: &[Part(0, b">P"), Part(LINE_BYTES, b"\n")],
    },
    Row {
        input: &[Part(LINE_BYTES + 1, b"")],
        from: 1_000,
        lines: &[Part(0, b">L\n")],
    },
    Row {
        input: &[Part(2, b"\n"), Part(1_500, b"")],
        from: 1_000,
        lines: &[Part(0, b"P"), Part(2, b"\n>L\n")],
    },
];

/// Puts the bytes of the parts one after the other.
fn put_parts(bytes: &mut Vec<u8>, parts: &[Part]) -> Result<(), NoMemory> {
    for part in parts {
        put_letters(bytes, part.0)?;
        bytes.extend_from_slice(part.1)?;
    }
    Ok(())
}

fn put_letters(bytes: &mut Vec<u8>, count: usize) -> Result<(), NoMemory> {
    for _letter in 0..count {
        bytes.push(b'x')?;
    }
    Ok(())
}

fn bytes_of(alloc: Global, parts: &[Part]) -> Result<Vec<u8>, NoMemory> {
    let mut bytes = Vec::new(alloc);
    put_parts(&mut bytes, parts)?;
    Ok(bytes)
}

/// The first place at which a cut of this input gives other lines, if one does; behind all places, that it does byte by
/// byte.
fn first_wrong_cut(alloc: Global, row: &Row) -> Result<Option<usize>, NoMemory> {
    let input = bytes_of(alloc, row.input)?;
    first_wrong_cut_of(alloc, &input, row)
}

fn first_wrong_cut_of(alloc: Global, input: &[u8], row: &Row) -> Result<Option<usize>, NoMemory> {
    let lines = bytes_of(alloc, row.lines)?;
    first_wrong_from(alloc, input, row.from, &lines)
}

fn first_wrong_from(
    alloc: Global,
    input: &[u8],
    from: usize,
    lines: &[u8],
) -> Result<Option<usize>, NoMemory> {
    for cut in from..=input.len() {
        if !is_told(alloc, input, Feeding::Cut(cut), lines)? {
            return Ok(Some(cut));
        }
    }
    if !is_told(alloc, input, Feeding::ByteByByte, lines)? {
        return Ok(Some(usize::MAX));
    }
    Ok(None)
}

#[test]
fn inputs_cut_after_every_byte(rt: HostRuntime) -> Result<(), Fail> {
    assert_rows!(rt; ROWS, |row| first_wrong_cut(rt.alloc(), row)?.is_none());
    Ok(())
}
