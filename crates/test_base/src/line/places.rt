//! Each byte at each place of a line.

use crate::line::telling::{Feeding, told};
use memory::NoMemory;
use std::alloc::Global;
use std::test::Fail;

/// The letters of the line.
const LETTERS: &[u8] = b"wxyz";

/// Whether these are the lines of `wxyz`, LF, `b`, LF, where `byte` stands in place of the letter at `place`, by the
/// rules.
fn are_right(lines: &[u8], place: usize, byte: u8) -> bool {
    let (front, rest) = LETTERS.split_at(place.min(LETTERS.len()));
    match byte {
        0 | b'\n' | b'\r' | 0x20..=0x7E | 0xFF => is_plain(lines, front, behind(rest), byte),
        _ => lines == b"B\nPb\n".as_slice(),
    }
}

/// The bytes behind the first one.
fn behind(bytes: &[u8]) -> &[u8] {
    match bytes {
        [_, rest @ ..] => rest,
        [] => bytes,
    }
}

/// Whether a plain line comes first, with the letters before the byte.
fn is_plain(lines: &[u8], front: &[u8], back: &[u8], byte: u8) -> bool {
    match behind(lines).strip_prefix(front) {
        Some(left) => lines.starts_with(b"P") && is_left(left, back, byte),
        None => false,
    }
}

/// Whether these are the lines from the byte on, with the letters behind it.
fn is_left(left: &[u8], back: &[u8], byte: u8) -> bool {
    match byte {
        b'\n' => left.starts_with(b"\nP") && is_end(behind(behind(left)), back),
        b'\r' | 0 => is_end(left, back),
        // it takes the byte behind it, which is a letter or the line feed
        0xFF if back.is_empty() => left == b"b\n".as_slice(),
        0xFF => is_end(left, behind(back)),
        _ => left.starts_with(&[byte]) && is_end(behind(left), back),
    }
}

/// Whether a line ends with these letters, and the second line follows.
fn is_end(left: &[u8], letters: &[u8]) -> bool {
    left.strip_prefix(letters) == Some(b"\nPb\n".as_slice())
}

/// The first place and byte with other lines, if there are such.
fn first_wrong_byte(alloc: Global) -> Result<Option<(usize, u8)>, NoMemory> {
    for place in 0..LETTERS.len() {
        for byte in 0..=255 {
            if !is_read(alloc, place, byte)? {
                return Ok(Some((place, byte)));
            }
        }
    }
    Ok(None)
}

fn is_read(alloc: Global, place: usize, byte: u8) -> Result<bool, NoMemory> {
    let mut text = *b"wxyz\nb\n";
    if let Some(letter) = text.get_mut(place) {
        *letter = byte;
    }
    let lines = told(alloc, &text, Feeding::Cut(place))?;
    Ok(are_right(&lines, place, byte))
}

#[test]
fn each_byte(rt: HostRuntime) -> Result<(), Fail> {
    assert_eq!(rt; first_wrong_byte(rt.alloc())?, None);
    Ok(())
}
