//! Stamped lines that another program has worked out.

use memory::NoMemory;
use stamp_codec::{Sealed, seal, span, unseal};
use std::alloc::Global;
use std::test::Fail;
use test_steps::assert_rows;

/// The letter `a` with stamp 0.
const LETTER: &[u8] = b"\xC5\xD1\xBC\xDC\xA2\xA5\xB0\xBC\xA1\x70\x79\x87\x80\n";

/// The empty text with stamp 0.
const EMPTY: &[u8] = b"\xC5\xB9\xBC\xB4\xA2\xA5\xB0\xBC\xA1\x99\x79\xBE\x80\n";

/// `tell bob hi ~` with stamp 1234567.
const TELL: &[u8] =
    b"\xD4\x6C\x65\x69\x71\x76\x6E\xAD\xB0\xAC\xA1\x92\xD8\xBB\xAA\x7B\x76\xA2\x64\x7D\x67\x71\x7C\xBE\x80\n";

/// The acknowledgement with stamp 9999999.
const ACK: &[u8] = b"\xC5\xB0\xB4\xBC\xAA\xAD\xB8\xB4\xA9\x98\x91\xA4\x80\n";

/// The letter with its first byte spoiled.
const SPOILED: &[u8] = b"\xC4\xD1\xBC\xDC\xA2\xA5\xB0\xBC\xA1\x70\x79\x87\x80\n";

/// What a line is read as.
enum Read {
    Text(&'static [u8], u32),
    Ack(u32),
    Nothing,
}

const ROWS: &[(&[u8], Read)] = &[
    (LETTER, Read::Text(b"a", 0)),
    (EMPTY, Read::Text(b"", 0)),
    (TELL, Read::Text(b"tell bob hi ~", 1_234_567)),
    (ACK, Read::Ack(9_999_999)),
    (SPOILED, Read::Nothing),
];

/// Whether this was found.
fn is_found(found: Option<Sealed<'_>>, wanted: &Read) -> bool {
    match (found, wanted) {
        (Some(Sealed::Text { text, stamp }), Read::Text(words, at)) => {
            text == *words && stamp == *at
        }
        (Some(Sealed::Ack { stamp }), Read::Ack(at)) => stamp == *at,
        (None, Read::Nothing) => true,
        _ => false,
    }
}

fn is_read(alloc: Global, line: &[u8], wanted: &Read) -> Result<bool, NoMemory> {
    let mut raw = Vec::from_slice(alloc, line.strip_suffix(b"\n").unwrap_or(line))?;
    Ok(is_found(unseal(&mut raw), wanted))
}

#[test]
fn lines_are_unsealed(rt: HostRuntime) -> Result<(), Fail> {
    assert_rows!(rt; ROWS, |(line, wanted)| is_read(rt.alloc(), line, wanted)?);
    Ok(())
}

#[test]
fn sealed_letter(rt: HostRuntime) -> Result<(), Fail> {
    assert_eq!(rt; seal(rt.alloc(), b"a", 0)?.as_slice(), LETTER);
    Ok(())
}

#[test]
fn sealed_empty_text(rt: HostRuntime) -> Result<(), Fail> {
    assert_eq!(rt; seal(rt.alloc(), b"", 0)?.as_slice(), EMPTY);
    Ok(())
}

#[test]
fn sealed_tell(rt: HostRuntime) -> Result<(), Fail> {
    assert_eq!(rt;
        seal(rt.alloc(), b"tell bob hi ~", 1_234_567)?.as_slice(),
        TELL
    );
    Ok(())
}

#[test]
fn sealed_acknowledgement(rt: HostRuntime) -> Result<(), Fail> {
    assert_eq!(rt; seal(rt.alloc(), b"\x029", 9_999_999)?.as_slice(), ACK);
    Ok(())
}

#[test]
fn stamp_span(rt: HostRuntime) -> Result<(), Fail> {
    assert_eq!(rt; span(9_999_900, 100), 200);
    Ok(())
}
