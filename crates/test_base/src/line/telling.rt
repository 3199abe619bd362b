//! What a reader gives, told as text: a letter for the kind of line, its stamp and its text, and a line feed.

use fics_words::write_number;
use line_reader::{Incoming, LineReader};
use memory::NoMemory;
use std::alloc::Global;

/// How a text is fed.
#[derive(Clone, Copy)]
pub enum Feeding {
    /// In two pieces, the second from a place on.
    Cut(usize),
    ByteByByte,
}

/// The lines of a text, and then the rest behind a `>`.
pub fn told(alloc: Global, text: &[u8], feeding: Feeding) -> Result<Vec<u8>, NoMemory> {
    let mut told = Vec::new(alloc);
    tell_text(alloc, text, feeding, true, &mut told)?;
    Ok(told)
}

/// Whether a text is told so.
pub fn is_told(
    alloc: Global,
    text: &[u8],
    feeding: Feeding,
    lines: &[u8],
) -> Result<bool, NoMemory> {
    let told = told(alloc, text, feeding)?;
    Ok(told.as_slice() == lines)
}

/// Whether the whole lines of a text are told so.
pub fn has_lines(
    alloc: Global,
    text: &[u8],
    feeding: Feeding,
    lines: &[u8],
) -> Result<bool, NoMemory> {
    let mut told = Vec::new(alloc);
    tell_text(alloc, text, feeding, false, &mut told)?;
    Ok(told.as_slice() == lines)
}

fn tell_text(
    alloc: Global,
    text: &[u8],
    feeding: Feeding,
    with_rest: bool,
    told: &mut Vec<u8>,
) -> Result<(), NoMemory> {
    let mut reader = LineReader::new(alloc)?;
    tell_all(&mut reader, text, feeding, with_rest, told)
}

fn tell_all(
    reader: &mut LineReader,
    text: &[u8],
    feeding: Feeding,
    with_rest: bool,
    told: &mut Vec<u8>,
) -> Result<(), NoMemory> {
    match feeding {
        Feeding::Cut(cut) => feed_cut(reader, text, cut, told)?,
        Feeding::ByteByByte => feed_bytes(reader, text, told)?,
    }
    if with_rest {
        tell_rest(reader, told)?;
    }
    Ok(())
}

fn feed_cut(
    reader: &mut LineReader,
    text: &[u8],
    cut: usize,
    told: &mut Vec<u8>,
) -> Result<(), NoMemory> {
    let (front, back) = text.split_at(cut.min(text.len()));
    feed(reader, front, front.len(), told)?;
    feed(reader, back, text.len(), told)
}

fn feed_bytes(reader: &mut LineReader, text: &[u8], told: &mut Vec<u8>) -> Result<(), NoMemory> {
    for byte in text {
        feed(reader, &[*byte], 2, told)?;
    }
    Ok(())
}

/// Feeds a piece, and takes the lines that have come: at most `most`, and `None` behind them.
pub fn feed(
    reader: &mut LineReader,
    piece: &[u8],
    most: usize,
    told: &mut Vec<u8>,
) -> Result<(), NoMemory> {
    reader.feed(piece)?;
    for _turn in 0..most {
        if !tell_next(reader, told)? {
            return Ok(());
        }
    }
    Ok(())
}

/// Tells the next line, and says whether there is one.
fn tell_next(reader: &mut LineReader, told: &mut Vec<u8>) -> Result<bool, NoMemory> {
    let next = reader.next()?;
    tell_found(&next, b"", told)
}

fn tell_rest(reader: &LineReader, told: &mut Vec<u8>) -> Result<bool, NoMemory> {
    let rest = reader.rest()?;
    tell_found(&rest, b">", told)
}

/// Tells a line behind a mark, where there is one.
fn tell_found(found: &Option<Incoming>, mark: &[u8], told: &mut Vec<u8>) -> Result<bool, NoMemory> {
    let Some(incoming) = found else {
        return Ok(false);
    };
    told.extend_from_slice(mark)?;
    tell(incoming, told)?;
    Ok(true)
}

fn tell(incoming: &Incoming, told: &mut Vec<u8>) -> Result<(), NoMemory> {
    match incoming {
        Incoming::Plain(line) => put(told, b'P', line.bytes()),
        Incoming::Stamped(line, stamp) => put_stamped(told, *stamp, line.bytes()),
        Incoming::Ack(stamp) => put_ack(told, *stamp),
        Incoming::TooLong => put(told, b'L', b""),
        Incoming::BadByte => put(told, b'B', b""),
    }
}

/// Appends a letter, a text and a line feed.
fn put(told: &mut Vec<u8>, letter: u8, text: &[u8]) -> Result<(), NoMemory> {
    told.push(letter)?;
    told.extend_from_slice(text)?;
    told.push(b'\n')?;
    Ok(())
}

fn put_stamped(told: &mut Vec<u8>, stamp: u32, text: &[u8]) -> Result<(), NoMemory> {
    told.push(b'S')?;
    write_number(told, u64::from(stamp))?;
    put(told, b' ', text)
}

fn put_ack(told: &mut Vec<u8>, stamp: u32) -> Result<(), NoMemory> {
    told.push(b'A')?;
    write_number(told, u64::from(stamp))?;
    told.push(b'\n')?;
    Ok(())
}
