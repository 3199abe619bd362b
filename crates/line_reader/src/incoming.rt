//! One line as it is read.
ghost use Rattle.std.specs.Prelude.{◌≡◌, IfOk};
ghost use Rattle.line_reader.specs.Reading.{is_stamped, plain_reading, incoming_of, rest_reading, said, stamped_reading};
ghost use Rattle.stamp_codec.specs.Opening.{opened};

use fics_words::{Line, MOST_LINE_BYTES};
use memory::NoMemory;
use stamp_codec::{Sealed, unseal};
use std::alloc::Global;

/// The most bytes of a stamped line, with its closing 0x80.
const MOST_STAMPED: usize = 1_033;

/// The byte at the end of a stamped line.
const CLOSING: u8 = 0x80;

/// A line that came over a link.
#[derive(Drop)]
pub enum Incoming {
    /// A line of at most 1,023 bytes, each from 0x20 to 0x7E.
    Plain(Line),
    /// A stamped line: its text, and the client's stamp in milliseconds, below 10,000,000.
    Stamped(Line, u32),
    /// A stamped acknowledgement: its stamp.
    Ack(u32),
    /// More than 1,023 bytes, or more than 1,033 where the line ends in 0x80.
    TooLong,
    /// A byte outside 0x20 to 0x7E, or a line that ends in 0x80 and is no stamped line.
    BadByte,
}

/// Reads a line, which is handed in without its LF.
pub(crate) fn read_line(alloc: Global, line: &[u8]) -> Result<Incoming, NoMemory>
    ensures { IfOk result (λ incoming. incoming ≡ incoming_of line.now) }
{
    if is_stamped(line) {
        return read_stamped(alloc, line);
    }
    read_plain(alloc, line)
}

/// Reads what is left at the end: a line where it isn't empty.
pub(crate) fn read_rest(alloc: Global, line: &[u8]) -> Result<Option<Incoming>, NoMemory>
    ensures { IfOk result (λ rest. rest ≡ rest_reading line.now) }
{
    if line.is_empty() {
        return Ok(None);
    }
    match read_line(alloc, line) {
        Ok(incoming) => Ok(Some(incoming)),
        Err(want) => Err(want),
    }
}

fn is_stamped(line: &[u8]) -> bool
    ensures { result ≡ is_stamped line.now }
{
    match line.last() {
        Some(last) => *last == CLOSING,
        None => false,
    }
}

fn read_plain(alloc: Global, line: &[u8]) -> Result<Incoming, NoMemory>
    ensures { IfOk result (λ incoming. incoming ≡ plain_reading line.now) }
{
    if line.len() > MOST_LINE_BYTES {
        return Ok(Incoming::TooLong);
    }
    match Line::read(alloc, line) {
        Ok(Some(text)) => Ok(Incoming::Plain(text)),
        Ok(None) => Ok(Incoming::BadByte),
        Err(want) => Err(want),
    }
}

fn read_stamped(alloc: Global, line: &[u8]) -> Result<Incoming, NoMemory>
    ensures { IfOk result (λ incoming. incoming ≡ stamped_reading line.now) }
{
    if line.len() > MOST_STAMPED {
        return Ok(Incoming::TooLong);
    }
    let mut space = [0; MOST_STAMPED];
    let raw = &mut space[..line.len()];
    raw.copy_from_slice(line);
    open_line(alloc, raw)
}

/// Reads a stamped line in place.
fn open_line(alloc: Global, raw: &mut [u8]) -> Result<Incoming, NoMemory>
    ensures { IfOk result (λ incoming. incoming ≡ said (opened raw.old)) }
{
    match unseal(raw) {
        Some(Sealed::Text { text, stamp }) => match Line::read(alloc, text) {
            Ok(Some(line)) => Ok(Incoming::Stamped(line, stamp)),
            Ok(None) => Ok(Incoming::BadByte),
            Err(want) => Err(want),
        },
        Some(Sealed::Ack { stamp }) => Ok(Incoming::Ack(stamp)),
        None => Ok(Incoming::BadByte),
    }
}
