//! How a transcript shows what is written to a session.

ghost use Rattle.std.specs.Prelude.{◌≡◌, ◌∷◌, ◌++◌, IfOk, IfNone, IfSome, OnOk, filter};
ghost use Rattle.fics_words.specs.Pieces.{is_kept, pieces};
ghost use Rattle.cmd_lines.specs.Lines.{HasNoLineFeed};
ghost use Rattle.cmd_replay.specs.Tagged.{shown, tagged, tagged_line, tagged_lines};

use fics_words::write_number;
use memory::NoMemory;
use std::alloc::Global;

/// Appends what is shown of bytes that are written to a session: their lines, each behind the session's number.
pub fn put_tagged(session: u32, bytes: &[u8], out: &mut Vec<u8>) -> Result<(), NoMemory>
    ensures { OnOk result (out.new.items ≡ out.old.items ++ tagged session bytes.now) }
{
    let kept = kept_of(*out.allocator(), bytes)?;
    put_lines(session, kept.as_slice(), out)
}

/// The bytes that lines have, and the line feeds between them.
fn kept_of(alloc: Global, bytes: &[u8]) -> Result<Vec<u8>, NoMemory>
    ensures { IfOk result (λ kept. kept.items ≡ filter is_kept bytes.now) }
{
    let mut kept = Vec::new(alloc);
    for byte in bytes {
        if is_kept(*byte) {
            kept.push(*byte)?;
        }
    }
    Ok(kept)
}

/// Whether lines have the byte.
fn is_kept(byte: u8) -> bool
    ensures { result ≡ is_kept byte }
{
    byte != b'\r' && byte != 0
}

/// Appends the lines of a text, each behind the session's number; an empty one at the end isn't shown.
fn put_lines(session: u32, text: &[u8], out: &mut Vec<u8>) -> Result<(), NoMemory>
    ensures { OnOk result (out.new.items ≡ out.old.items ++ tagged_lines session (shown (pieces text.now))) }
{
    let mut rest = text;
    while let Some((line, after)) = cut_line(rest) {
        put_line(session, line, out)?;
        rest = after;
    }
    if rest.is_empty() {
        return Ok(());
    }
    put_line(session, rest, out)
}

/// The bytes before the first line feed, and what follows it; none where there is no line feed.
fn cut_line(bytes: &[u8]) -> Option<(&[u8], &[u8])>
    ensures parts { IfSome result (λ parts. bytes.now ≡ parts.0.now ++ 10 ∷ parts.1.now) }
    ensures line { IfSome result (λ parts. HasNoLineFeed parts.0.now) }
    ensures none { IfNone result (HasNoLineFeed bytes.now) }
{
    let place = bytes.iter().position(|byte| *byte == b'\n')?;
    Some((&bytes[..place], &bytes[place + 1..]))
}

/// Appends a line behind the session's number.
fn put_line(session: u32, line: &[u8], out: &mut Vec<u8>) -> Result<(), NoMemory>
    ensures { OnOk result (out.new.items ≡ out.old.items ++ tagged_line session line.now) }
{
    write_number(out, u64::from(session))?;
    out.extend_from_slice(b"|")?;
    out.extend_from_slice(line)?;
    out.extend_from_slice(b"\n")?;
    Ok(())
}
