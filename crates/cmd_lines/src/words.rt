//! A line cut at its first blank, and the line of a refusal.

ghost use Rattle.std.specs.Prelude.{◌≡◌, ◌<◌, ◌++◌, IfSome, OnOk, length};
ghost use Rattle.std.specs.List.{after_first, before_first, position};
ghost use Rattle.fics_words.specs.Blank.{is_blank};
ghost use Rattle.cmd_lines.specs.Words.{refusal_text};

use fics_words::{Refusal, write_refusal};
use memory::NoMemory;

/// The bytes before the first blank, and those behind it; all and none where there is no blank.
pub fn cut(bytes: &[u8]) -> (&[u8], &[u8])
    ensures word { result.0.now ≡ before_first is_blank bytes.now }
    ensures rest { result.1.now ≡ after_first is_blank bytes.now }
{
    match first_blank(bytes) {
        Some(place) => (&bytes[..place], &bytes[place + 1..]),
        None => (bytes, &[]),
    }
}

/// The place of the first blank.
fn first_blank(bytes: &[u8]) -> Option<usize>
    ensures place { result ≡ position is_blank bytes.now }
    ensures within { IfSome result (λ place. place < length bytes.now) }
{
    bytes.iter().position(|byte| *byte == b' ')
}

/// Appends the line of a refusal: its number and its name.
pub fn put_refusal(cause: Refusal, out: &mut Vec<u8>) -> Result<(), NoMemory>
    ensures { OnOk result (out.new.items ≡ out.old.items ++ refusal_text cause) }
{
    write_refusal(out, cause)?;
    out.extend_from_slice(b"\n")?;
    Ok(())
}
