//! Arguments of commands: texts and handles.

ghost use Rattle.std.specs.Prelude.{◌≡◌, ◌&&◌, nat_le, IfOk, Some, None, if◌then◌else◌};
ghost use Rattle.std.specs.List.{list_all};
ghost use Rattle.fics_words.specs.HandleTest.{handle_of};
ghost use Rattle.command_words.specs.Texts.{is_message_text};

use fics_words::{Handle, Line, MOST_TEXT_BYTES};
use memory::NoMemory;
use std::alloc::Global;

/// The handle that the bytes spell.
#[tactic(auto, using(fics_words::proofs::HandleTests::handle_is))]
pub(crate) fn handle_of(bytes: &[u8]) -> Option<Handle>
    ensures { result ≡ handle_of bytes.now }
{
    Handle::read(bytes)
}

/// Whether the bytes are a text: 1 to 800 printable ones.
pub(crate) fn is_text(bytes: &[u8]) -> bool
    ensures { result ≡ is_message_text bytes.now }
{
    if bytes.is_empty() {
        return false;
    }
    if bytes.len() > MOST_TEXT_BYTES {
        return false;
    }
    are_within(bytes, 0x20, 0x7E)
}

/// Whether all the bytes are at least the one and at most the other.
pub(crate) fn are_within(bytes: &[u8], least: u8, most: u8) -> bool
    ensures { result ≡ list_all (λ b. nat_le least b && nat_le b most) bytes.now }
{
    bytes.iter().all(|byte| is_within(*byte, least, most))
}

/// Whether the byte is at least the one and at most the other.
fn is_within(byte: u8, least: u8, most: u8) -> bool
    ensures { result ≡ (nat_le least byte && nat_le byte most) }
{
    least <= byte && byte <= most
}

/// The text of these bytes, if they are one.
pub(crate) fn text_of(alloc: Global, bytes: &[u8]) -> Result<Option<Line>, NoMemory>
    ensures { IfOk result (λ text. text ≡ (if is_message_text bytes.now then Some bytes.now else None)) }
{
    if !is_text(bytes) {
        return Ok(None);
    }
    Ok(Some(Line::from_bytes(Vec::from_slice(alloc, bytes)?)))
}
