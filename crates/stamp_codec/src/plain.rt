//! What a line says in the open, when its swaps and its cipher are undone.
ghost use Rattle.std.specs.Prelude.{◌≡◌, ◌≢◌, ◌↔◌, ◌∷◌, ◌++◌, ◌<◌, true, IfSome, IfNone, IsTrue, replicate};
ghost use Rattle.std.specs.List.{AllByRecursion, list_all};
ghost use Rattle.stamp_codec.specs.Message.{Message, is_message, is_printable, is_text, message_of};
ghost use Rattle.stamp_codec.specs.Sealed.{message};
ghost use Rattle.stamp_codec.specs.Spelling.{pads, written};

use crate::groups::GROUP;
use crate::sealed::Sealed;
use clock_ledger::STAMP_CYCLE;
use fics_words::{MOST_LINE_BYTES, read_number};

/// The byte behind the text.
pub(crate) const TEXT_END: u8 = 0x18;

/// The byte behind the stamp.
pub(crate) const STAMP_END: u8 = 0x19;

/// The byte that fills the last group.
pub(crate) const PAD: u8 = b'1';

/// What an acknowledgement has in the place of a text.
const ACK_TEXT: &[u8; 2] = b"\x029";

/// Reads text, stamp and pads: the message exactly where the bytes are one.
pub(crate) fn read_plain(plain: &[u8]) -> Option<Sealed<'_>>
    ensures said { IfSome result (λ sealed. is_message (message sealed) ≡ true) }
    ensures value { IfSome result (λ sealed. plain.now ≡ written (message sealed)) }
    ensures none { IfNone result ((other : Message) → is_message other ≡ true → plain.now ≢ written other) }
{
    let Some((text, rest)) = cut_at(plain, TEXT_END) else {
        return None;
    };
    let Some((digits, filled)) = cut_at(rest, STAMP_END) else {
        return None;
    };
    let Some(stamp) = read_number(digits, u64::from(STAMP_CYCLE) - 1) else {
        return None;
    };
    if !are_pads(filled, plain.len() - filled.len()) {
        return None;
    }
    say(text, stamp as u32)
}

/// The message of a text and a stamp, where the text is one of a message.
fn say(text: &[u8], stamp: u32) -> Option<Sealed<'_>>
    requires { stamp < STAMP_CYCLE }
    ensures said { IfSome result (λ sealed. is_message (message sealed) ≡ true) }
    ensures value { IfSome result (λ sealed. message sealed ≡ message_of text.now stamp) }
    ensures none { IfNone result (is_message (message_of text.now stamp) ≢ true) }
{
    if text == ACK_TEXT.as_slice() {
        return Some(Sealed::Ack { stamp });
    }
    if !is_text(text) {
        return None;
    }
    Some(Sealed::Text { text, stamp })
}

/// Whether these are at most 1,023 printable bytes of ASCII.
pub(crate) fn is_text(text: &[u8]) -> bool
    ensures { result ≡ is_text text.now }
{
    if text.len() > MOST_LINE_BYTES {
        return false;
    }
    are_printable(text)
}

fn are_printable(bytes: &[u8]) -> bool
    ensures { result ≡ list_all is_printable bytes.now }
{
    bytes.iter().all(|byte| is_printable(*byte))
}

/// Whether a byte is one from the blank to the tilde of ASCII.
fn is_printable(byte: u8) -> bool
    ensures { result ≡ is_printable byte }
{
    (0x20..=0x7E).contains(&byte)
}

/// How many pads a message has whose text and stamp take `before` bytes with their ends.
pub(crate) fn pads(before: usize) -> usize
    ensures value { result ≡ pads before }
    ensures few { result < GROUP }
{
    (GROUP - before % GROUP) % GROUP
}

/// Whether these are the pads behind `before` bytes.
fn are_pads(filled: &[u8], before: usize) -> bool
    ensures { IsTrue result ↔ (filled.now ≡ replicate (pads before) 0x31) }
{
    filled.len() == pads(before) && filled.iter().all(|byte| *byte == PAD)
}

/// The bytes before the first mark, and those behind it; `None` where there is no mark.
#[tactic(auto, using(std::proofs::lemmas::Grind::common_steps))]
fn cut_at(bytes: &[u8], mark: u8) -> Option<(&[u8], &[u8])>
    ensures parts { IfSome result (λ parts. bytes.now ≡ parts.0.now ++ mark ∷ parts.1.now) }
    ensures unmarked { IfSome result (λ parts. AllByRecursion (λ b. b ≢ mark) parts.0.now) }
    ensures none { IfNone result (AllByRecursion (λ b. b ≢ mark) bytes.now) }
{
    let place = bytes.iter().position(|byte| *byte == mark)?;
    Some((&bytes[..place], &bytes[place + 1..]))
}
