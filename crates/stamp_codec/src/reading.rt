//! Reading a stamped line.
ghost use Rattle.std.specs.Prelude.{◌≡◌, ◌↔◌, ◌<◌, ◌-◌, IfSome, IfNone, IsTrue, length, slice_index};
ghost use Rattle.std.specs.List.{AllByRecursion};
ghost use Rattle.stamp_codec.specs.Message.{Message};
ghost use Rattle.stamp_codec.specs.Opening.{opened};
ghost use Rattle.stamp_codec.specs.Sealed.{message, option_message};
ghost use Rattle.stamp_codec.specs.Spelling.{IsStampedLine};

use crate::cipher::decipher_line;
use crate::groups::swap_groups;
use crate::plain::read_plain;
use crate::sealed::Sealed;

/// The byte that closes a stamped line.
pub(crate) const CLOSING: u8 = 0x80;

/// Reads a stamped line, which is handed in without its LF and with its closing 0x80: the message exactly where the
/// bytes are the spelling of one. Works in place: after `None` the bytes are what they happen to be.
pub fn unseal<'a>(raw: &'a mut [u8]) -> Option<Sealed<'a>>
    ensures sealed { IfSome result (λ sealed. IsStampedLine (message sealed) raw.old) }
    ensures none { IfNone result ((other : Message) → IsStampedLine other raw.old → ⊥) }
    ensures opened { option_message result ≡ opened raw.old }
{
    if !is_closed(raw) {
        return None;
    }
    let end = raw.len() - 1;
    let line = &mut raw[..end];
    decipher_line(line);
    swap_groups(line);
    read_plain(line)
}

/// Whether the closing byte stands last.
fn is_closed(raw: &[u8]) -> bool
    ensures closed { IsTrue result ↔ ((0 < length raw.now) × (slice_index raw.now (length raw.now - 1) ≡ 0x80)) }
    ensures bytes { AllByRecursion (λ b. b < 256) raw.now }
{
    match raw.last() {
        Some(last) => *last == CLOSING,
        None => false,
    }
}
