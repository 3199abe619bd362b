//! Writing a stamped line.
ghost use Rattle.std.specs.Prelude.{◌≡◌, ◌++◌, ◌∷◌, [], ◌<◌, ◌||◌, true, IfOk, OnOk, bytes_eq};
ghost use Rattle.stamp_codec.specs.Message.{ack_text, is_message, is_text, message_of};
ghost use Rattle.stamp_codec.specs.Spelling.{body, by_place, cipher, padded, stamped_line, swapped};

use crate::cipher::encipher_line;
use crate::groups::swap_groups;
use crate::plain::{PAD, STAMP_END, TEXT_END, pads};
use crate::reading::CLOSING;
use clock_ledger::STAMP_CYCLE;
use fics_words::write_number;
use memory::NoMemory;
use std::alloc::Global;

/// Writes the one line of a text and a stamp, closing 0x80 and LF included. The text is one of at most 1,023 bytes
/// from 0x20 to 0x7E; the bytes 2 and `9` in its place make an acknowledgement.
pub fn seal(alloc: Global, text: &[u8], stamp: u32) -> Result<Vec<u8>, NoMemory>
    requires text { (is_text text.now || bytes_eq text.now ack_text) ≡ true }
    requires stamp { stamp < STAMP_CYCLE }
    ensures said { is_message (message_of text.now stamp) ≡ true }
    ensures line { IfOk result (λ line. line.items ≡ stamped_line (message_of text.now stamp) ++ 0x0A ∷ []) }
{
    let mut line = Vec::new(alloc);
    write_line(&mut line, text, stamp)?;
    Ok(line)
}

/// Writes the one line of a text and a stamp where nothing stands yet.
fn write_line(line: &mut Vec<u8>, text: &[u8], stamp: u32) -> Result<(), NoMemory>
    requires { line.old.items ≡ [] }
    ensures { OnOk result (line.new.items ≡ stamped_line (message_of text.now stamp) ++ 0x0A ∷ []) }
{
    write_body(line, text, stamp)?;
    fill_group(line)?;
    hide(line);
    line.extend_from_slice(&[CLOSING, b'\n'])?;
    Ok(())
}

/// Brings what stands in the open to how it stands on the line.
fn hide(line: &mut Vec<u8>)
    ensures { line.new.items ≡ by_place cipher 0 (swapped line.old.items) }
{
    let plain = line.as_mut_slice();
    swap_groups(plain);
    encipher_line(plain);
}

/// Appends text and stamp, each with its end.
fn write_body(line: &mut Vec<u8>, text: &[u8], stamp: u32) -> Result<(), NoMemory>
    ensures { OnOk result (line.new.items ≡ line.old.items ++ body text.now stamp) }
{
    line.extend_from_slice(text)?;
    line.push(TEXT_END)?;
    write_number(line, u64::from(stamp))?;
    line.push(STAMP_END)?;
    Ok(())
}

/// Appends pads up to a multiple of 12.
fn fill_group(line: &mut Vec<u8>) -> Result<(), NoMemory>
    ensures { OnOk result (line.new.items ≡ padded line.old.items) }
{
    let all = [PAD; 12];
    let missing = pads(line.len());
    line.extend_from_slice(&all[..missing])?;
    Ok(())
}
