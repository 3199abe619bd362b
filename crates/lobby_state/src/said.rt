//! The lines of what members say to others.
ghost use Rattle.std.specs.Prelude.{◌≡◌, ◌++◌, IfOk, OnOk, decimal};
ghost use Rattle.lobby_state.specs.Said.{IsText, IsWording, spoken_line};

use fics_words::{Handle, Line, write_number};
use memory::NoMemory;
use std::alloc::Global;

/// The line of what a member says: its name, how it says it, and its text.
pub fn said_line(alloc: Global, name: Handle, wording: &[u8], text: &[u8]) -> Result<Line, NoMemory>
    requires wording { IsWording wording.now }
    requires text { IsText text.now }
    ensures { IfOk result (λ line. line ≡ spoken_line name wording.now text.now) }
{
    let bytes = joined(alloc, name.letters(), wording, text)?;
    Ok(Line::from_bytes(bytes))
}

/// The three texts, one behind the other.
pub(crate) fn joined(
    alloc: Global,
    first: &[u8],
    second: &[u8],
    third: &[u8],
) -> Result<Vec<u8>, NoMemory>
    ensures { IfOk result (λ bytes. bytes.items ≡ first.now ++ second.now ++ third.now) }
{
    let mut bytes = Vec::from_slice(alloc, first)?;
    bytes.extend_from_slice(second)?;
    bytes.extend_from_slice(third)?;
    Ok(bytes)
}

/// Appends a number between two texts.
pub(crate) fn put_numbered(
    text: &mut Vec<u8>,
    before: &[u8],
    number: u64,
    behind: &[u8],
) -> Result<(), NoMemory>
    ensures { OnOk result (text.new.items ≡ text.old.items ++ before.now ++ decimal number ++ behind.now) }
{
    text.extend_from_slice(before)?;
    write_number(text, number)?;
    text.extend_from_slice(behind)?;
    Ok(())
}
