//! Names in records.
ghost use Rattle.std.specs.Prelude.{◌≡◌, ◌++◌, IfOk, IfSome, IfNone, OnOk};
ghost use Rattle.std.specs.List.{AllByRecursion};
ghost use Rattle.fics_words.specs.Handle.{IsHandle};
ghost use Rattle.game_records.specs.Reading.{name_in, behind_name, names_in, behind_names};
ghost use Rattle.game_records.specs.Spelling.{name_text, names_text};

use crate::bytes::write_bytes;
use crate::numbers::{behind, byte_at, front};
use collections::Listed;
use fics_words::Handle;
use memory::NoMemory;
use std::alloc::Global;

/// Appends how many letters a name has, and the letters.
pub(crate) fn write_name(out: &mut Vec<u8>, name: &Handle) -> Result<(), NoMemory>
    ensures { OnOk result (out.new.items ≡ out.old.items ++ name_text name.now) }
{
    let letters = name.letters();
    out.push(letters.len() as u8)?;
    write_bytes(out, letters)
}

/// Appends each name.
pub(crate) fn write_names(out: &mut Vec<u8>, names: &[Handle]) -> Result<(), NoMemory>
    ensures { OnOk result (out.new.items ≡ out.old.items ++ names_text names.now) }
{
    for name in names {
        write_name(out, name)?;
    }
    Ok(())
}

/// The name that the bytes begin with, where it is a handle.
pub(crate) fn name_in(bytes: &[u8]) -> Option<Handle>
    ensures value { IfSome result (λ name. name ≡ name_in bytes.now) }
    ensures handle { IfSome result IsHandle }
    ensures none { IfNone result (IsHandle (name_in bytes.now) → ⊥) }
{
    Handle::read(front(behind(bytes, 1), usize::from(byte_at(bytes, 0))))
}

/// The bytes behind the first name.
pub(crate) fn behind_name(bytes: &[u8]) -> &[u8]
    ensures { result.now ≡ behind_name bytes.now }
{
    behind(behind(bytes, 1), usize::from(byte_at(bytes, 0)))
}

/// So many names, where each is a handle.
#[tactic(auto, using(crate::proofs::NamesBack::each_name, std::proofs::lemmas::Grind::common_steps))]
pub(crate) fn names_in(
    alloc: Global,
    count: usize,
    bytes: &[u8],
) -> Result<Option<Listed<Handle>>, NoMemory>
    ensures value { IfOk result (λ read. IfSome read (λ names. names ≡ names_in count bytes.now)) }
    ensures handles { IfOk result (λ read. IfSome read (λ names. AllByRecursion IsHandle names)) }
    ensures none { IfOk result (λ read. IfNone read (AllByRecursion IsHandle (names_in count bytes.now) → ⊥)) }
{
    let mut names = Listed::new(alloc);
    let mut rest = bytes;
    for _place in 0..count {
        let Some(name) = name_in(rest) else {
            return Ok(None);
        };
        names.push(name)?;
        rest = behind_name(rest);
    }
    Ok(Some(names))
}

/// The bytes behind the first so many names.
#[tactic(auto, using(crate::proofs::NamesBack::behind_each, std::proofs::lemmas::Grind::common_steps))]
pub(crate) fn behind_names(count: usize, bytes: &[u8]) -> &[u8]
    ensures { result.now ≡ behind_names count bytes.now }
{
    let mut rest = bytes;
    for _place in 0..count {
        rest = behind_name(rest);
    }
    rest
}
