//! Many lines in one block.

ghost use Rattle.std.specs.Prelude.{◌≡◌, ◌+◌, ◌<◌, ◌∷◌, ◌++◌, [], IfSome, OnErr, OnOk, Some, bytes_eq, length, option_copied, slice_get, slice_index_or};
ghost use Rattle.std.specs.Cmp.{partial_equiv_from_equiv};
ghost use Rattle.std.specs.Cmp.Lexicographic.{lists_equiv, nat_list_eq_equiv, pointwise};
ghost use Rattle.std.specs.List.{flat_map};
ghost use Rattle.fics_words.specs.Line.{IsLine};
ghost use Rattle.fics_words.specs.Lines.{AreEnds, IsPart, bytes_between, lines_between};

use memory::NoMemory;
use std::alloc::Global;
use std::marker::Model;

/// The lines of an answer, which contracts see as the list of their bytes. They stand one behind the other in one block
/// of bytes, and their ends in a second one: no line has a block of its own.
#[derive(Drop)]
pub struct Lines {
    bytes: Vec<u8>,
    ends: Vec<u32>,
}

const _: () = prove!(size_of::<Lines>() == 48);

impl Model for Lines {
    ghost use Rattle.std.specs.Prelude.{List, ℕ};
    ghost use Rattle.fics_words.specs.Lines.{AreEnds, lines_between};

    ghost Value = { List (List ℕ) };

    ghost view = { λ lines. lines_between lines.bytes.items 0 lines.ends.items };

    ghost invariant = { λ lines. AreEnds lines.bytes.items 0 lines.ends.items };
}

impl Lines {
    /// No lines, which take no memory.
    pub fn new(alloc: Global) -> Lines
        ensures { result ≡ [] }
    {
        Lines {
            bytes: Vec::new(alloc),
            ends: Vec::new(alloc),
        }
    }

    /// Takes room for so many lines more with so many bytes together. The lines stay as they are.
    pub fn reserve(&mut self, lines: usize, bytes: usize) -> Result<(), NoMemory>
        ensures { self.new ≡ self.old }
    {
        self.ends.reserve(lines)?;
        self.bytes.reserve(bytes)?;
        Ok(())
    }

    /// Puts a line behind the others. Running out of memory, for which more than 4 GiB of lines count too, leaves them
    /// as they are.
    pub fn push(&mut self, line: &[u8]) -> Result<(), NoMemory>
        requires { IsLine line.now }
        ensures ok { OnOk result (self.new ≡ self.old ++ line.now ∷ []) }
        ensures err { OnErr result (self.new ≡ self.old) }
    {
        let end = self.bytes.len() + line.len();
        if end > u32::MAX as usize {
            return Err(NoMemory);
        }
        self.ends.reserve(1)?;
        self.bytes.extend_from_slice(line)?;
        self.ends.push_reserved(end as u32);
        Ok(())
    }

    /// The number of lines.
    pub fn len(&self) -> usize
        ensures { result ≡ length self.now }
    {
        self.ends.len()
    }

    /// How many bytes all lines have together.
    pub fn count_bytes(&self) -> usize
        ensures { result ≡ length (flat_map (λ line. line) self.now) }
    {
        self.bytes.len()
    }

    /// The line at `place`, counted from 0, if there is one.
    pub fn get(&self, place: usize) -> Option<&[u8]>
        ensures value { option_copied result ≡ slice_get self.now place }
        ensures line { IfSome result (λ line. IsLine line.now) }
    {
        if place >= self.ends.len() {
            return None;
        }
        Some(line_at(&self.bytes, &self.ends, place))
    }
}

/// The line at `place` of those that end there.
fn line_at<'a>(bytes: &'a [u8], ends: &[u32], place: usize) -> &'a [u8]
    requires ends { AreEnds bytes.now 0 ends.now }
    requires place { place < length ends.now }
    ensures value { slice_get (lines_between bytes.now 0 ends.now) place ≡ Some result.now }
    ensures line { IsLine result.now }
{
    part_of(bytes, start_of(ends, place), ends[place] as usize)
}

/// The bytes from one place up to another.
fn part_of(bytes: &[u8], start: usize, end: usize) -> &[u8]
    requires { IsPart bytes.now start end }
    ensures value { result.now ≡ bytes_between bytes.now start end }
    ensures line { IsLine result.now }
{
    &bytes[start..end]
}

/// Where the line at `place` starts, which is where the one before it ends.
fn start_of(ends: &[u32], place: usize) -> usize
    requires { place < length ends.now }
    ensures { result ≡ slice_index_or (0 ∷ ends.now) place 0 }
{
    match place.checked_sub(1) {
        Some(before) => ends[before] as usize,
        None => 0,
    }
}

impl PartialEq for Lines {
    ghost eq = { pointwise bytes_eq };

    ghost laws = { partial_equiv_from_equiv (lists_equiv nat_list_eq_equiv) };

    fn eq(&self, other: &Lines) -> bool {
        self.bytes.as_slice() == other.bytes.as_slice()
            && self.ends.as_slice() == other.ends.as_slice()
    }
}

impl Eq for Lines {
    ghost laws = { lists_equiv nat_list_eq_equiv };
}
