//! Lines of printable ASCII text.

ghost use Rattle.std.specs.Prelude.{◌≡◌, ◌↔◌, IfOk, IsTrue, SomeIff, bytes_eq};
ghost use Rattle.std.specs.Cmp.{partial_equiv_from_equiv};
ghost use Rattle.std.specs.Cmp.Lexicographic.{nat_list_eq_equiv};
ghost use Rattle.fics_words.specs.Line.{IsLine, IsPrintable};

use memory::{Duplicate, NoMemory};
use std::alloc::Global;
use std::marker::Model;

/// The most bytes that a line has.
pub const MOST_LINE_BYTES: usize = 1_023;

/// The most bytes of a text that a player says.
pub const MOST_TEXT_BYTES: usize = 800;

/// A line: at most 1,023 bytes, each from 0x20 to 0x7E. Contracts see the list of its bytes.
#[derive(Debug, Drop)]
pub struct Line {
    bytes: Vec<u8>,
}

impl Model for Line {
    ghost use Rattle.std.specs.Prelude.{List, ℕ};
    ghost use Rattle.fics_words.specs.Line.{IsLine};

    ghost Value = { List ℕ };

    ghost view = { λ line. line.bytes.items };

    ghost invariant = { λ line. IsLine line.bytes.items };
}

impl Line {
    /// Reads a line: the line of these bytes, exactly where they are one.
    pub fn read(alloc: Global, bytes: &[u8]) -> Result<Option<Line>, NoMemory>
        ensures { IfOk result (λ read. SomeIff read (IsLine bytes.now) bytes.now) }
    {
        if bytes.len() > MOST_LINE_BYTES || !bytes.iter().all(|byte| is_printable(*byte)) {
            return Ok(None);
        }
        Ok(Some(Line {
            bytes: Vec::from_slice(alloc, bytes)?,
        }))
    }

    /// The line of these bytes, which are one; takes no memory.
    pub fn from_bytes(bytes: Vec<u8>) -> Line
        requires { IsLine bytes.items }
        ensures { result ≡ bytes.items }
    {
        Line { bytes }
    }

    /// The line's bytes, without an end of line.
    pub fn bytes(&self) -> &[u8]
        ensures bytes { result.now ≡ self.now }
        ensures line { IsLine self.now }
    {
        self.bytes.as_slice()
    }

    /// A second line of the same bytes.
    pub fn duplicate(&self) -> Result<Line, NoMemory>
        ensures { IfOk result (λ copy. copy ≡ self.now) }
    {
        Ok(Line {
            bytes: self.bytes.clone()?,
        })
    }
}

impl PartialEq for Line {
    ghost eq = { bytes_eq };

    ghost laws = { partial_equiv_from_equiv nat_list_eq_equiv };

    fn eq(&self, other: &Line) -> bool {
        self.bytes() == other.bytes()
    }
}

impl Eq for Line {
    ghost laws = { nat_list_eq_equiv };
}

impl Duplicate for Line {
    fn duplicate(&self) -> Result<Line, NoMemory> {
        Line::duplicate(self)
    }
}

/// Whether a line may have this byte: one from the blank to the tilde of ASCII.
fn is_printable(byte: u8) -> bool
    ensures { IsTrue result ↔ IsPrintable byte }
{
    (0x20..=0x7E).contains(&byte)
}
