//! A line that has begun, of which no more is kept than tells that it is too long.
ghost use Rattle.std.specs.Prelude.{◌≡◌, [], ◌∷◌, ◌++◌, take, false, ◌==◌};

use std::marker::Model;

/// One byte more than the longest line has.
const ROOM: usize = 1_034;

/// What has come of a line, up to 1,034 bytes. Contracts see the list of these.
#[derive(Drop)]
pub(crate) struct OpenLine {
    bytes: [u8; ROOM],
    len: usize,
}

impl Model for OpenLine {
    ghost use Rattle.std.specs.Prelude.{List, ℕ, ◌≤◌, take};
    ghost use Rattle.line_reader.specs.Reader.{IsKept};

    ghost Value = { List ℕ };

    ghost view = { λ begun. take begun.len begun.bytes };

    ghost invariant = { λ begun. IsKept (take begun.len begun.bytes) × (begun.len ≤ 1034) };
}

impl OpenLine {
    ghost use Rattle.line_reader.specs.Reader.{IsKept};

    /// A line of which nothing has come.
    pub(crate) fn new() -> OpenLine
        ensures empty { result ≡ [] }
        ensures kept { IsKept result }
    {
        OpenLine {
            bytes: [0; ROOM],
            len: 0,
        }
    }

    /// The bytes that are kept.
    pub(crate) fn bytes(&self) -> &[u8]
        ensures bytes { result.now ≡ self.now }
        ensures kept { IsKept self.now }
    {
        &self.bytes[..self.len]
    }

    /// A second line of the same bytes.
    pub(crate) fn duplicate(&self) -> OpenLine
        ensures same { result ≡ self.now }
        ensures kept { IsKept result }
    {
        OpenLine {
            bytes: self.bytes,
            len: self.len,
        }
    }

    /// Forgets what has come.
    pub(crate) fn clear(&mut self)
        ensures empty { self.new ≡ [] }
        ensures kept { IsKept self.new }
    {
        self.len = 0;
    }

    /// Puts a byte behind the others, where there is room for it.
    pub(crate) fn push(&mut self, byte: u8)
        requires { (byte == 10) ≡ false }
        ensures grown { self.new ≡ take 1034 (self.old ++ byte ∷ []) }
        ensures kept { IsKept self.new }
    {
        if self.len < ROOM {
            self.bytes[self.len] = byte;
            self.len += 1;
        }
    }
}
