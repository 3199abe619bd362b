//! A word or a text that has begun.
ghost use Rattle.std.specs.Prelude.{◌≡◌, ◌<◌, [], ◌∷◌, ◌++◌, length, nat_lt, true};

use std::marker::Model;

/// The most bytes of a word, and of a text in quotes.
const MOST: usize = 255;

/// Up to 255 bytes. Contracts see the list of these.
#[derive(Drop)]
pub(crate) struct Text {
    bytes: [u8; MOST],
    len: usize,
}

impl Model for Text {
    ghost use Rattle.std.specs.Prelude.{List, ℕ, ◌≤◌, take};

    ghost Value = { List ℕ };

    ghost view = { λ text. take text.len text.bytes };

    ghost invariant = { λ text. text.len ≤ 255 };
}

impl Text {
    /// The empty text.
    pub(crate) fn new() -> Text
        ensures { result ≡ [] }
    {
        Text {
            bytes: [0; MOST],
            len: 0,
        }
    }

    /// The bytes so far.
    pub(crate) fn bytes(&self) -> &[u8]
        ensures { result.now ≡ self.now }
    {
        &self.bytes[..self.len]
    }

    /// The same text once more.
    pub(crate) fn copy(&self) -> Text
        ensures { result ≡ self.now }
    {
        Text {
            bytes: self.bytes,
            len: self.len,
        }
    }

    /// Whether one more byte may stand behind the others.
    pub(crate) fn has_room(&self) -> bool
        ensures { result ≡ nat_lt (length self.now) 255 }
    {
        self.len < MOST
    }

    /// Puts a byte behind the others.
    pub(crate) fn push(&mut self, byte: u8)
        requires { nat_lt (length self.old) 255 ≡ true }
        ensures { self.new ≡ self.old ++ byte ∷ [] }
    {
        self.bytes[self.len] = byte;
        self.len += 1;
    }
}
