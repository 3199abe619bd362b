//! A move's text while it is written, which takes no memory.
ghost use Rattle.std.specs.Prelude.{◌≡◌, ◌+◌, ◌<◌, ◌≤◌, List, [], ◌∷◌, ◌++◌, length, All};
ghost use Rattle.move_writer.specs.Letters.{square_text, promotion_text};
ghost use Rattle.move_writer.specs.Pretty.{only_if};
ghost use Rattle.move_writer.specs.Blanks.{Shows, HasNoBlank};

use crate::letters::{file_of, letter, rank_of};
use chess_model::{Kind, MoveText, Square};
use std::marker::Model;

/// The most bytes of a move's text.
const MOST: usize = 12;

/// A move's text while it is written: at most 12 bytes that show.
pub(crate) struct MoveDraft {
    bytes: [u8; 12],
    len: usize,
}

impl Model for MoveDraft {
    ghost use Rattle.std.specs.Prelude.{◌≤◌, List, ℕ, All, take};
    ghost use Rattle.move_writer.specs.Blanks.{Shows};

    ghost Value = { List ℕ };

    ghost view = { λ draft. take draft.len draft.bytes };

    ghost invariant = { λ draft. (draft.len ≤ 12) × All Shows (take draft.len draft.bytes) };
}

impl MoveDraft {
    /// The empty text.
    pub(crate) fn new() -> MoveDraft
        ensures { result ≡ [] }
    {
        MoveDraft {
            bytes: [0; MOST],
            len: 0,
        }
    }

    /// Appends a byte.
    pub(crate) fn push(&mut self, byte: u8)
        requires room { length self.old < 12 }
        requires shows { Shows byte }
        ensures { self.new ≡ self.old ++ byte ∷ [] }
    {
        self.bytes[self.len] = byte;
        self.len += 1;
    }

    /// Appends a square by its file and its rank.
    pub(crate) fn push_square(&mut self, square: Square)
        requires { length self.old < 11 }
        ensures { self.new ≡ self.old ++ square_text square }
    {
        self.push(file_of(square));
        self.push(rank_of(square));
    }

    /// Appends a byte where it is wanted.
    pub(crate) fn push_if(&mut self, wanted: bool, byte: u8)
        requires room { length self.old < 12 }
        requires shows { Shows byte }
        ensures text { self.new ≡ self.old ++ only_if wanted byte }
        ensures most { length self.new ≤ length self.old + 1 }
    {
        if wanted {
            self.push(byte);
        }
    }

    /// Appends a text.
    pub(crate) fn push_all(&mut self, text: &[u8])
        requires room { length self.old + length text.now ≤ 12 }
        requires shows { All Shows text.now }
        ensures { self.new ≡ self.old ++ text.now }
    {
        for byte in text {
            self.push(*byte);
        }
    }

    /// Appends what a pawn becomes, where it becomes something.
    pub(crate) fn push_promotion(&mut self, promo: Option<Kind>)
        requires { length self.old < 11 }
        ensures text { self.new ≡ self.old ++ promotion_text promo }
        ensures most { length self.new ≤ length self.old + 2 }
    {
        if let Some(kind) = promo {
            self.push(b'=');
            self.push(letter(kind));
        }
    }

    /// The text as it stands.
    pub(crate) fn finish(self) -> MoveText
        requires { 0 < length self }
        ensures text { result ≡ self }
        ensures unbroken { HasNoBlank result }
    {
        let MoveDraft { bytes, len } = self;
        MoveText::of(&bytes[..len]).unwrap()
    }
}
