//! A line while it is written.
ghost use Rattle.std.specs.Prelude.{◌≡◌, ◌+◌, ◌≤◌, [], ◌∷◌, ◌++◌, IfOk, IsTrue, decimal, length};
ghost use Rattle.std.specs.Fmt.{signed_decimal};
ghost use Rattle.std.specs.List.{list_all};
ghost use Rattle.fics_words.specs.Handle.{most_handle_letters};
ghost use Rattle.chess_model.specs.MoveText.{is_printable};
ghost use Rattle.style12_writer.specs.Room.{HasRoomInLine};

use fics_words::{Handle, Line};
use itoa::Buffer;
use memory::NoMemory;
use std::alloc::Global;
use std::marker::Model;

/// The most bytes of a draft: the board line, the longest that is written here, has at most 412.
const MOST_BYTES: usize = 512;

/// A line while it is written, in a place of its own, so that nothing is appended at the cost of memory.
#[derive(Drop)]
pub struct Draft {
    bytes: [u8; MOST_BYTES],
    len: usize,
}

impl Model for Draft {
    ghost use Rattle.std.specs.Prelude.{List, ℕ, take};
    ghost use Rattle.style12_writer.specs.Room.{HoldsDraft};

    ghost Value = { List ℕ };

    ghost view = { λ draft. take draft.len draft.bytes };

    ghost invariant = { λ draft. HoldsDraft draft.bytes draft.len };
}

impl Draft {
    /// The empty line.
    pub(crate) fn new() -> Draft
        ensures { result ≡ [] }
    {
        Draft {
            bytes: [0; MOST_BYTES],
            len: 0,
        }
    }

    /// Appends a text.
    pub(crate) fn text(&mut self, text: &[u8])
        requires printable { IsTrue (list_all is_printable text.now) }
        requires room { HasRoomInLine (length text.now) self.old }
        ensures text { self.new ≡ self.old ++ text.now }
        ensures len { length self.new ≡ length self.old + length text.now }
    {
        let end = self.len + text.len();
        self.bytes[self.len..end].copy_from_slice(text);
        self.len = end;
    }

    /// Appends a byte.
    pub(crate) fn byte(&mut self, byte: u8)
        requires printable { IsTrue (is_printable byte) }
        requires room { HasRoomInLine 1 self.old }
        ensures text { self.new ≡ self.old ++ byte ∷ [] }
        ensures len { length self.new ≡ length self.old + 1 }
    {
        self.bytes[self.len] = byte;
        self.len += 1;
    }

    /// Appends a player's name.
    pub(crate) fn name(&mut self, handle: &Handle)
        requires room { HasRoomInLine most_handle_letters self.old }
        ensures text { self.new ≡ self.old ++ handle.now }
        ensures most { length self.new ≤ length self.old + most_handle_letters }
    {
        self.text(handle.letters());
    }

    /// Appends a decimal.
    pub(crate) fn number(&mut self, n: u64)
        requires room { HasRoomInLine 20 self.old }
        ensures text { self.new ≡ self.old ++ decimal n }
        ensures most { length self.new ≤ length self.old + 20 }
    {
        self.text(Buffer::new().format(n).as_bytes());
    }

    /// Appends a decimal with its sign where it is below 0.
    pub(crate) fn signed(&mut self, n: i64)
        requires room { HasRoomInLine 20 self.old }
        ensures text { self.new ≡ self.old ++ signed_decimal n }
        ensures most { length self.new ≤ length self.old + 20 }
    {
        self.text(Buffer::new().format(n).as_bytes());
    }

    /// Appends a blank and a field.
    pub(crate) fn field(&mut self, field: &[u8])
        requires printable { IsTrue (list_all is_printable field.now) }
        requires room { HasRoomInLine (1 + length field.now) self.old }
        ensures text { self.new ≡ self.old ++ 32 ∷ field.now }
        ensures len { length self.new ≡ length self.old + 1 + length field.now }
    {
        self.text(b" ");
        self.text(field);
    }

    /// Appends a blank and a player's name.
    pub(crate) fn name_field(&mut self, handle: &Handle)
        requires room { HasRoomInLine 18 self.old }
        ensures text { self.new ≡ self.old ++ 32 ∷ handle.now }
        ensures most { length self.new ≤ length self.old + 18 }
    {
        self.text(b" ");
        self.name(handle);
    }

    /// Appends a blank and a decimal.
    pub(crate) fn number_field(&mut self, n: u64)
        requires room { HasRoomInLine 21 self.old }
        ensures text { self.new ≡ self.old ++ 32 ∷ decimal n }
        ensures most { length self.new ≤ length self.old + 21 }
    {
        self.text(b" ");
        self.number(n);
    }

    /// Appends a blank and a decimal with its sign where it is below 0.
    pub(crate) fn signed_field(&mut self, n: i64)
        requires room { HasRoomInLine 21 self.old }
        ensures text { self.new ≡ self.old ++ 32 ∷ signed_decimal n }
        ensures most { length self.new ≤ length self.old + 21 }
    {
        self.text(b" ");
        self.signed(n);
    }

    /// The bytes of the line as it stands, without an end of line.
    pub fn bytes(&self) -> &[u8]
        ensures { result.now ≡ self.now }
    {
        &self.bytes[..self.len]
    }

    /// The line as it stands.
    pub fn finish(&self, alloc: Global) -> Result<Line, NoMemory>
        ensures { IfOk result (λ line. line ≡ self.now) }
    {
        Ok(Line::from_bytes(Vec::from_slice(alloc, &self.bytes[..self.len])?))
    }
}
