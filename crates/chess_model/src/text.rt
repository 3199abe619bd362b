//! The text of a move, in a place of fixed size.
ghost use Rattle.std.specs.Prelude.{◌≡◌, ◌↔◌, IsSome, IfSome};
ghost use Rattle.std.specs.List.{list_all};
ghost use Rattle.chess_model.specs.MoveText.{IsMoveText, is_printable};

use std::marker::Model;

/// The text of a move: 1 to 12 bytes, each from 0x20 to 0x7E. Contracts see the list of these bytes.
#[derive(Clone, Copy, PartialEq, Eq)]
pub struct MoveText {
    bytes: [u8; 12],
    len: u8,
}

impl Model for MoveText {
    ghost use Rattle.std.specs.Prelude.{ℕ, List};

    ghost Value = { List ℕ };

    ghost use Rattle.chess_model.specs.MoveTextFields.{IsPadded, text_of, fields_of, fields_of-text_of};

    ghost view = { text_of };

    ghost invariant = { IsPadded };

    ghost inverse = { fields_of };

    ghost inverse_ok = { fields_of-text_of };
}

impl MoveText {
    /// The text of these bytes, which there is exactly where they are 1 to 12 and printable.
    pub fn of(bytes: &[u8]) -> Option<MoveText>
        ensures readable { IsSome result ↔ IsMoveText bytes.now }
        ensures value { IfSome result (λ text. text ≡ bytes.now) }
    {
        let len = bytes.len();
        if len == 0 || len > 12 || !are_printable(bytes) {
            return None;
        }
        let mut kept = [0; 12];
        kept[..len].copy_from_slice(bytes);
        Some(MoveText {
            bytes: kept,
            len: len as u8,
        })
    }

    /// The bytes of the text.
    pub fn bytes(&self) -> &[u8]
        ensures value { result.now ≡ self.now }
        ensures readable { IsMoveText self.now }
    {
        &self.bytes[..self.len as usize]
    }
}

fn are_printable(bytes: &[u8]) -> bool
    ensures { result ≡ list_all is_printable bytes.now }
{
    bytes.iter().all(|byte| matches!(byte, 0x20..=0x7E))
}
