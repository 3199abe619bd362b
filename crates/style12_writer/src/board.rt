//! The fields that show the position.
ghost use Rattle.std.specs.Prelude.{◌≡◌, ◌+◌, ◌<◌, ◌≤◌, ◌++◌, ◌∷◌, IsTrue, length};
ghost use Rattle.std.specs.List.{list_all};
ghost use Rattle.chess_model.specs.MoveText.{is_printable};
ghost use Rattle.style12_writer.specs.Board.{square_letter, rank_text, ranks, colour_to_move, double_push, castle_flags, flag_text};
ghost use Rattle.style12_writer.specs.Line12.{position_fields};
ghost use Rattle.style12_writer.specs.Room.{HasRoomInLine};
ghost use Rattle.style12_writer.specs.Spaced.{spaced};

use crate::draft::Draft;
use chess_model::{Colour, Face, Man};
use move_writer::letter;

/// The numbers of the ranks from White's 8th down.
pub(crate) const RANKS: [usize; 8] = [7, 6, 5, 4, 3, 2, 1, 0];

/// Appends the fields of the position.
#[tactic(auto, unfolding(crate::specs::Line12::position_fields))]
pub(crate) fn put_position(line: &mut Draft, face: &Face)
    requires room { HasRoomInLine 124 line.old }
    ensures text { line.new ≡ line.old ++ spaced (position_fields face.now) }
    ensures most { length line.new ≤ length line.old + 124 }
{
    put_ranks(line, &face.men);
    line.field(colour_to_move(face.to_move));
    put_push(line, face.push);
    put_castlings(line, &face.rights);
    line.number_field(u64::from(face.quiet));
}

/// Appends the four flags of castling, each as a field.
#[tactic(auto, unfolding(crate::specs::Board::castle_flags))]
fn put_castlings(line: &mut Draft, rights: &[bool; 4])
    requires room { HasRoomInLine 8 line.old }
    ensures text { line.new ≡ line.old ++ spaced (castle_flags rights.now) }
    ensures len { length line.new ≡ length line.old + 8 }
{
    line.field(flag(rights[0]));
    line.field(flag(rights[1]));
    line.field(flag(rights[2]));
    line.field(flag(rights[3]));
}

/// Appends the eight ranks, each as a field.
#[tactic(auto, unfolding(crate::specs::Board::ranks))]
fn put_ranks(line: &mut Draft, men: &[Option<Man>; 64])
    requires room { HasRoomInLine 72 line.old }
    ensures text { line.new ≡ line.old ++ spaced (ranks men.now) }
    ensures len { length line.new ≡ length line.old + 72 }
{
    for rank in RANKS {
        put_rank(line, men, rank);
    }
}

/// The letter of the colour that is to move.
pub(crate) fn colour_to_move(colour: Colour) -> &'static [u8]
    ensures text { result.now ≡ colour_to_move colour }
    ensures printable { IsTrue (list_all is_printable result.now) }
    ensures len { length result.now ≡ 1 }
{
    match colour {
        Colour::White => b"W",
        Colour::Black => b"B",
    }
}

/// Appends the file of a double push, or -1.
fn put_push(line: &mut Draft, push: Option<u8>)
    requires room { HasRoomInLine 21 line.old }
    ensures text { line.new ≡ line.old ++ 32 ∷ double_push push }
    ensures most { length line.new ≤ length line.old + 21 }
{
    match push {
        None => line.field(b"-1"),
        Some(file) => line.number_field(u64::from(file)),
    }
}

/// Appends the eight squares of a rank as a field.
fn put_rank(line: &mut Draft, men: &[Option<Man>; 64], rank: usize)
    requires rank { rank < 8 }
    requires room { HasRoomInLine 9 line.old }
    ensures text { line.new ≡ line.old ++ 32 ∷ rank_text men.now rank }
    ensures len { length line.new ≡ length line.old + 9 }
{
    line.text(b" ");
    put_squares(line, men, rank);
}

/// Appends the eight squares of a rank.
pub(crate) fn put_squares(line: &mut Draft, men: &[Option<Man>; 64], rank: usize)
    requires rank { rank < 8 }
    requires room { HasRoomInLine 8 line.old }
    ensures text { line.new ≡ line.old ++ rank_text men.now rank }
    ensures len { length line.new ≡ length line.old + 8 }
{
    let squares = &men[8 * rank..8 * rank + 8];
    for square in squares {
        line.byte(letter_on(*square));
    }
}

/// What a square shows: its man's letter, in lower case for Black, or `-`.
fn letter_on(square: Option<Man>) -> u8
    ensures letter { result ≡ square_letter square }
    ensures printable { IsTrue (is_printable result) }
{
    match square {
        None => b'-',
        Some(man) => match man.colour {
            Colour::White => letter(man.kind),
            Colour::Black => letter(man.kind).to_ascii_lowercase(),
        },
    }
}

/// `1` where it is so, else `0`.
pub(crate) fn flag(is_so: bool) -> &'static [u8]
    ensures text { result.now ≡ flag_text is_so }
    ensures printable { IsTrue (list_all is_printable result.now) }
    ensures len { length result.now ≡ 1 }
{
    if is_so { b"1" } else { b"0" }
}
