//! The board line.
ghost use Rattle.std.specs.Prelude.{◌≡◌, ◌+◌, ◌<◌, ◌≤◌, [], ◌∷◌, ◌++◌, All, IsTrue, length};
ghost use Rattle.move_writer.specs.Blanks.{HasNoBlank};
ghost use Rattle.std.specs.Fmt.{signed_decimal};
ghost use Rattle.std.specs.List.{list_all};
ghost use Rattle.chess_model.specs.MoveText.{is_printable};
ghost use Rattle.style12_writer.specs.Clocks.{whole_seconds_of, time_taken, two_digits_of};
ghost use Rattle.style12_writer.specs.Line12.{game_number, white_name, black_name, game_fields, strength_fields, move_fields, fields_of, line12_text, cut_at_blanks};
ghost use Rattle.style12_writer.specs.Room.{HasRoomInLine};
ghost use Rattle.style12_writer.specs.Spaced.{spaced};

use crate::board::{flag, put_position};
use crate::draft::Draft;
use crate::view::{BoardView, Viewer};
use chess_model::materials;

/// The board line of FICS style 12 for this viewer: 31 fields between single blanks. The initial time is in minutes,
/// the remaining times are whole seconds truncated towards zero, and the time taken is `(m:ss)`.
pub fn line12(v: &BoardView, who: Viewer) -> Draft
    ensures { result ≡ line12_text v.now who }
{
    let mut line = Draft::new();
    line.text(b"<12>");
    put_position(&mut line, &v.face);
    put_game(&mut line, v, who);
    put_strengths(&mut line, v);
    put_moves(&mut line, v, who);
    line
}

/// Appends the fields of the game and its terms.
#[tactic(auto, unfolding(crate::specs::Line12::game_fields))]
fn put_game(line: &mut Draft, v: &BoardView, who: Viewer)
    requires room { HasRoomInLine 120 line.old }
    ensures text { line.new ≡ line.old ++ spaced (game_fields v.now who) }
    ensures most { length line.new ≤ length line.old + 120 }
{
    put_players(line, v);
    line.signed_field(i64::from(who.relation));
    line.number_field(u64::from(v.minutes));
    line.number_field(u64::from(v.increment));
}

/// Appends the fields of the game's number and its players.
fn put_players(line: &mut Draft, v: &BoardView)
    requires room { HasRoomInLine 57 line.old }
    ensures text { line.new
        ≡ line.old ++ spaced (game_number v.now ∷ white_name v.now ∷ black_name v.now ∷ []) }
    ensures most { length line.new ≤ length line.old + 57 }
{
    line.number_field(u64::from(v.game));
    line.name_field(&v.white);
    line.name_field(&v.black);
}

/// Appends the fields of what the players have.
#[tactic(auto, unfolding(crate::specs::Line12::strength_fields))]
fn put_strengths(line: &mut Draft, v: &BoardView)
    requires room { HasRoomInLine 84 line.old }
    ensures text { line.new ≡ line.old ++ spaced (strength_fields v.now) }
    ensures most { length line.new ≤ length line.old + 84 }
{
    let (white, black) = materials(&v.face.men);
    line.number_field(white);
    line.number_field(black);
    put_seconds(line, v.remaining[0]);
    put_seconds(line, v.remaining[1]);
}

/// Appends the fields of the moves, and the board's orientation.
#[tactic(auto, unfolding(crate::specs::Line12::move_fields))]
fn put_moves(line: &mut Draft, v: &BoardView, who: Viewer)
    requires room { HasRoomInLine 80 line.old }
    ensures text { line.new ≡ line.old ++ spaced (move_fields v.now who) }
    ensures most { length line.new ≤ length line.old + 80 }
{
    line.number_field(u64::from(v.face.number));
    line.field(v.face.verbose.bytes());
    put_time_taken(line, v.taken);
    line.field(v.face.pretty.bytes());
    line.field(flag(who.flip));
}

/// Appends a time in milliseconds as a field of whole seconds, truncated towards zero.
fn put_seconds(line: &mut Draft, millis: i64)
    requires room { HasRoomInLine 21 line.old }
    ensures text { line.new ≡ line.old ++ 32 ∷ signed_decimal (whole_seconds_of millis) }
    ensures most { length line.new ≤ length line.old + 21 }
{
    line.signed_field(millis / 1_000);
}

/// Appends a time in milliseconds as the field `(m:ss)`.
fn put_time_taken(line: &mut Draft, millis: u64)
    requires room { HasRoomInLine 26 line.old }
    ensures text { line.new ≡ line.old ++ 32 ∷ time_taken millis }
    ensures most { length line.new ≤ length line.old + 26 }
{
    let seconds = millis / 1_000;
    line.text(b" (");
    line.number(seconds / 60);
    line.text(b":");
    line.text(&two_digits(seconds % 60));
    line.text(b")");
}

/// A number below 100 in two digits.
fn two_digits(n: u64) -> [u8; 2]
    requires { n < 100 }
    ensures text { result ≡ two_digits_of n }
    ensures printable { IsTrue (list_all is_printable result) }
{
    [b'0' + (n / 10) as u8, b'0' + (n % 10) as u8]
}

/// A board line, cut at its blanks, has exactly its 31 fields, and none of them is empty, where the two texts of the
/// previous move have no blank. Nothing is computed: the contract is a law of the text that `line12` writes.
pub fn line12_fields(v: &BoardView, who: Viewer)
    requires verbose { HasNoBlank v.now.face.verbose }
    requires pretty { HasNoBlank v.now.face.pretty }
    ensures fields { cut_at_blanks (line12_text v.now who) ≡ fields_of v.now who }
    ensures count { length (fields_of v.now who) ≡ 31 }
    ensures filled { All (λ field. 0 < length field) (fields_of v.now who) }
{
    let _white = v.white.letters();
    let _black = v.black.letters();
    let _verbose = v.face.verbose.bytes();
    let _pretty = v.face.pretty.bytes();
}
