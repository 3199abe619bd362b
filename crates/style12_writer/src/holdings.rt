//! The holdings line.
ghost use Rattle.std.specs.Prelude.{◌≡◌, ◌+◌, ◌≤◌, [], ◌∷◌, ◌++◌, length};
ghost use Rattle.move_writer.specs.Letters.{letter_of};
ghost use Rattle.style12_writer.specs.HoldingsLine.{came_text, hand_text, holdings_text, men_text};
ghost use Rattle.style12_writer.specs.Room.{HasRoomInLine};

use crate::draft::Draft;
use chess_model::Kind;
use holdings_drops::Holdings;
use move_writer::letter;

/// How many men of a kind a hand has at most: as many as there are pawns in two sets.
const MOST_OF_A_KIND: u8 = 16;

/// The line of the men in hand, `<b1> game N white [..] black [..]`, after FICS's: a letter for each man, in the order
/// P N B R Q and in upper case for both colours, followed by ` <- X` where a man of the kind X has just come. Of a kind
/// there are at most 16 letters, since no hand of a game has more.
pub fn line_b1(game: u16, white: &Holdings, black: &Holdings, came: Option<Kind>) -> Draft
    ensures { result ≡ holdings_text game white.now black.now came }
{
    let mut line = Draft::new();
    line.text(b"<b1> game ");
    line.number(u64::from(game));
    line.text(b" white [");
    put_hand(&mut line, white);
    line.text(b"] black [");
    put_hand(&mut line, black);
    line.text(b"]");
    put_came(&mut line, came);
    line
}

/// Appends the men in a hand.
fn put_hand(line: &mut Draft, hand: &Holdings)
    requires room { HasRoomInLine 80 line.old }
    ensures text { line.new ≡ line.old ++ hand_text hand.now }
    ensures most { length line.new ≤ length line.old + 80 }
{
    put_men(line, Kind::Pawn, hand.count(Kind::Pawn));
    put_men(line, Kind::Knight, hand.count(Kind::Knight));
    put_men(line, Kind::Bishop, hand.count(Kind::Bishop));
    put_men(line, Kind::Rook, hand.count(Kind::Rook));
    put_men(line, Kind::Queen, hand.count(Kind::Queen));
}

/// Appends a letter for each man of a kind.
fn put_men(line: &mut Draft, kind: Kind, count: u8)
    requires room { HasRoomInLine 16 line.old }
    ensures text { line.new ≡ line.old ++ men_text kind count }
    ensures most { length line.new ≤ length line.old + 16 }
{
    for _man in 0..count.min(MOST_OF_A_KIND) {
        put_letter(line, kind);
    }
}

/// Appends the letter of a kind.
fn put_letter(line: &mut Draft, kind: Kind)
    requires room { HasRoomInLine 1 line.old }
    ensures text { line.new ≡ line.old ++ letter_of kind ∷ [] }
    ensures len { length line.new ≡ length line.old + 1 }
{
    line.byte(letter(kind));
}

/// Appends the man that has just come, if one has.
fn put_came(line: &mut Draft, came: Option<Kind>)
    requires room { HasRoomInLine 5 line.old }
    ensures text { line.new ≡ line.old ++ came_text came }
    ensures most { length line.new ≤ length line.old + 5 }
{
    if let Some(kind) = came {
        line.text(b" <- ");
        put_letter(line, kind);
    }
}
