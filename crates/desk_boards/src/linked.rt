//! A half-move at one board of a pair, of which the other one learns.
ghost use Rattle.std.specs.Prelude.{◌≡◌, ◌<◌, ◌≤◌, IfSome, OnErr, length};
ghost use Rattle.chess_model.specs.Limits.{most_halves};
ghost use Rattle.chess_model.specs.Allowed.{Allowed};
ghost use Rattle.clock_ledger.specs.Charges.{IsChargeable};
ghost use Rattle.clock_ledger.specs.Span.{IsStamp};
ghost use Rattle.game_board.specs.Board.{position_of};
ghost use Rattle.game_board.specs.Learn.{learnt};
ghost use Rattle.game_board.specs.Play.{move_answer, play_after, play_reply};
ghost use Rattle.game_board.specs.Put.{with_put};
ghost use Rattle.desk_boards.specs.Boards.{told_answer};
ghost use Rattle.desk_boards.specs.Linked.{AreLinked};

use chess_model::{Colour, Man, MoveWord};
use clock_ledger::Moment;
use fics_words::Refusal;
use game_board::{GameBoard, Played};

/// Plays a word of a colour at one board of a pair, with the stamp of its client if it has one, and gives the man that
/// the half-move captures. The other board learns of it, so that the man comes into the hand of its own colour there.
/// Refused as the board refuses a word; a refusal changes neither board. Takes no memory.
pub(crate) fn play_linked(
    own: &mut GameBoard,
    other: &mut GameBoard,
    colour: Colour,
    word: &MoveWord,
    moment: Moment,
    stamp: Option<u32>,
) -> Result<Option<Man>, Refusal>
    requires linked { AreLinked own.old other.old }
    requires order { own.old.begin ≤ moment }
    requires stamp { IfSome stamp IsStamp }
    ensures reply { result ≡ play_reply own.old (move_answer own.old colour word.now) }
    ensures own { own.new ≡ play_after own.old moment stamp (move_answer own.old colour word.now) }
    ensures other { other.new ≡ told_answer other.old (move_answer own.old colour word.now) }
    ensures linked { AreLinked own.new other.new }
    ensures unplayed { OnErr result (own.new ≡ own.old) }
    ensures untold { OnErr result (other.new ≡ other.old) }
    ensures begins { own.new.begin ≤ moment }
    ensures waits { other.new.begin ≡ other.old.begin }
{
    let what = own.resolve(colour, word)?;
    let captured = own.make(&what, moment, stamp);
    other.learn(what, captured);
    Ok(captured)
}

/// Lays an allowed half-move with the charge that it has, if it has one, on one board of a pair. The other board
/// learns of it, so that a man that is captured comes into the hand of its own colour there. Takes no memory.
pub(crate) fn lay_linked(own: &mut GameBoard, other: &mut GameBoard, half: &Played)
    requires linked { AreLinked own.old other.old }
    requires allowed { Allowed (position_of own.old) half.now.what }
    requires room { own.old.played < most_halves }
    requires short { length own.old.list < most_halves }
    requires sound { IfSome half.now.charge IsChargeable }
    ensures own { own.new ≡ with_put own.old half.now }
    ensures other { other.new ≡ learnt other.old half.now.what }
    ensures linked { AreLinked own.new other.new }
{
    let captured = own.lay(*half);
    other.learn(half.what, captured);
}
