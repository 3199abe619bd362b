//! The half-move that a word stands for, or why it stands for none.
ghost use Rattle.std.specs.Prelude.{◌≡◌, IfOk, IfErr, Some, None};
ghost use Rattle.chess_model.specs.Answer.{is_king_at_home, castling_of, IsAnswer, IsRefusal};
ghost use Rattle.chess_model.specs.WordAnswer.{word_answer};

use crate::asked::AskedBoard;
use crate::drops::{has_drops, may_drop_on};
use crate::homes::home_of_king;
use crate::men::{is_held_by, is_man_of};
use crate::named::{NamedWord, is_allowed, named_answer};
use crate::promotions::promotion_of;
use chess_model::{Kind, Move, MoveWord, Rejection, Square};

/// Whether the own king stands on its home square, this one, on file e.
fn is_king_at_home<B: AskedBoard>(board: &B, s: Square) -> bool
    ensures { result ≡ is_king_at_home (B.position board.now) s }
{
    if !is_man_of(board.to_move(), Kind::King, board.man_on(s)) {
        return false;
    }
    s == home_of_king(board.rules(), board.to_move()) && s.file() == 4
}

/// The castling, long or not, that two squares stand for, where the own king is at home on file e: `e1g1`,
/// `e1c1`, `e8g8` and `e8c8`.
pub fn castling_of<B: AskedBoard>(board: &B, from: Square, to: Square) -> Option<bool>
    ensures { result ≡ castling_of (B.position board.now) from to }
{
    let at_home = is_king_at_home(board, from);
    if at_home && to.number() == from.number() + 2 {
        Some(false)
    } else if at_home && to.number() + 2 == from.number() {
        Some(true)
    } else {
        None
    }
}

fn castle_answer<B: AskedBoard>(board: &B, long: bool) -> Result<Move, Rejection>
    ensures answered { IfOk result (IsAnswer (B.position board.now) (MoveWord.Castle long)) }
    ensures refused { IfErr result (IsRefusal (B.position board.now) (MoveWord.Castle long)) }
{
    let m = Move::Castle { long };
    if is_allowed(board, &m) {
        Ok(m)
    } else {
        Err(Rejection::CastleForbidden)
    }
}

fn castling_squares_answer<B: AskedBoard>(
    board: &B,
    from: Square,
    to: Square,
    promo: Option<Kind>,
    long: bool,
) -> Result<Move, Rejection>
    requires { castling_of (B.position board.now) from to ≡ Some long }
    ensures answered { IfOk result (IsAnswer (B.position board.now) (MoveWord.Coordinate from to promo)) }
    ensures refused { IfErr result (IsRefusal (B.position board.now) (MoveWord.Coordinate from to promo)) }
{
    let m = Move::Castle { long };
    if is_allowed(board, &m) {
        Ok(m)
    } else {
        Err(Rejection::CastleForbidden)
    }
}

fn squares_answer<B: AskedBoard>(
    board: &B,
    from: Square,
    to: Square,
    promo: Option<Kind>,
) -> Result<Move, Rejection>
    requires { castling_of (B.position board.now) from to ≡ None }
    ensures answered { IfOk result (IsAnswer (B.position board.now) (MoveWord.Coordinate from to promo)) }
    ensures refused { IfErr result (IsRefusal (B.position board.now) (MoveWord.Coordinate from to promo)) }
{
    let m = Move::Plain {
        from,
        to,
        promo: promotion_of(board, from, to, promo),
    };
    if !is_held_by(board.to_move(), board.man_on(from)) {
        return Err(Rejection::NoPiece);
    }
    if !board.goes(&m) {
        return Err(Rejection::CannotReach);
    }
    if !board.stays_safe(&m) {
        return Err(Rejection::LeavesKing);
    }
    Ok(m)
}

fn drop_answer<B: AskedBoard>(board: &B, kind: Kind, to: Square) -> Result<Move, Rejection>
    ensures answered { IfOk result (IsAnswer (B.position board.now) (MoveWord.Drop kind to)) }
    ensures refused { IfErr result (IsRefusal (B.position board.now) (MoveWord.Drop kind to)) }
{
    if !has_drops(board.rules()) {
        return Err(Rejection::NoDrops);
    }
    if board.in_hand(kind) == 0 {
        return Err(Rejection::NotInHand);
    }
    if board.man_on(to).is_some() {
        return Err(Rejection::Occupied);
    }
    if !may_drop_on(kind, to) {
        return Err(Rejection::EndRank);
    }
    let m = Move::Drop { kind, to };
    if is_allowed(board, &m) {
        Ok(m)
    } else {
        Err(Rejection::LeavesKing)
    }
}

fn matched<B: AskedBoard>(board: &B, word: &MoveWord) -> Result<Move, Rejection>
    ensures answered { IfOk result (IsAnswer (B.position board.now) word.now) }
    ensures refused { IfErr result (IsRefusal (B.position board.now) word.now) }
{
    match word {
        MoveWord::Coordinate { from, to, promo } => match castling_of(board, *from, *to) {
            Some(long) => castling_squares_answer(board, *from, *to, *promo, long),
            None => squares_answer(board, *from, *to, *promo),
        },
        MoveWord::Named {
            kind,
            file,
            rank,
            to,
            promo,
        } => named_answer(
            board,
            &NamedWord {
                kind: *kind,
                file: *file,
                rank: *rank,
                to: *to,
                promo: *promo,
            },
        ),
        MoveWord::Castle { long } => castle_answer(board, *long),
        MoveWord::Drop { kind, to } => drop_answer(board, *kind, *to),
    }
}

/// The answer to a written word: the one allowed move that matches it, or the first cause why there is none.
///
/// Two squares stand for the move between them, or for castling where the own king stands at home on file e and
/// goes two squares. A kind and a target stand for the moves of the own men of that kind. A pawn that reaches
/// the last rank without a letter becomes a queen; a letter on another move is ignored.
pub fn answer<B: AskedBoard>(board: &B, word: &MoveWord) -> Result<Move, Rejection>
    ensures value { result ≡ word_answer (B.position board.now) word.now }
    ensures answered { IfOk result (IsAnswer (B.position board.now) word.now) }
    ensures refused { IfErr result (IsRefusal (B.position board.now) word.now) }
{
    matched(board, word)
}
